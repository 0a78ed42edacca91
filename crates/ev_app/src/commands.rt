ghost use Rattle.std.specs.Prelude.{◌≡◌, ℕ, ◌<◌, ◌^◌, ◌↔◌, [], ◌∷◌, None, IsTrue, IfSome};
ghost use Rattle.ev_app.specs.declared.commands.Command.{Command};
ghost use Rattle.ev_app.specs.declared.commands.Command.TheVariants.{Replay, Run, Audit, Soak, Tls, Dns, Chains, Sotw, Dump};
ghost use Rattle.ev_app.specs.Commands.{Asks, IsSoak, IsWithin};

use crate::numbers::number_of;
use ev_soak::MAX_SOAK;
use ev_types::Text;

/// What the program can be asked for.
#[derive(Clone, Copy, Debug, PartialEq, Eq)]
pub enum Command {
    /// `replay`: the journal of a script, as one thread makes it.
    Replay,
    /// `run`: the journal of a script, as a thread for each actor makes it.
    Run,
    /// `audit`: a line that says what is found of the journal that follows a script.
    Audit,
    /// `soak SEED COUNT`: a line that says what the replay of a seed's script came to. The script has COUNT lines after
    /// its header, 1 to `MAX_SOAK`; nothing is read.
    Soak { seed: u64, count: u32 },
    /// `tls`: the script in which each cluster that names secrets waits for them.
    Tls,
    /// `dns`: the script in which each cluster with host names waits for their addresses.
    Dns,
    /// `chains`: the answers to versions of one listener with several filter chains, and to connections.
    Chains,
    /// `sotw`: the journal of a script whose responses are those of the state of the world, as one thread makes it.
    Sotw,
    /// `dump K`: the configuration after the first K entries of the journal that follows a script, as a line.
    Dump { entries: u32 },
}

/// The command that the arguments ask for, or none where they ask for no one that is built.
#[tactic(auto, using(crate::proofs::CommandLemmas::none_asked))]
pub fn command_of(arguments: &[Text]) -> Option<Command>
    ensures some { IfSome result (Asks arguments.now) }
    ensures none { result ≡ None → (command : Command) → ¬ (Asks arguments.now command) }
{
    if is_word(arguments, "replay") {
        return Some(Command::Replay);
    }
    if is_word(arguments, "run") {
        return Some(Command::Run);
    }
    if is_word(arguments, "audit") {
        return Some(Command::Audit);
    }
    if is_word(arguments, "tls") {
        return Some(Command::Tls);
    }
    if is_word(arguments, "dns") {
        return Some(Command::Dns);
    }
    if is_word(arguments, "chains") {
        return Some(Command::Chains);
    }
    if is_word(arguments, "sotw") {
        return Some(Command::Sotw);
    }
    if let Some(command) = soak_of(arguments) {
        return Some(command);
    }
    dump_of(arguments)
}

// Whether the arguments are this one word.
fn is_word(arguments: &[Text], word: &str) -> bool
    ensures { IsTrue result ↔ (arguments.now ≡ word.now ∷ []) }
{
    match arguments {
        [argument] => argument.as_str() == word,
        _ => false,
    }
}

// The soak that the arguments ask for: `soak`, a seed and a count.
fn soak_of(arguments: &[Text]) -> Option<Command>
    ensures some { IfSome result (Asks arguments.now) }
    ensures none { result ≡ None → (seed : ℕ) → (count : ℕ) → ¬ (Asks arguments.now (Soak seed count)) }
{
    match arguments {
        [word, seed, count] => {
            if word.as_str() != "soak" {
                return None;
            }
            soak_with(number_of(seed.as_str())?, number_of(count.as_str())?)
        }
        _ => None,
    }
}

// The soak of these numbers, where the count is within its limits.
fn soak_with(seed: u64, count: u64) -> Option<Command>
    ensures some { IfSome result (λ command. (command ≡ Soak seed count) × IsWithin command) }
    ensures none { result ≡ None → ¬ (IsSoak seed count) }
{
    if count == 0 || count > u64::from(MAX_SOAK) {
        return None;
    }
    Some(Command::Soak {
        seed,
        count: count as u32,
    })
}

// The dump that the arguments ask for: `dump` and how many entries.
fn dump_of(arguments: &[Text]) -> Option<Command>
    ensures some { IfSome result (Asks arguments.now) }
    ensures none { result ≡ None → (entries : ℕ) → ¬ (Asks arguments.now (Dump entries)) }
{
    match arguments {
        [word, entries] => {
            if word.as_str() != "dump" {
                return None;
            }
            dump_with(number_of(entries.as_str())?)
        }
        _ => None,
    }
}

// The dump of this many entries, where they are within their limit.
fn dump_with(entries: u64) -> Option<Command>
    ensures some { IfSome result (λ command. (command ≡ Dump entries) × IsWithin command) }
    ensures none { result ≡ None → ¬ (entries < 2 ^ 32) }
{
    if entries > u64::from(u32::MAX) {
        return None;
    }
    Some(Command::Dump {
        entries: entries as u32,
    })
}
