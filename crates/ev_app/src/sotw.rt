ghost use Rattle.std.specs.Prelude.{◌≡◌, ◌≢◌, ◌≤◌, ◌⊎◌, false, Some, Ok, Err, IfOk, IfErr};
ghost use Rattle.ev_io.specs.Outside.{Rose};
ghost use Rattle.ev_io.specs.declared.faults.ScriptFault.TheVariants.{OutOfMemory};
ghost use Rattle.ev_script.specs.Faults.{Input};
ghost use Rattle.ev_script.specs.ReadTrees.{IsTreesAnswer};
ghost use Rattle.ev_script.specs.Script.{script_of};
ghost use Rattle.ev_script.specs.declared.trees.ScriptTrees.{ScriptTrees};
ghost use Rattle.ev_expand.specs.Said.{lines_in};
ghost use Rattle.ev_sotw.specs.Lines.{sotw_lines};
ghost use Rattle.ev_sotw.specs.Text.{versions_in};
ghost use Rattle.ev_sotw_delta.specs.DeltaText.{delta_script};
ghost use Rattle.ev_app.specs.declared.commands.Command.TheVariants.{Sotw};
ghost use Rattle.ev_app.specs.Sotw.{IsSotwText, IsDeltaAnswer, IsSotwAnswer};
ghost use Rattle.ev_app.specs.Texts.{IsMadeBy};

use crate::input::{KeyedScript, read_input};
use crate::made::Made;
use crate::replay::replay;
use crate::run::workers_of;
use crate::status::Status;
use crate::trees::read_trees_of;
use ev_actors::Journaled;
use ev_io::{MemSource, ScriptFault, Source};
use ev_keys::Keys;
use ev_model_laws::{replay_is_a_run_of_its_script, runs_have_the_laws};
use ev_script::{ScriptTrees, WithOperation};
use ev_sotw::{StateResponse, render_sotw};
use ev_sotw_delta::{Delta, DeltaError, same_world, to_delta};
use ev_types::{Script, Text};
use std::alloc::{AllocError, Global};
use std::mem::drop;

/// The kind of the fault that the incremental script grows beyond the limits of inputs.
const GROWS_TOO_LARGE: u8 = 10;

/// How many bytes of a text are read at once.
const PIECE: usize = 65_536;

// Makes the journal of the script of the state of the world that the source's bytes are.
#[tactic(auto, using(crate::proofs::SotwLemmas::answered, crate::proofs::SotwLemmas::not_read))]
pub(crate) fn make_sotw<S: Source>(alloc: Global, source: &mut S) -> Result<Made, ScriptFault>
    ensures made { IsMadeBy Sotw (S.left source.old) (S.left source.new) result }
    ensures failed { result ≡ Err ScriptFault.Read → Rose (S.faults source.old) (S.faults source.new) }
    ensures unended { result ≡ Err ScriptFault.Read → S.ended source.new ≡ S.ended source.old }
    ensures same_count { (S.faults source.new ≡ S.faults source.old) ⊎ (result ≡ Err ScriptFault.Read) }
    ensures count { S.faults source.old ≤ S.faults source.new }
{
    let trees = read_trees_of(alloc, &WithOperation(StateResponse), source)?;
    sotw_made(alloc, trees)
}

// What answers the trees of a script of the state of the world, or why nothing does.
fn sotw_made(alloc: Global, trees: ScriptTrees) -> Result<Made, ScriptFault>
    requires trees { (input : Input) × IsTreesAnswer sotw_lines input (Ok trees) }
    ensures answer { IsSotwAnswer trees result }
    ensures read { result ≢ Err ScriptFault.Read }
{
    let Delta { text, versions } = delta_of(alloc, trees)?;
    let KeyedScript { script, keys } = read_text(alloc, text)?;
    Ok(Made {
        text: sotw_text(alloc, keys, versions.as_slice(), &script)?,
        status: Status::Done,
    })
}

// The incremental script that says what the trees say, as a text, with their versions, or why there is none.
fn delta_of(alloc: Global, trees: ScriptTrees) -> Result<Delta, ScriptFault>
    requires trees { (input : Input) × IsTreesAnswer sotw_lines input (Ok trees) }
    ensures answer { IsDeltaAnswer trees result }
    ensures read { result ≢ Err ScriptFault.Read }
{
    match to_delta(alloc, trees) {
        Ok(delta) => Ok(delta),
        Err(DeltaError::Large { line }) => Err(ScriptFault::Bad {
            line,
            kind: GROWS_TOO_LARGE,
        }),
        Err(DeltaError::OutOfMemory) => Err(ScriptFault::OutOfMemory),
    }
}

// The script that a text without a fault is.
#[tactic(auto, using(crate::proofs::SotwLemmas::read_again))]
fn read_text(alloc: Global, text: Vec<u8>) -> Result<KeyedScript, ScriptFault>
    ensures script { IfOk result (λ read. script_of false text.items ≡ Some read.script) }
    ensures memory { IfErr result (λ fault. fault ≡ OutOfMemory) }
{
    let mut source = MemSource::new(text, PIECE, Vec::new(alloc));
    match read_input(alloc, &mut source) {
        Ok(read) => Ok(read),
        // the text has no fault, and memory gives all of it: it was memory that ran out
        Err(_) => Err(ScriptFault::OutOfMemory),
    }
}

// The text of the journal of the replay of a script of the state of the world,
// by the versions of its lines and the incremental script that says the same.
#[tactic(auto, using(crate::proofs::SotwLemmas::sotw_told))]
fn sotw_text(
    alloc: Global,
    keys: Keys,
    versions: &[Text],
    script: &Script,
) -> Result<Vec<u8>, AllocError>
    ensures { IfOk result (λ text. (input : Input) (trees : ScriptTrees) → IsTreesAnswer sotw_lines input (Ok trees)
        → script.now ≡ delta_script trees → versions.now ≡ versions_in trees.header.profile (lines_in trees)
        → IsSotwText trees text.items) }
{
    // the journal is a run of its script; each run has the laws, and one of such a script is the same world
    runs_have_the_laws();
    replay_is_a_run_of_its_script();
    same_world();
    let workers = workers_of(script);
    let registry = replay(alloc, keys, script)?;
    let text = render_sotw(alloc, versions, workers, registry.journal());
    drop(registry);
    Ok(text?)
}
