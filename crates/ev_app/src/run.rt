ghost use Rattle.std.specs.Prelude.{◌≡◌, ◌≤◌, ◌⊎◌, Err, IfOk, OnOk};
ghost use Rattle.ev_io.specs.Outside.{Rose};
ghost use Rattle.ev_types.specs.Scripts.{IsScript};
ghost use Rattle.ev_run.specs.Playing.{HasRun};
ghost use Rattle.ev_app.specs.declared.commands.Command.TheVariants.{Run};
ghost use Rattle.ev_app.specs.Runs.{IsRunText};
ghost use Rattle.ev_app.specs.Texts.{IsMadeBy};

use crate::input::{KeyedScript, read_input};
use crate::made::Made;
use crate::status::Status;
use ev_actors::Journaled;
use ev_io::{ScriptFault, Source};
use ev_journal::render_journal;
use ev_journal_read::text_tells_journal;
use ev_keys::Keys;
use ev_registry::Registry;
use ev_run::Pace;
use ev_types::{Format, Script};
use std::alloc::{AllocError, Global};
use std::mem::drop;
use std::sync::Wait;
use std::thread::Threads;

// Makes the journal of the script that the source's bytes are, with a thread for each actor.
pub(crate) fn make_run<R: Threads + Wait + Sync, S: Source, P: Pace + Sync>(
    rt: &R,
    alloc: Global,
    source: &mut S,
    pace: &P,
) -> Result<Made, ScriptFault>
    ensures made { IsMadeBy Run (S.left source.old) (S.left source.new) result }
    ensures failed { result ≡ Err ScriptFault.Read → Rose (S.faults source.old) (S.faults source.new) }
    ensures unended { result ≡ Err ScriptFault.Read → S.ended source.new ≡ S.ended source.old }
    ensures same_count { (S.faults source.new ≡ S.faults source.old) ⊎ (result ≡ Err ScriptFault.Read) }
    ensures count { S.faults source.old ≤ S.faults source.new }
{
    let KeyedScript { script, keys } = read_input(alloc, source)?;
    Ok(Made {
        text: run_text(rt, alloc, keys, &script, pace)?,
        status: Status::Done,
    })
}

// The text of the journal of a script's run with a thread for each actor, by the rules of format 2,
// and what the script keeps.
#[tactic(auto, using(crate::proofs::RunLemmas::run_told))]
fn run_text<R: Threads + Wait + Sync, P: Pace + Sync>(
    rt: &R,
    alloc: Global,
    keys: Keys,
    script: &Script,
    pace: &P,
) -> Result<Vec<u8>, AllocError>
    ensures text { IfOk result (λ text. IsRunText script.now text.items) }
    ensures kept { OnOk result (IsScript script.now) }
{
    // no other journal has the text
    text_tells_journal();
    let workers = workers_of(script);
    let registry = run(rt, alloc, keys, script, pace)?;
    let text = render_journal(alloc, Format::Two, workers, registry.journal());
    drop(registry);
    Ok(text?)
}

// How many workers a script has, and what it keeps.
pub(crate) fn workers_of(script: &Script) -> u32
    ensures workers { result ≡ script.now.workers }
    ensures kept { IsScript script.now }
{
    script.workers
}

// The registry after the whole script. Its tables hash by these keys.
fn run<R: Threads + Wait + Sync, P: Pace + Sync>(
    rt: &R,
    alloc: Global,
    keys: Keys,
    script: &Script,
    pace: &P,
) -> Result<Registry, AllocError>
    ensures { IfOk result (λ registry. HasRun script.now registry.journaled) }
{
    let registry = Registry::new(alloc, keys, script.workers, &script.node, Format::Two)?;
    ev_run::run(rt, alloc, keys, script, pace, registry)
}
