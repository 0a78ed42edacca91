ghost use Rattle.std.specs.Prelude.{◌≡◌, ◌≤◌, ◌⊎◌, Err, IfOk, OnOk};
ghost use Rattle.ev_io.specs.Outside.{Rose};
ghost use Rattle.ev_types.specs.Scripts.{IsScript};
ghost use Rattle.ev_app.specs.declared.commands.Command.TheVariants.{Replay};
ghost use Rattle.ev_actors.specs.Journals.{HasReplayed};
ghost use Rattle.ev_app.specs.Replay.{IsReplayText};
ghost use Rattle.ev_app.specs.Texts.{IsMadeBy};

use crate::input::{KeyedScript, read_input};
use crate::made::Made;
use crate::run::workers_of;
use crate::status::Status;
use ev_actors::Journaled;
use ev_io::{ScriptFault, Source};
use ev_journal::render_journal;
use ev_keys::Keys;
use ev_model_laws::runs_have_the_laws;
use ev_registry::Registry;
use ev_types::{Format, Script};
use std::alloc::{AllocError, Global};
use std::mem::drop;

// Makes the journal of the script that the source's bytes are.
pub(crate) fn make_replay<S: Source>(alloc: Global, source: &mut S) -> Result<Made, ScriptFault>
    ensures made { IsMadeBy Replay (S.left source.old) (S.left source.new) result }
    ensures failed { result ≡ Err ScriptFault.Read → Rose (S.faults source.old) (S.faults source.new) }
    ensures unended { result ≡ Err ScriptFault.Read → S.ended source.new ≡ S.ended source.old }
    ensures same_count { (S.faults source.new ≡ S.faults source.old) ⊎ (result ≡ Err ScriptFault.Read) }
    ensures count { S.faults source.old ≤ S.faults source.new }
{
    let KeyedScript { script, keys } = read_input(alloc, source)?;
    Ok(Made {
        text: replay_text(alloc, keys, &script)?,
        status: Status::Done,
    })
}

// The text of the journal of a script's replay on one thread, by the rules of format 2, and what the script keeps.
fn replay_text(alloc: Global, keys: Keys, script: &Script) -> Result<Vec<u8>, AllocError>
    ensures text { IfOk result (λ text. IsReplayText script.now text.items) }
    ensures kept { OnOk result (IsScript script.now) }
{
    // the journal is a run, and each run has the laws
    runs_have_the_laws();
    let workers = workers_of(script);
    let registry = replay(alloc, keys, script)?;
    let text = render_journal(alloc, Format::Two, workers, registry.journal());
    drop(registry);
    Ok(text?)
}

// The registry after the whole script. Its tables hash by these keys.
pub(crate) fn replay(alloc: Global, keys: Keys, script: &Script) -> Result<Registry, AllocError>
    ensures { IfOk result (λ registry. HasReplayed script.now registry.journaled) }
{
    let registry = Registry::new(alloc, keys, script.workers, &script.node, Format::Two)?;
    ev_actors::replay(alloc, keys, script, registry)
}
