ghost use Rattle.std.specs.Prelude.{◌≡◌, IfOk};
ghost use Rattle.ev_actors.specs.Journals.{HasReplayed};
ghost use Rattle.ev_soak.specs.Lines.{IsSoakText};
ghost use Rattle.ev_app.specs.Commands.{IsSoak};

use crate::replay::replay;
use crate::run::workers_of;
use ev_actors::Journaled;
use ev_keys::Keys;
use ev_soak::{script, write_soak};
use std::alloc::{AllocError, Global};
use std::mem::drop;

// The line that says what the replay of a seed's script came to.
#[tactic(auto, using(crate::proofs::SoakLemmas::soak_told))]
pub(crate) fn soak_text(alloc: Global, seed: u64, count: u32) -> Result<Vec<u8>, AllocError>
    requires within { IsSoak seed count }
    ensures { IfOk result (λ text. IsSoakText seed count text.items) }
{
    let script = script(alloc, seed, count)?;
    // what the script keeps
    let _workers = workers_of(&script);
    let registry = replay(alloc, Keys::of(&[seed]), &script)?;
    let version = registry.latest();
    let text = write_soak(alloc, count + 1, registry.journal(), version);
    drop(registry);
    Ok(text?)
}
