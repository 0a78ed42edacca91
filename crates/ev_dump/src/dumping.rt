ghost use Rattle.std.specs.Prelude.{◌≡◌, IfOk};
ghost use Rattle.ev_dump.specs.Texts.{dump_text};

use crate::values::dump_value;
use ev_actors::Journaled;
use ev_registry::Registry;
use std::alloc::{AllocError, Global};

/// Writes the line that says what is known after a registry's journal:
/// the generations of clusters and of listeners, each with its status and how many connections are open on it,
/// what the journal counts up to, how many entries it has, how far the proxy has booted,
/// and the version of the last picture. Where the registry ran out of memory in its last event, so does this.
#[tactic(auto, using(crate::proofs::FloatLemmas::dump_whole), unfolding(crate::specs::Texts::dump_text))]
pub fn dump(alloc: Global, registry: &Registry) -> Result<Vec<u8>, AllocError>
    ensures text { IfOk result (λ text. text.items ≡ dump_text registry.now.journaled) }
{
    let Some(shown) = registry.view(alloc)? else {
        return Err(AllocError);
    };
    let value = dump_value(alloc, &shown, registry.journal())?;
    let mut text = value.to_vec(alloc)?;
    text.push(b'\n')?;
    Ok(text)
}
