ghost use Rattle.std.specs.Prelude.{◌≡◌, IfOk, IsTrue, take};
ghost use Rattle.ev_types.specs.declared.journals.Finding.TheVariants.{Legal};
ghost use Rattle.ev_model.specs.Finding.{finding_of, journal_told};
ghost use Rattle.ev_dump.specs.Fronts.{ends_commit};

use crate::entries_told;
use ev_keys::Keys;
use ev_registry::Registry;
use ev_types::{Format, Row, Script};
use std::alloc::{AllocError, Global};

/// The registry in which the first n entries were done of a journal whose rows are found legal
/// with their script, up to where a commit ends. The tables by what the input names hash by these keys.
pub fn state_after(
    alloc: Global,
    keys: Keys,
    format: Format,
    script: &Script,
    rows: &[Row],
    entries: u32,
) -> Result<Registry, AllocError>
    requires legal { finding_of format script.now rows.now ≡ Legal }
    requires ends { IsTrue (ends_commit rows.now entries) }
    ensures journal { IfOk result (λ made. made.journaled ≡ record {
      format = format;
      workers = script.now.workers;
      node = script.now.node;
      journal = take entries (journal_told script.now rows.now);
    }) }
{
    let workers = script.workers;
    let front = entries_told(alloc, script, &rows[..entries as usize])?;
    Registry::of_journal(alloc, keys, format, workers, &script.node, front)
}
