ghost use Rattle.std.specs.Prelude.{◌≡◌};
ghost use Rattle.ev_dump.specs.Fronts.{FrontsAreRuns, ends_commit, is_batched_word};

use ev_types::{Op, Row};

/// Whether a commit ends with the first n rows: there are that many, and the last of them, if any,
/// is no accept and no close.
pub fn ends_commit(rows: &[Row], entries: u32) -> bool
    ensures { result ≡ ends_commit rows.now entries }
{
    if entries == 0 {
        return true;
    }
    match rows.get(entries as usize - 1) {
        Some(row) => !is_batched_word(row.op),
        None => false,
    }
}

// Whether it is the word of an accept or a close.
fn is_batched_word(op: Op) -> bool
    ensures { result ≡ is_batched_word op }
{
    matches!(op, Op::Accept | Op::Close)
}

/// A law of the definitions: where rows are found legal with their script, the entries of their journal,
/// up to where any commit ends, are a run of the machine. It does nothing.
pub fn fronts_are_runs()
    ensures { FrontsAreRuns }
{}
