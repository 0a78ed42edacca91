ghost use Rattle.std.specs.Prelude.{◌≡◌, IfOk};
ghost use Rattle.serde_json.specs.View.{view};
ghost use Rattle.ev_soak.specs.Lines.{soak_tree, soak_line};

use ev_tally::tally;
use ev_types::Entry;
use serde_json::{Value, json};
use std::alloc::{AllocError, Global};

/// Writes the line that reports a soak, with the line feed that closes it:
/// how many entries the journal has and how many lines its script,
/// how many generations were destroyed and connections served, and the version of the last picture.
#[tactic(auto, unfolding(crate::specs::Lines::soak_line))]
pub fn write_soak(
    alloc: Global,
    lines: u32,
    journal: &[Entry],
    version: u64,
) -> Result<Vec<u8>, AllocError>
    ensures line { IfOk result (λ text. text.items ≡ soak_line lines journal.now version) }
{
    let mut text = soak_value(alloc, lines, journal, version)?.to_vec(alloc)?;
    text.push(b'\n')?;
    Ok(text)
}

// The tree of that line.
fn soak_value(
    alloc: Global,
    lines: u32,
    journal: &[Entry],
    version: u64,
) -> Result<Value, AllocError>
    ensures { IfOk result (λ v. view v ≡ soak_tree lines journal.now version) }
{
    let counts = tally(journal)?;
    json!(in alloc; {
        "entries": journal.len(),
        "lines": lines,
        "reaped": counts.reaped,
        "served": counts.served,
        "version": version,
    })
}
