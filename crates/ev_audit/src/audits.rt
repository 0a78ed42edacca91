ghost use Rattle.std.specs.Prelude.{◌≡◌, ◌<◌, length, IfOk};
ghost use Rattle.ev_types.specs.declared.journals.Finding.TheVariants.{Legal};
ghost use Rattle.ev_model.specs.Finding.{finding_of};
ghost use Rattle.ev_audit.specs.Audits.{HasLegalJournal, IsBefore};

use crate::walk::Walk;
use ev_keys::Keys;
use ev_types::{Finding, Format, Row, Script};
use std::alloc::{AllocError, Global};
use std::mem::drop;

/// What is found of a journal that is held against its script, by the rules of its format.
/// Its rows may be any: of actors that the script doesn't have, out of order, or too few.
/// Where it finds them legal, they are those of a run of the machine that holds the script's operations,
/// with all laws of runs. The tables by what the input names hash by these keys.
pub fn audit(
    alloc: Global,
    keys: Keys,
    format: Format,
    script: &Script,
    rows: &[Row],
) -> Result<Finding, AllocError>
    requires few { length rows.now < u32.MAX }
    ensures finding { IfOk result (λ found. found ≡ finding_of format script.now rows.now) }
    ensures legal { result ≡ Ok Legal → HasLegalJournal format script.now rows.now }
{
    let _ = &script.workers;
    let mut walk = Walk::new(alloc, keys, format, script)?;
    let found = walk_over(alloc, &mut walk, script, rows);
    drop(walk);
    found
}

// Takes a walk from before the first row to where anything is found, or after the last row.
fn walk_over(
    alloc: Global,
    walk: &mut Walk,
    script: &Script,
    rows: &[Row],
) -> Result<Finding, AllocError>
    requires few { length rows.now < u32.MAX }
    requires before { IsBefore script.now rows.now 0 walk.old }
    ensures { IfOk result (λ found. found ≡ finding_of walk.old.courses.format script.now rows.now) }
{
    for place in 0..rows.len() {
        let found = walk.pass(alloc, script, rows, place)?;
        if let Some(finding) = found {
            return Ok(finding);
        }
    }
    Ok(walk.end(script, rows))
}
