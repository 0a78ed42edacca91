ghost use Rattle.std.specs.Prelude.{◌≡◌, ◌<◌, ◌≤◌, ◌⊎◌, Err, IfOk, length};
ghost use Rattle.ev_io.specs.Outside.{Rose};
ghost use Rattle.ev_audit_input.specs.Parts.{ReadsAuditInput};

use ev_io::{Lines, MAX_LINES, ScriptFault, Source};
use ev_journal_read::read_rows;
use ev_keys::Keys;
use ev_script::read_audited_script;
use ev_types::{Format, Row, Script};
use std::alloc::Global;

/// A script, and the rows of the journal after it.
#[derive(Drop)]
pub struct Audited {
    /// Which rules the journal follows.
    pub format: Format,
    pub script: Script,
    pub rows: Vec<Row>,
    /// Keys of the lines of both, for tables of what the script names.
    pub keys: Keys,
}

/// Reads the script and the journal that the source's bytes are.
///
/// # Errors
/// `Bad` with the line and the kind of the first fault of the bytes taken,
/// those at the end of the input only where the source gave its end;
/// `Read` where a read failed, the source didn't give its end and the bytes taken have no fault. `OutOfMemory`
/// where there is no memory for the script or the rows, or the script's responses have 2^32 - 1
/// resources or more together; no read failed.
pub fn read_audited<S: Source>(alloc: Global, source: &mut S) -> Result<Audited, ScriptFault>
    ensures reads { ReadsAuditInput (S.left source.old) (S.left source.new) result }
    ensures few { IfOk result (λ audited. length audited.rows.items < MAX_LINES) }
    ensures failed { result ≡ Err ScriptFault.Read → Rose (S.faults source.old) (S.faults source.new) }
    ensures unended { result ≡ Err ScriptFault.Read → S.ended source.new ≡ S.ended source.old }
    ensures same_count { (S.faults source.new ≡ S.faults source.old) ⊎ (result ≡ Err ScriptFault.Read) }
    ensures count { S.faults source.old ≤ S.faults source.new }
{
    let mut lines = Lines::new(alloc)?;
    let audited = read_audited_script(alloc, &mut lines, source)?;
    let script = audited.script;
    let first = audited.journal;
    let (format, rows) = read_rows(alloc, first.as_slice(), script.workers, &mut lines, source)?;
    Ok(Audited {
        format,
        script,
        rows,
        keys: lines.keys(),
    })
}
