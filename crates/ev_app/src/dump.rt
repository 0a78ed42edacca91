ghost use Rattle.std.specs.Prelude.{◌≡◌, ◌<◌, ◌≤◌, ◌⊎◌, ℕ, IsTrue, ◌≢◌, length, Err, IfOk, IfSome};
ghost use Rattle.ev_io.specs.Outside.{Rose};
ghost use Rattle.ev_types.specs.declared.journals.Finding.TheVariants.{Legal};
ghost use Rattle.ev_model.specs.Finding.{finding_of};
ghost use Rattle.ev_dump.specs.Dumps.{IsDump, end_line};
ghost use Rattle.ev_dump.specs.Fronts.{ends_commit};
ghost use Rattle.ev_app.specs.declared.commands.Command.TheVariants.{Dump};
ghost use Rattle.ev_app.specs.Dumps.{IsDumpAnswer};
ghost use Rattle.ev_app.specs.Texts.{IsMadeBy};

use crate::made::Made;
use crate::run::workers_of;
use crate::status::Status;
use ev_audit::{audit, write_finding};
use ev_audit_input::{Audited, read_audited};
use ev_dump::{dump, dumps_by_prefix, ends_commit, state_after};
use ev_io::{MAX_LINES, ScriptFault, Source};
use ev_types::Finding;
use std::alloc::{AllocError, Global};
use std::mem::drop;

/// The kind of the fault that no commit ends with this many entries.
const NO_COMMIT: u8 = 12;

// Makes the line of what is known after the first n entries of the journal that follows the script
// in the source's bytes, or of what is found of it where it isn't legal.
#[tactic(auto, using(crate::proofs::DumpLemmas::dumped, crate::proofs::DumpLemmas::not_dumped))]
pub(crate) fn make_dump<S: Source>(
    alloc: Global,
    entries: u32,
    source: &mut S,
) -> Result<Made, ScriptFault>
    ensures made { IsMadeBy (Dump entries) (S.left source.old) (S.left source.new) result }
    ensures failed { result ≡ Err ScriptFault.Read → Rose (S.faults source.old) (S.faults source.new) }
    ensures unended { result ≡ Err ScriptFault.Read → S.ended source.new ≡ S.ended source.old }
    ensures same_count { (S.faults source.new ≡ S.faults source.old) ⊎ (result ≡ Err ScriptFault.Read) }
    ensures count { S.faults source.old ≤ S.faults source.new }
{
    let audited = read_audited(alloc, source)?;
    // what a script keeps, by which its bytes are no other's
    let _workers = workers_of(&audited.script);
    // two legal journals that agree in their first entries have one dump of these
    dumps_by_prefix();
    dump_made(alloc, &audited, entries)
}

// The dump of this many entries of a journal, or what is found of it.
fn dump_made(alloc: Global, audited: &Audited, entries: u32) -> Result<Made, ScriptFault>
    requires few { length audited.now.rows.items < MAX_LINES }
    ensures answer { IsDumpAnswer audited.now.format audited.now.script audited.now.rows.items entries result }
    ensures read { result ≢ Err ScriptFault.Read }
{
    let rows = audited.rows.as_slice();
    let finding = audit(alloc, audited.keys, audited.format, &audited.script, rows)?;
    if finding != Finding::Legal {
        return Ok(Made {
            text: write_finding(alloc, finding)?,
            status: Status::Illegal,
        });
    }
    if !ends_commit(rows, entries) {
        let Some(line) = line_of_end(audited) else {
            return Err(ScriptFault::OutOfMemory);
        };
        return Err(ScriptFault::Bad {
            line,
            kind: NO_COMMIT,
        });
    }
    Ok(Made {
        text: dump_text(alloc, audited, entries)?,
        status: Status::Done,
    })
}

// The number of the journal's end line, where it is one of 32 bits.
fn line_of_end(audited: &Audited) -> Option<u32>
    requires few { length audited.now.rows.items < MAX_LINES }
    ensures { IfSome result (λ line. line ≡ end_line audited.now.script audited.now.rows.items) }
{
    let rows = audited.rows.len() as u32;
    audited.script.count.checked_add(rows + 2)
}

// The line of what is known after the first n entries of a legal journal.
fn dump_text(alloc: Global, audited: &Audited, entries: u32) -> Result<Vec<u8>, AllocError>
    requires legal { finding_of audited.now.format audited.now.script audited.now.rows.items ≡ Legal }
    requires ends { IsTrue (ends_commit audited.now.rows.items entries) }
    ensures { IfOk result (λ text. IsDump audited.now.format audited.now.script audited.now.rows.items entries
        text.items) }
{
    let registry = state_after(
        alloc,
        audited.keys,
        audited.format,
        &audited.script,
        audited.rows.as_slice(),
        entries,
    )?;
    let text = dump(alloc, &registry);
    drop(registry);
    Ok(text?)
}
