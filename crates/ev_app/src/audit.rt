ghost use Rattle.std.specs.Prelude.{◌≡◌, ◌<◌, ◌≤◌, ◌⊎◌, length, Err, IfOk};
ghost use Rattle.ev_io.specs.Outside.{Rose};
ghost use Rattle.ev_app.specs.declared.commands.Command.TheVariants.{Audit};
ghost use Rattle.ev_app.specs.Audits.{IsAuditText, status_found};
ghost use Rattle.ev_app.specs.Texts.{IsMadeBy};

use crate::made::Made;
use crate::run::workers_of;
use crate::status::Status;
use ev_audit::{audit, write_finding};
use ev_audit_input::{Audited, read_audited};
use ev_io::{MAX_LINES, ScriptFault, Source};
use ev_model_laws::legal_exactly;
use ev_types::Finding;
use std::alloc::{AllocError, Global};

// Makes the line that says what is found of the journal that follows the script in the source's bytes.
#[tactic(auto, using(crate::proofs::AuditLemmas::audited, crate::proofs::AuditLemmas::audit_lacks, crate::proofs::AuditLemmas::not_audited))]
pub(crate) fn make_audit<S: Source>(alloc: Global, source: &mut S) -> Result<Made, ScriptFault>
    ensures made { IsMadeBy Audit (S.left source.old) (S.left source.new) result }
    ensures failed { result ≡ Err ScriptFault.Read → Rose (S.faults source.old) (S.faults source.new) }
    ensures unended { result ≡ Err ScriptFault.Read → S.ended source.new ≡ S.ended source.old }
    ensures same_count { (S.faults source.new ≡ S.faults source.old) ⊎ (result ≡ Err ScriptFault.Read) }
    ensures count { S.faults source.old ≤ S.faults source.new }
{
    let audited = read_audited(alloc, source)?;
    // what a script keeps, and when rows are found legal
    let _workers = workers_of(&audited.script);
    legal_exactly();
    let made = audit_made(alloc, &audited)?;
    Ok(made)
}

// What is found of a journal, as a line, with its status.
fn audit_made(alloc: Global, audited: &Audited) -> Result<Made, AllocError>
    requires few { length audited.now.rows.items < MAX_LINES }
    ensures { IfOk result (λ made. IsAuditText audited.now.format audited.now.script audited.now.rows.items
        made.status made.text.items) }
{
    let finding = audit(
        alloc,
        audited.keys,
        audited.format,
        &audited.script,
        audited.rows.as_slice(),
    )?;
    Ok(Made {
        text: write_finding(alloc, finding)?,
        status: status_of(finding),
    })
}

// The status that goes with what is found.
fn status_of(finding: Finding) -> Status
    ensures { result ≡ status_found finding }
{
    match finding {
        Finding::Legal => Status::Done,
        Finding::IllegalAt(_) => Status::Illegal,
        Finding::NotTheScript(_) => Status::Illegal,
    }
}
