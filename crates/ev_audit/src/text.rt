ghost use Rattle.std.specs.Prelude.{◌≡◌, IfOk};
ghost use Rattle.serde_json.specs.View.{view};
ghost use Rattle.ev_audit.specs.Texts.{finding_text, finding_tree};

use ev_types::Finding;
use serde_json::{Value, json};
use std::alloc::{AllocError, Global};

/// Writes the line that says what is found of a journal, with the line feed that closes it.
#[tactic(auto, using(crate::proofs::TextLemmas::no_float), unfolding(crate::specs::Texts::finding_text))]
pub fn write_finding(alloc: Global, finding: Finding) -> Result<Vec<u8>, AllocError>
    ensures line { IfOk result (λ text. text.items ≡ finding_text finding) }
{
    let mut text = finding_value(alloc, finding)?.to_vec(alloc)?;
    text.push(b'\n')?;
    Ok(text)
}

// The tree of that line.
fn finding_value(alloc: Global, finding: Finding) -> Result<Value, AllocError>
    ensures { IfOk result (λ v. view v ≡ finding_tree finding) }
{
    match finding {
        Finding::Legal => json!(in alloc; {"finding": "legal"}),
        Finding::IllegalAt(entry) => json!(in alloc; {"entry": entry, "finding": "illegal"}),
        Finding::NotTheScript(entry) =>
            json!(in alloc; {"entry": entry, "finding": "notTheScript"}),
    }
}
