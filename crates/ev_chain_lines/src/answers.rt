ghost use Rattle.std.specs.Prelude.{◌≡◌, IfOk, codes};
ghost use Rattle.serde_json.specs.View.{view};
ghost use Rattle.ev_journal.specs.Rendering.{numbers_tree};
ghost use Rattle.ev_chains.specs.Steps.{Refused, Updated, Accepted, Closed, Drained, Reaped};
ghost use Rattle.ev_chain_lines.specs.Texts.{answer_tree};

use ev_chains::{ChainAnswer, Changed};
use ev_types::Rule;
use serde_json::{Value, json};
use std::alloc::{AllocError, Global};

// A rule by which a listener is refused.
pub(crate) fn refused_value(alloc: Global, rule: Rule) -> Result<Value, AllocError>
    ensures { IfOk result (λ v. view v ≡ answer_tree (Refused rule)) }
{
    let number = rule.number();
    Ok(Value::String(format!(in alloc; "V{number}")?))
}

// What changes where a listener is accepted.
pub(crate) fn changed_value(alloc: Global, changed: &Changed) -> Result<Value, AllocError>
    ensures { IfOk result (λ v. view v ≡ answer_tree (Updated changed.now)) }
{
    let drained = number_values(alloc, changed.drained.as_slice())?;
    let kept = number_values(alloc, changed.kept.as_slice())?;
    let made = number_values(alloc, changed.made.as_slice())?;
    json!(in alloc; {"drained": drained, "kept": kept, "made": made})
}

// Which chain takes a connection.
pub(crate) fn accepted_value(alloc: Global, answer: ChainAnswer) -> Result<Value, AllocError>
    ensures { IfOk result (λ v. view v ≡ answer_tree (Accepted answer)) }
{
    match answer {
        ChainAnswer::InUse => json!(in alloc; "inUse"),
        ChainAnswer::NoChain => json!(in alloc; "noChain"),
        ChainAnswer::Chain(number) => json!(in alloc; {"chain": number}),
    }
}

// Whether a connection was open.
pub(crate) fn closed_value(alloc: Global, was_open: bool) -> Result<Value, AllocError>
    ensures { IfOk result (λ v. view v ≡ answer_tree (Closed was_open)) }
{
    if was_open {
        json!(in alloc; "done")
    } else {
        json!(in alloc; "notOpen")
    }
}

// The connections that a drain timeout closes.
pub(crate) fn drained_value(alloc: Global, conns: &[u64]) -> Result<Value, AllocError>
    ensures { IfOk result (λ v. view v ≡ answer_tree (Drained conns.now)) }
{
    let mut values = Vec::with_capacity(alloc, conns.len())?;
    for conn in conns {
        values.push(Value::from(*conn))?;
    }
    json!(in alloc; {"closed": Value::Array(values)})
}

// The chains that go.
pub(crate) fn reaped_value(alloc: Global, numbers: &[u32]) -> Result<Value, AllocError>
    ensures { IfOk result (λ v. view v ≡ answer_tree (Reaped numbers.now)) }
{
    let numbers = number_values(alloc, numbers)?;
    json!(in alloc; {"reaped": numbers})
}

// The trees of numbers.
fn number_values(alloc: Global, numbers: &[u32]) -> Result<Value, AllocError>
    ensures { IfOk result (λ v. view v ≡ numbers_tree numbers.now) }
{
    let mut values = Vec::with_capacity(alloc, numbers.len())?;
    for number in numbers {
        values.push(Value::from(*number))?;
    }
    Ok(Value::Array(values))
}
