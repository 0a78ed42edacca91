ghost use Rattle.std.specs.Prelude.{◌≡◌, map, IfOk};
ghost use Rattle.serde_json.specs.Data.{array};
ghost use Rattle.serde_json.specs.View.{view, items_of};
ghost use Rattle.ev_types.specs.Events.{op_of};
ghost use Rattle.ev_journal.specs.Rendering.{verdict_tree, row_object};
ghost use Rattle.ev_sotw.specs.Follows.{requests_by, moved_by, replied_by, type_by, request_by};

use crate::requests::sotw_request;
use crate::state::SotwState;
use ev_journal::{actor_word, op_word, verdict_word};
use ev_types::{Entry, Request, Verdict};
use serde_json::{Value, json};
use std::alloc::{AllocError, Global};

// The tree of an answer with requests.
pub(crate) fn moved_value(
    alloc: Global,
    state: &SotwState,
    requests: &[Request],
) -> Result<Value, AllocError>
    ensures { IfOk result (λ made. view made ≡ moved_by state.now requests.now) }
{
    let requests = request_values(alloc, state, requests)?;
    json!(in alloc; {"requests": requests})
}

// The tree of an answer to a response.
pub(crate) fn replied_value(
    alloc: Global,
    state: &SotwState,
    requests: &[Request],
    verdicts: &[Verdict],
) -> Result<Value, AllocError>
    ensures { IfOk result (λ made. view made ≡ replied_by state.now requests.now verdicts.now) }
{
    let requests = request_values(alloc, state, requests)?;
    let verdicts = verdict_values(alloc, verdicts)?;
    json!(in alloc; {"requests": requests, "verdicts": verdicts})
}

// The tree of an entry with this answer.
pub(crate) fn row_value(alloc: Global, entry: &Entry, answer: Value) -> Result<Value, AllocError>
    ensures { let entry = entry.now in
        IfOk result (λ made. view made ≡ row_object entry.actor entry.at entry.step (op_of entry.event) (view answer)) }
{
    let actor = actor_word(alloc, entry.actor)?;
    let op = op_word(entry.event.op());
    json!(in alloc; {"actor": actor, "answer": answer, "at": entry.at, "op": op, "step": entry.step})
}

// The trees of requests.
fn request_values(
    alloc: Global,
    state: &SotwState,
    requests: &[Request],
) -> Result<Value, AllocError>
    ensures { IfOk result (λ made. view made ≡ requests_by state.now requests.now) }
{
    let mut values = Vec::with_capacity(alloc, requests.len())?;
    for request in requests {
        values.push(request_value(alloc, state, request)?)?;
    }
    Ok(Value::Array(values))
}

// The tree of a request.
fn request_value(alloc: Global, state: &SotwState, request: &Request) -> Result<Value, AllocError>
    ensures { IfOk result (λ made. view made ≡ request_by state.now request.now) }
{
    sotw_request(alloc, state.of(request.kind), request)
}

// The trees of verdicts.
fn verdict_values(alloc: Global, verdicts: &[Verdict]) -> Result<Value, AllocError>
    ensures { IfOk result (λ made. view made ≡ array (items_of (map verdict_tree verdicts.now))) }
{
    let mut values = Vec::with_capacity(alloc, verdicts.len())?;
    for verdict in verdicts {
        values.push(Value::String(verdict_word(alloc, *verdict)?))?;
    }
    Ok(Value::Array(values))
}
