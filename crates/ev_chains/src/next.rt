ghost use Rattle.std.specs.Prelude.{◌≡◌, ◌+◌, ◌<◌, ◌≤◌, ◌^◌, length, map, false, IfOk, OnOk, Bool};
ghost use Rattle.serde_json.specs.View.{view};
ghost use Rattle.ev_tree.specs.Rules.{ReadsAs, judged};
ghost use Rattle.ev_listener_json.specs.Chains.{chains_of};
ghost use Rattle.ev_chains.specs.Rows.{has_clash, match_of};
ghost use Rattle.ev_chains.specs.Listeners.{chains_in, rule_told};
ghost use Rattle.ev_chains.specs.State.{numbered, made_by};

use crate::changes::{Numbered, number_chains};
use crate::listed::Listed;
use crate::listeners::inspect_listener;
use ev_tree::{BrokenRules, ReadError};
use serde_json::Value;
use std::alloc::Global;

// What serves once a listener is accepted, and how many numbers are allocated then.
#[derive(Drop)]
pub(crate) struct Next {
    pub rows: Listed,
    pub made: u32,
}

// Reads a listener, and gives its chains their numbers.
pub(crate) fn read_next(
    alloc: Global,
    made: u32,
    serving: &Listed,
    body: &Value,
) -> Result<Next, ReadError>
    requires apart { has_clash (map match_of serving.now) ≡ false }
    requires room { made + length (chains_of (view body.now)) < 2 ^ 32 }
    ensures reading { let chains = chains_in (view body.now) in
        ReadsAs result (judged (rule_told (view body.now))
        (record { rows = numbered made serving.now chains; made = made_by made serving.now chains })) }
    ensures apart { IfOk result (λ next. has_clash (map match_of next.rows) ≡ false) }
    ensures grows { IfOk result (λ next. made ≤ next.made) }
{
    let found = inspect_listener(alloc, body)?;
    let Numbered { rows, made } = number_chains(alloc, made, serving, found.value)?;
    let rows = Listed::of(alloc, serving.keys(), rows)?;
    match with_v26(found.broken, rows.has_clash()).least() {
        Some(rule) => Err(ReadError::Rule(rule)),
        None => Ok(Next { rows, made }),
    }
}

// The same rules, with V26 by whether two chains clash.
fn with_v26(broken: BrokenRules, clash: bool) -> BrokenRules
    ensures { result ≡ record broken { v26 = clash } }
{
    BrokenRules {
        v26: clash,
        ..broken
    }
}
