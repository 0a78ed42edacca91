ghost use Rattle.std.specs.Prelude.{◌≡◌, IfOk, map, unwrap_or, [], false};
ghost use Rattle.serde_json.specs.View.{view};
ghost use Rattle.serde_json.specs.Data.{Data};
ghost use Rattle.ev_types.specs.declared.listeners.Serve.TheVariants.{Inline};
ghost use Rattle.ev_tree.specs.Broken.{any_broken, rules_of, least_of};
ghost use Rattle.ev_tree.specs.Rules.{ReadsAs, IsLeast};
ghost use Rattle.ev_listener_json.specs.Parts.{first_of};
ghost use Rattle.ev_listener_json.specs.Filters.{chain_serve, chain_broken, chain_reading, chain_refused};

use crate::filters::inspect_filters;
use crate::objects::has_member;
use ev_tree::{BrokenRules, Inspection, ReadError, exactly_one, member};
use ev_types::{Profile, RouteTable, Seq, Serve, Shared};
use serde_json::Value;
use std::alloc::{AllocError, Global};

/// What a filter chain serves by the own rules, where several chains may stand and each has a match: the match's
/// members aren't looked at.
///
/// # Errors
/// `Rule` with the lowest-numbered rule that it breaks, of V2, V6, V10 and V17 to V24, and `OutOfMemory`.
pub fn read_chain(alloc: Global, chain: &Value) -> Result<Serve, ReadError>
    ensures reading { ReadsAs result (chain_reading (view chain.now)) }
{
    let found = inspect_chain(alloc, chain)?;
    match without_match(found.broken).least() {
        Some(rule) => Err(ReadError::Rule(rule)),
        None => Ok(serve_or_none(alloc, found.value)?),
    }
}

/// The rule by which a filter chain is refused is the least of all that it breaks but V16, and where there is none, it
/// breaks none of them: a law of the definitions.
pub fn chain_rule_is_least()
    ensures { (chain : Data) → IsLeast (rules_of (chain_refused chain)) (least_of (chain_refused chain)) }
{}

// The same rules without V16.
fn without_match(broken: BrokenRules) -> BrokenRules
    ensures { result ≡ record broken { v16 = false } }
{
    BrokenRules {
        v16: false,
        ..broken
    }
}

/// Inspects a filter chain (`envoy.config.listener.v3.FilterChain`) by the own rules: what its first filter serves that
/// serves, and the rules that it breaks, of V2, V6, V10 and V16 to V24.
pub fn inspect_chain(alloc: Global, chain: &Value) -> Result<Inspection<Option<Serve>>, AllocError>
    ensures value { IfOk result (λ found. found.value ≡ chain_serve (view chain.now)) }
    ensures broken { IfOk result (λ found. found.broken ≡ chain_broken (view chain.now)) }
{
    let matched = member::object(alloc, Some(chain), "filter_chain_match")?;
    let filters = member::objects(alloc, Some(chain), "filters")?;
    let below = inspect_filters(alloc, Profile::Own, member::elements(filters))?;
    let own = BrokenRules {
        v6: matched.is_wrong() | filters.is_wrong(),
        v16: has_member(member::inner(matched)),
        v17: !exactly_one(below.serving.as_slice()),
        ..BrokenRules::none()
    };
    Ok(Inspection {
        broken: below.broken.or(own),
        value: below.serve,
    })
}

/// Inspects filter chains: what the first one serves that serves, and what one of them breaks.
pub fn inspect_chains(
    alloc: Global,
    chains: &[Value],
) -> Result<Inspection<Option<Serve>>, AllocError>
    ensures value { IfOk result (λ found. found.value ≡ first_of (map chain_serve (map view chains.now))) }
    ensures broken { IfOk result (λ found. found.broken ≡ any_broken chain_broken (map view chains.now)) }
{
    let mut serve = None;
    let mut broken = BrokenRules::none();
    for chain in chains {
        let found = inspect_chain(alloc, chain)?;
        broken = broken.or(found.broken);
        serve = serve.or(found.value);
    }
    Ok(Inspection {
        value: serve,
        broken,
    })
}

// What is served: a table with no hosts where nothing is.
pub(crate) fn serve_or_none(alloc: Global, serve: Option<Serve>) -> Result<Serve, AllocError>
    ensures { IfOk result (λ served. served ≡ unwrap_or serve (Inline (record { hosts = [] }))) }
{
    match serve {
        Some(serve) => Ok(serve),
        None => {
            let table = RouteTable {
                hosts: Seq::new(alloc),
            };
            Ok(Serve::Inline(Shared::new(alloc, table)?))
        }
    }
}
