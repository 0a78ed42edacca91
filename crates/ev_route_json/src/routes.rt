ghost use Rattle.std.specs.Prelude.{◌≡◌, ◌||◌, IfOk};
ghost use Rattle.serde_json.specs.View.{view};
ghost use Rattle.ev_route_json.specs.Routes.{action_of, action_with, action_broken, is_status, status_or_none, route_of, route_broken};

use crate::conditions::inspect_match_in;
use crate::parts::Inspect;
use crate::targets::inspect_target;
use ev_tree::{BrokenRules, Inspection, exactly_one, member};
use ev_types::{Action, Profile, Route, Target};
use serde_json::Value;
use std::alloc::{AllocError, Global};

/// The least status of a direct response.
pub const MIN_STATUS: u32 = 200;

/// The greatest status of a direct response.
pub const MAX_STATUS: u32 = 599;

impl Inspect<Profile> for Route {
    ghost use Rattle.ev_route_json.specs.Routes.{route_of, route_broken};

    ghost value_of = { route_of };

    ghost broken_of = { route_broken };

    fn inspect(
        alloc: Global,
        mode: Profile,
        tree: &Value,
    ) -> Result<Inspection<Route>, AllocError> {
        inspect_route(alloc, mode, tree)
    }
}

// Inspects the action of a route.
fn inspect_action(
    alloc: Global,
    profile: Profile,
    route: &Value,
) -> Result<Inspection<Action>, AllocError>
    ensures value { IfOk result (λ found. found.value ≡ action_of profile (view route.now)) }
    ensures broken { IfOk result (λ found. found.broken ≡ action_broken profile (view route.now)) }
{
    let forward = member::object(alloc, Some(route), "route")?;
    let redirect = member::object(alloc, Some(route), "redirect")?;
    let direct = member::object(alloc, Some(route), "direct_response")?;
    let filter = member::object(alloc, Some(route), "filter_action")?;
    let stay = member::object(alloc, Some(route), "non_forwarding_action")?;
    let given_status = member::number32(alloc, member::inner(direct), "status")?;
    let target = inspect_target(alloc, profile, member::inner(forward))?;
    let status = given_status.given_or(0);
    let given = GivenActions {
        forward: forward.is_given(),
        redirect: redirect.is_given(),
        direct: direct.is_given(),
        filter: filter.is_given(),
        stay: stay.is_given(),
    };
    let own = BrokenRules {
        v6: forward.is_wrong()
            | redirect.is_wrong()
            | direct.is_wrong()
            | filter.is_wrong()
            | stay.is_wrong()
            | given_status.is_wrong(),
        v22: given.are_bad(profile) | (given.direct & !is_status(status)),
        ..BrokenRules::none()
    };
    Ok(Inspection {
        broken: target.broken.only_if(given.forward).or(own),
        value: make_action(given, target.value, status),
    })
}

// Which actions are given.
#[derive(Clone, Copy)]
struct GivenActions {
    forward: bool,
    redirect: bool,
    direct: bool,
    filter: bool,
    stay: bool,
}

impl GivenActions {
    ghost use Rattle.ev_route_json.specs.Given.{actions_are_bad_by};

    // Whether it is not exactly one that the profile knows.
    fn are_bad(self, profile: Profile) -> bool
        ensures { result ≡ actions_are_bad_by profile self }
    {
        match profile {
            Profile::Own => {
                !exactly_one(&[self.forward, self.redirect, self.direct])
                    | (self.filter | self.stay)
            }
            Profile::Envoy => !exactly_one(&[
                self.forward,
                self.redirect,
                self.direct,
                self.filter,
                self.stay,
            ]),
        }
    }
}

// A status that a response can have.
fn is_status(status: u32) -> bool
    ensures { result ≡ is_status status }
{
    MIN_STATUS <= status && status <= MAX_STATUS
}

// The status, or 0 where it is none.
fn status_or_none(status: u32) -> u16
    ensures { result ≡ status_or_none status }
{
    if is_status(status) { status as u16 } else { 0 }
}

// The action of what is given.
fn make_action(given: GivenActions, target: Target, status: u32) -> Action
    ensures { result ≡ action_with given.forward given.direct (given.filter || given.stay) target status }
{
    if given.forward {
        Action::Forward(target)
    } else if given.direct {
        Action::Local(status_or_none(status))
    } else if given.filter || given.stay {
        Action::Elsewhere
    } else {
        Action::Redirect
    }
}

// Inspects a route of a virtual host.
fn inspect_route(
    alloc: Global,
    profile: Profile,
    route: &Value,
) -> Result<Inspection<Route>, AllocError>
    ensures value { IfOk result (λ found. found.value ≡ route_of profile (view route.now)) }
    ensures broken { IfOk result (λ found. found.broken ≡ route_broken profile (view route.now)) }
{
    let matched = member::object(alloc, Some(route), "match")?;
    let path = inspect_match_in(alloc, profile, member::inner(matched))?;
    let action = inspect_action(alloc, profile, route)?;
    let own = BrokenRules {
        v6: matched.is_wrong(),
        ..BrokenRules::none()
    };
    Ok(Inspection {
        broken: path.broken.or(action.broken.or(own)),
        value: Route {
            route_match: path.value,
            action: action.value,
        },
    })
}
