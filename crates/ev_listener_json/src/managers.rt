ghost use Rattle.std.specs.Prelude.{◌≡◌, [], false, IfOk, Some};
ghost use Rattle.ev_tree.specs.Forms.{tree_of};
ghost use Rattle.ev_listener_json.specs.Managers.{has_scopes, are_scopes_wrong, ways_are_bad, manager_broken, manager_serve, serve_with};

use ev_route_json::inspect_table;
use ev_tree::{BrokenRules, Inspection, config_source, exactly_one, is_name, member};
use ev_types::{Name, NameError, Profile, RouteTable, Serve, Shared};
use serde_json::Value;
use std::alloc::{AllocError, Global};

/// Inspects an HTTP connection manager in a profile.
pub fn inspect_manager(
    alloc: Global,
    profile: Profile,
    config: Option<&Value>,
) -> Result<Inspection<Option<Serve>>, AllocError>
    ensures value { IfOk result (λ found. found.value ≡ Some (manager_serve profile (tree_of config.entry))) }
    ensures broken { IfOk result (λ found. found.broken ≡ manager_broken profile (tree_of config.entry)) }
{
    let rds = member::object(alloc, config, "rds")?;
    let source = member::object(alloc, member::inner(rds), "config_source")?;
    let from = config_source(alloc, profile, member::inner(source))?;
    let name = member::text(alloc, member::inner(rds), "route_config_name")?;
    let inline = member::object(alloc, config, "route_config")?;
    let table = inspect_table(alloc, profile, member::inner(inline))?;
    let scopes = find_scopes(alloc, profile, config)?;
    let asks = rds.is_given();
    let text = member::text_or_empty(name);
    let own = BrokenRules {
        v2: asks & !name.is_wrong() & !is_name(text),
        v6: rds.is_wrong() | source.is_wrong() | name.is_wrong() | inline.is_wrong() | scopes.wrong,
        v18: are_ways_bad(profile, asks, inline.is_given(), scopes.given),
        ..BrokenRules::none()
    };
    let by_scopes = profile.is_envoy() & scopes.given;
    let serve = make_serve(alloc, asks, text, from.limited, by_scopes, table.value)?;
    Ok(Inspection {
        broken: table.broken.or(from.broken.only_if(asks).or(own)),
        value: Some(serve),
    })
}

// What a look at `scoped_routes` finds.
#[derive(Clone, Copy)]
struct Scopes {
    given: bool,
    wrong: bool,
}

// The `scoped_routes` of a connection manager: by the own rules in any form, as Envoy reads it an object.
fn find_scopes(
    alloc: Global,
    profile: Profile,
    config: Option<&Value>,
) -> Result<Scopes, AllocError>
    ensures given { IfOk result (λ s. s.given ≡ has_scopes profile (tree_of config.entry)) }
    ensures wrong { IfOk result (λ s. s.wrong ≡ are_scopes_wrong profile (tree_of config.entry)) }
{
    match profile {
        Profile::Own => {
            let scopes = member::field(alloc, config, "scoped_routes")?;
            Ok(Scopes {
                given: scopes.is_given(),
                wrong: scopes.is_wrong(),
            })
        }
        Profile::Envoy => {
            let scopes = member::object(alloc, config, "scoped_routes")?;
            Ok(Scopes {
                given: scopes.is_given(),
                wrong: scopes.is_wrong(),
            })
        }
    }
}

// Whether it is not exactly one way to routes that the profile knows.
fn are_ways_bad(profile: Profile, asks: bool, inline: bool, scoped: bool) -> bool
    ensures { result ≡ ways_are_bad profile asks inline scoped }
{
    match profile {
        Profile::Own => !exactly_one(&[asks, inline]) | scoped,
        Profile::Envoy => !exactly_one(&[asks, inline, scoped]),
    }
}

// The routes of this name, where one is asked for, else something that isn't read, or those that stand in the manager.
fn make_serve(
    alloc: Global,
    asks: bool,
    name: &str,
    limited: bool,
    scoped: bool,
    table: RouteTable,
) -> Result<Serve, AllocError>
    ensures { IfOk result (λ serve. serve ≡ serve_with asks name.now limited scoped table) }
{
    if !asks {
        return other_serve(alloc, scoped, table);
    }
    match Name::new(alloc, name) {
        Ok(name) => Ok(Serve::Rds { name, limited }),
        Err(NameError::Length) => other_serve(alloc, scoped, table),
        Err(NameError::OutOfMemory) => Err(AllocError),
    }
}

// Something that isn't read, or these routes.
fn other_serve(alloc: Global, scoped: bool, table: RouteTable) -> Result<Serve, AllocError>
    ensures { IfOk result (λ serve. serve ≡ serve_with false [] false scoped table) }
{
    if scoped {
        return Ok(Serve::Other);
    }
    Ok(Serve::Inline(Shared::new(alloc, table)?))
}
