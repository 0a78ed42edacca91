ghost use Rattle.std.specs.Prelude.{◌≡◌, IfOk, map};
ghost use Rattle.serde_json.specs.View.{view};
ghost use Rattle.ev_tree.specs.Forms.{tree_of, text_in};
ghost use Rattle.ev_route_json.specs.Tables.{virtual_host_of, virtual_host_broken, table_of, table_broken};

use crate::domains::repeats_domain;
use crate::parts::{Inspect, inspect_all};
use ev_tree::{BrokenRules, Inspection, member};
use ev_types::{Profile, Route, RouteTable, Seq, Text, VirtualHost};
use serde_json::Value;
use std::alloc::{AllocError, Global};

impl Inspect<Profile> for VirtualHost {
    ghost use Rattle.ev_route_json.specs.Tables.{virtual_host_of, virtual_host_broken};

    ghost value_of = { virtual_host_of };

    ghost broken_of = { virtual_host_broken };

    fn inspect(
        alloc: Global,
        mode: Profile,
        tree: &Value,
    ) -> Result<Inspection<VirtualHost>, AllocError> {
        inspect_virtual_host(alloc, mode, tree)
    }
}

// The texts of the elements of a list.
fn copy_texts(alloc: Global, elements: &[Value]) -> Result<Vec<Text>, AllocError>
    ensures { IfOk result (λ texts. texts.items ≡ map text_in (map view elements.now)) }
{
    let mut texts = Vec::new(alloc);
    for element in elements {
        texts.push(Text::new(alloc, member::text_value(element))?)?;
    }
    Ok(texts)
}

// Inspects a virtual host.
fn inspect_virtual_host(
    alloc: Global,
    profile: Profile,
    host: &Value,
) -> Result<Inspection<VirtualHost>, AllocError>
    ensures value { IfOk result (λ found. found.value ≡ virtual_host_of profile (view host.now)) }
    ensures broken { IfOk result (λ found. found.broken ≡ virtual_host_broken profile (view host.now)) }
{
    let name = member::text(alloc, Some(host), "name")?;
    let domains = member::texts(alloc, Some(host), "domains")?;
    let routes = member::objects(alloc, Some(host), "routes")?;
    let text = member::text_or_empty(name);
    let domain_texts = Seq::from_vec(copy_texts(alloc, member::elements(domains))?);
    let below = inspect_all::<Profile, Route>(alloc, profile, member::elements(routes))?;
    let own = BrokenRules {
        v6: name.is_wrong() | domains.is_wrong() | routes.is_wrong(),
        v19: text.is_empty() | (domain_texts.len() == 0),
        ..BrokenRules::none()
    };
    Ok(Inspection {
        broken: below.broken.or(own),
        value: VirtualHost {
            name: Text::new(alloc, text)?,
            domains: domain_texts,
            routes: Seq::from_vec(below.value),
        },
    })
}

/// Inspects a route configuration, which may be missing. Its name isn't compared with anything.
pub fn inspect_table(
    alloc: Global,
    profile: Profile,
    tree: Option<&Value>,
) -> Result<Inspection<RouteTable>, AllocError>
    ensures value { IfOk result (λ found. found.value ≡ table_of profile (tree_of tree.entry)) }
    ensures broken { IfOk result (λ found. found.broken ≡ table_broken profile (tree_of tree.entry)) }
{
    let name = member::text(alloc, tree, "name")?;
    let hosts = member::objects(alloc, tree, "virtual_hosts")?;
    let below = inspect_all::<Profile, VirtualHost>(alloc, profile, member::elements(hosts))?;
    let repeats = repeats_domain(alloc, below.value.as_slice())?;
    let own = BrokenRules {
        v6: name.is_wrong() | hosts.is_wrong(),
        v20: repeats,
        ..BrokenRules::none()
    };
    Ok(Inspection {
        broken: below.broken.or(own),
        value: RouteTable {
            hosts: Seq::from_vec(below.value),
        },
    })
}
