ghost use Rattle.std.specs.Prelude.{◌≡◌, ◌++◌, map, IfOk, OnOk};
ghost use Rattle.serde_json.specs.View.{view};
ghost use Rattle.ev_dns.specs.Hosts.{endpoints_tree, group_tree, hosts_with, status_text, with_address};
ghost use Rattle.ev_dns.specs.Known.{known_addresses};

use crate::answers::Answers;
use crate::templates::rows_of;
use ev_expand::Key;
use ev_types::{HostRow, Name};
use serde_json::{Value, json};
use std::alloc::{AllocError, Global};

// The endpoints of a template: for each host each address of its name.
pub(crate) fn endpoints_value(
    alloc: Global,
    answers: &Answers,
    key: &Key,
) -> Result<Value, AllocError>
    ensures { IfOk result (λ made. view made ≡ endpoints_tree (hosts_with (known_addresses answers.now) key.now)) }
{
    let mut groups = Vec::new(alloc);
    for row in rows_of(key) {
        push_hosts(alloc, &mut groups, answers, row)?;
    }
    Ok(Value::Array(groups))
}

// Appends a host with each address of its name to these.
fn push_hosts(
    alloc: Global,
    groups: &mut Vec<Value>,
    answers: &Answers,
    row: &HostRow,
) -> Result<(), AllocError>
    ensures { OnOk result (map view groups.new.items
        ≡ map view groups.old.items
        ++ map (λ a. group_tree (with_address row.now a)) (known_addresses answers.now row.now.host.address)) }
{
    let Some(addresses) = answers.by_name.get(&row.host.address) else {
        return Ok(());
    };
    for address in addresses.iter() {
        groups.push(group_value(alloc, row, address)?)?;
    }
    Ok(())
}

// A host with this address, in a group of its own.
fn group_value(alloc: Global, row: &HostRow, address: &Name) -> Result<Value, AllocError>
    ensures { IfOk result (λ made. view made ≡ group_tree (with_address row.now address.now)) }
{
    json!(in alloc; {
        "priority": row.priority,
        "lbEndpoints": [{
            "loadBalancingWeight": row.weight,
            "healthStatus": status_word(row.usable),
            "endpoint": {
                "address": {"socketAddress": {"portValue": row.host.port, "address": address.as_str()}},
            },
        }],
    })
}

// Whether a host may be chosen, in a word.
fn status_word(usable: bool) -> &'static str
    ensures { result.now ≡ status_text usable }
{
    if usable { "HEALTHY" } else { "UNHEALTHY" }
}
