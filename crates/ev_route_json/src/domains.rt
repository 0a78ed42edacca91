ghost use Rattle.std.specs.Prelude.{◌≡◌, IfOk, OnOk, map, string_bytes};
ghost use Rattle.ev_route_json.specs.Domains.{has_repeat, repeats_domain, GainsInLowercase};

use ev_types::{Text, VirtualHost};
use std::alloc::{AllocError, Global};
use std::collections::BTreeSet;

/// Whether a domain occurs twice among all hosts of a route configuration, ASCII letters taken as lower
/// case. It takes n log n steps for n domains.
pub fn repeats_domain(alloc: Global, hosts: &[VirtualHost]) -> Result<bool, AllocError>
    ensures { IfOk result (λ repeats. repeats ≡ repeats_domain hosts.now) }
{
    let mut domains = Vec::new(alloc);
    for host in hosts {
        push_in_lowercase(alloc, &mut domains, host.domains.as_slice())?;
    }
    has_repeat(alloc, domains)
}

// Appends each domain in lower case.
fn push_in_lowercase(
    alloc: Global,
    texts: &mut Vec<String>,
    domains: &[Text],
) -> Result<(), AllocError>
    ensures { OnOk result (GainsInLowercase texts.old.items texts.new.items domains.now) }
{
    for domain in domains {
        let mut text = String::from_str(alloc, domain.as_str())?;
        text.make_ascii_lowercase();
        texts.push(text)?;
    }
    Ok(())
}

// Whether a text occurs in the list twice.
fn has_repeat(alloc: Global, texts: Vec<String>) -> Result<bool, AllocError>
    ensures { IfOk result (λ repeats. repeats ≡ has_repeat (map string_bytes texts.items)) }
{
    let mut seen = BTreeSet::new(alloc);
    for text in texts {
        if !seen.insert(text)? {
            return Ok(true);
        }
    }
    Ok(false)
}
