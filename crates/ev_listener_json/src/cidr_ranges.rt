ghost use Rattle.std.specs.Prelude.{◌≡◌, IfOk, map};
ghost use Rattle.serde_json.specs.View.{view};
ghost use Rattle.ev_tree.specs.Broken.{any_broken};
ghost use Rattle.ev_listener_json.specs.CidrRanges.{named_range, range_or_every, cidr_range_of, cidr_range_broken};

use ev_tree::{BrokenRules, Inspection, member};
use ev_types::{CidrRange, Ip};
use serde_json::Value;
use std::alloc::{AllocError, Global};

/// Inspects ranges of IP addresses: them in order, and what one of them breaks, of V6 and V16.
pub(crate) fn inspect_ranges(
    alloc: Global,
    ranges: &[Value],
) -> Result<Inspection<Vec<CidrRange>>, AllocError>
    ensures values { IfOk result (λ found. found.value.items ≡ map cidr_range_of (map view ranges.now)) }
    ensures broken { IfOk result (λ found. found.broken ≡ any_broken cidr_range_broken (map view ranges.now)) }
{
    let mut values = Vec::new(alloc);
    let mut broken = BrokenRules::none();
    for range in ranges {
        let found = inspect_range(alloc, range)?;
        broken = broken.or(found.broken);
        values.push(found.value)?;
    }
    Ok(Inspection {
        value: values,
        broken,
    })
}

// Inspects a range.
fn inspect_range(alloc: Global, range: &Value) -> Result<Inspection<CidrRange>, AllocError>
    ensures value { IfOk result (λ found. found.value ≡ cidr_range_of (view range.now)) }
    ensures broken { IfOk result (λ found. found.broken ≡ cidr_range_broken (view range.now)) }
{
    let prefix = member::text(alloc, Some(range), "address_prefix")?;
    let length = member::number32(alloc, Some(range), "prefix_len")?;
    let found = name_range(member::text_or_empty(prefix), length.given_or(0));
    Ok(Inspection {
        value: range_or_every(found),
        broken: BrokenRules {
            v6: prefix.is_wrong() | length.is_wrong(),
            v16: !found.is_some(),
            ..BrokenRules::none()
        },
    })
}

// The range that an address and a length name.
fn name_range(text: &str, length: u32) -> Option<CidrRange>
    ensures { result ≡ named_range text.now length }
{
    CidrRange::about(Ip::read(text)?, length)
}

// The range, or that of all IPv4 addresses.
fn range_or_every(found: Option<CidrRange>) -> CidrRange
    ensures { result ≡ range_or_every found }
{
    match found {
        Some(range) => range,
        None => CidrRange {
            prefix_len: 0,
            prefix: Ip::V4(0),
        },
    }
}
