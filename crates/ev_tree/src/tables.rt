ghost use Rattle.std.specs.Prelude.{◌≡◌, ◌<◌, IfSome, length, map};
ghost use Rattle.ev_tree.specs.Scalars.{names_of, named_in, enum_in};
ghost use Rattle.serde_json.specs.View.{view};

use serde_json::Value;

/// The enums that are read, by the field that has them.
#[derive(Clone, Copy, Debug, PartialEq, Eq)]
pub enum EnumTable {
    /// A cluster's `type`: `STATIC` 0, `STRICT_DNS` 1, `LOGICAL_DNS` 2, `EDS` 3, `ORIGINAL_DST` 4.
    Discovery,
    /// A host's `health_status`: `UNKNOWN` 0, `HEALTHY` 1, `UNHEALTHY` 2, `DRAINING` 3, `TIMEOUT` 4,
    /// `DEGRADED` 5.
    Health,
    /// A socket address's `protocol`: `TCP` 0, `UDP` 1.
    Protocol,
}

// The number of a name.
fn find_number(table: EnumTable, text: &str) -> Option<u32>
    ensures { result ≡ named_in table text.now }
{
    match table {
        EnumTable::Discovery => find_discovery(text),
        EnumTable::Health => find_health(text),
        EnumTable::Protocol => find_protocol(text),
    }
}

// The number of a discovery type's name.
#[tactic(auto, unfolding(crate::specs::Scalars::named_in))]
fn find_discovery(text: &str) -> Option<u32>
    ensures { result ≡ named_in EnumTable.Discovery text.now }
{
    match text {
        "STATIC" => Some(0),
        "STRICT_DNS" => Some(1),
        "LOGICAL_DNS" => Some(2),
        "EDS" => Some(3),
        "ORIGINAL_DST" => Some(4),
        _ => None,
    }
}

// The number of a health status' name.
#[tactic(auto, unfolding(crate::specs::Scalars::named_in))]
fn find_health(text: &str) -> Option<u32>
    ensures { result ≡ named_in EnumTable.Health text.now }
{
    match text {
        "UNKNOWN" => Some(0),
        "HEALTHY" => Some(1),
        "UNHEALTHY" => Some(2),
        "DRAINING" => Some(3),
        "TIMEOUT" => Some(4),
        "DEGRADED" => Some(5),
        _ => None,
    }
}

// The number of a protocol's name.
#[tactic(auto, unfolding(crate::specs::Scalars::named_in))]
fn find_protocol(text: &str) -> Option<u32>
    ensures { result ≡ named_in EnumTable.Protocol text.now }
{
    match text {
        "TCP" => Some(0),
        "UDP" => Some(1),
        _ => None,
    }
}

// How many values an enum has. They are numbered from 0.
fn count_names(table: EnumTable) -> u64
    ensures { result ≡ length (names_of table) }
{
    match table {
        EnumTable::Discovery => 5,
        EnumTable::Health => 6,
        EnumTable::Protocol => 2,
    }
}

/// A value as an enum: a listed name, or a listed number.
#[tactic(auto, unfolding(crate::specs::Scalars::enum_in))]
pub fn enum_value(value: &Value, table: EnumTable) -> Option<u32>
    ensures { result ≡ enum_in table (view value.now) }
{
    if let Some(text) = value.as_str() {
        return find_number(table, text);
    }
    let number = value.as_u64()?;
    if number < count_names(table) {
        Some(number as u32)
    } else {
        None
    }
}
