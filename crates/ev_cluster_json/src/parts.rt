//! The parts of a cluster, each inspected by itself.
ghost use Rattle.std.specs.Prelude.{◌≡◌, IfOk};
ghost use Rattle.serde_json.specs.View.{view};
ghost use Rattle.ev_tree.specs.Sources.{source_is_limited};
ghost use Rattle.ev_tree.specs.Broken.{broken_where};
ghost use Rattle.ev_cluster_json.specs.Clusters.{name_of, type_of, has_custom_type, is_in_cluster, is_by_eds, eds_source_of, service_name_of, load_assignment_of, is_checked, cluster_own_broken, eds_broken, load_assignment_broken};
ghost use Rattle.ev_cluster_json.specs.Made.{made_rows, made_where};

use crate::groups::inspect_assignment;
use crate::tally::Tally;
use ev_tree::{
    BrokenRules, EnumTable, MAX_NAME_BYTES, config_source, is_name, is_not_positive, member,
};
use ev_types::Profile;
use serde_json::Value;
use std::alloc::{AllocError, Global};

/// The number of the type STATIC.
pub const STATIC: u32 = 0;

/// The number of the type LOGICAL_DNS: the types up to it have their hosts in the cluster.
pub const LOGICAL_DNS: u32 = 2;

/// The number of the type EDS.
pub const EDS: u32 = 3;

/// What is found of the fields of the cluster itself.
#[derive(Clone, Copy, Debug)]
pub struct OwnFields<'a> {
    pub name: &'a str,
    /// The number of its discovery type.
    pub kind: u32,
    /// Whether a custom type is given.
    pub custom: bool,
    pub checked: bool,
    /// The rules that they break, of V3, V6, V7 and V11.
    pub broken: BrokenRules,
}

/// Inspects the fields of the cluster itself.
pub fn inspect_own(
    alloc: Global,
    profile: Profile,
    cluster: &Value,
) -> Result<OwnFields<'_>, AllocError>
    ensures name { IfOk result (λ h. h.name.now ≡ name_of (view cluster.now)) }
    ensures kind { IfOk result (λ h. h.kind ≡ type_of (view cluster.now)) }
    ensures custom { IfOk result (λ h. h.custom ≡ has_custom_type (view cluster.now)) }
    ensures checked { IfOk result (λ h. h.checked ≡ is_checked (view cluster.now)) }
    ensures broken { IfOk result (λ h. h.broken ≡ cluster_own_broken profile (view cluster.now)) }
{
    let name = member::text(alloc, Some(cluster), "name")?;
    let kind = member::enumeration(alloc, Some(cluster), "type", EnumTable::Discovery)?;
    let custom = member::object(alloc, Some(cluster), "cluster_type")?;
    let timeout = member::duration(alloc, Some(cluster), "connect_timeout")?;
    let checks = member::objects(alloc, Some(cluster), "health_checks")?;
    let name_text = member::text_or_empty(name);
    let number = kind.given_or(STATIC);
    Ok(OwnFields {
        name: name_text,
        kind: number,
        custom: custom.is_given(),
        checked: !member::elements(checks).is_empty(),
        broken: BrokenRules {
            v3: !name.is_wrong() & !is_name(name_text),
            v6: name.is_wrong()
                | kind.is_wrong()
                | custom.is_wrong()
                | timeout.is_wrong()
                | checks.is_wrong(),
            v7: !profile.is_envoy() & (!((number == STATIC) | (number == EDS)) | custom.is_given()),
            v11: is_not_positive(timeout),
            ..BrokenRules::none()
        },
    })
}

/// Whether the hosts stand in a cluster of this type.
pub fn is_in_cluster(profile: Profile, custom: bool, kind: u32) -> bool
    ensures { result ≡ is_in_cluster profile custom kind }
{
    match profile {
        Profile::Own => kind == STATIC,
        Profile::Envoy => !custom && kind <= LOGICAL_DNS,
    }
}

/// Whether the hosts of a cluster of this type come by EDS.
pub fn is_by_eds(profile: Profile, custom: bool, kind: u32) -> bool
    ensures { result ≡ is_by_eds profile custom kind }
{
    match profile {
        Profile::Own => kind == EDS,
        Profile::Envoy => !custom && kind == EDS,
    }
}

/// What is found of the configuration of EDS.
#[derive(Clone, Copy, Debug)]
pub struct EdsConfig<'a> {
    /// The name that hosts are asked for by, or the empty text.
    pub service_name: &'a str,
    /// Whether the wait for the first assignment ends.
    pub limited: bool,
    /// The rules that it breaks, of V2, V6 and V8 to V10.
    pub broken: BrokenRules,
}

/// Inspects the configuration of EDS, in a cluster whose hosts come by it or don't.
pub fn inspect_eds(
    alloc: Global,
    profile: Profile,
    cluster: &Value,
    by_eds: bool,
) -> Result<EdsConfig<'_>, AllocError>
    ensures service_name { IfOk result (λ e. e.service_name.now ≡ service_name_of (view cluster.now)) }
    ensures limited { IfOk result (λ e. e.limited ≡ source_is_limited (eds_source_of (view cluster.now))) }
    ensures broken { IfOk result (λ e. e.broken ≡ eds_broken profile by_eds (view cluster.now)) }
{
    let config = member::object(alloc, Some(cluster), "eds_cluster_config")?;
    let inner = member::inner(config);
    let source = member::object(alloc, inner, "eds_config")?;
    let from = config_source(alloc, profile, member::inner(source))?;
    let service = member::text(alloc, inner, "service_name")?;
    let service_name = member::text_or_empty(service);
    let own = BrokenRules {
        v2: service_name.len() > MAX_NAME_BYTES,
        v6: config.is_wrong() | source.is_wrong() | service.is_wrong(),
        v8: by_eds & config.is_absent(),
        v9: !by_eds & config.is_given(),
        ..BrokenRules::none()
    };
    Ok(EdsConfig {
        service_name,
        limited: from.limited,
        broken: from.broken.only_if(config.is_given()).or(own),
    })
}

// Inspects the hosts that stand in the cluster itself.
fn inspect_load_assignment(
    alloc: Global,
    profile: Profile,
    cluster: &Value,
) -> Result<Tally, AllocError>
    ensures rows { IfOk result (λ t. t.rows.items ≡ made_rows profile (load_assignment_of (view cluster.now))) }
    ensures broken { IfOk result (λ t. t.broken ≡ load_assignment_broken profile (view cluster.now)) }
{
    let assignment = member::object(alloc, Some(cluster), "load_assignment")?;
    let tally = inspect_assignment(alloc, profile, member::inner(assignment))?;
    let own = BrokenRules {
        v6: assignment.is_wrong(),
        ..BrokenRules::none()
    };
    Ok(Tally {
        rows: tally.rows,
        broken: tally.broken.or(own),
    })
}

/// Inspects the hosts that stand in the cluster itself, or passes them over.
pub fn inspect_hosts(
    alloc: Global,
    profile: Profile,
    cluster: &Value,
    in_cluster: bool,
) -> Result<Tally, AllocError>
    ensures rows { IfOk result (λ t. t.rows.items ≡ made_where profile in_cluster
        (load_assignment_of (view cluster.now))) }
    ensures broken { IfOk result (λ t. t.broken ≡ broken_where in_cluster
        (load_assignment_broken profile (view cluster.now))) }
{
    if in_cluster {
        return inspect_load_assignment(alloc, profile, cluster);
    }
    Ok(Tally {
        rows: Vec::new(alloc),
        broken: BrokenRules::none(),
    })
}
