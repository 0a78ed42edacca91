ghost use Rattle.std.specs.Prelude.{◌≡◌, IfOk, map};
ghost use Rattle.serde_json.specs.View.{view};
ghost use Rattle.ev_tree.specs.Forms.{tree_of, found_map};
ghost use Rattle.ev_route_json.specs.Targets.{entry_of, entry_broken, envoy_entry_broken, proxy_entry_broken, entry_broken_in, target_of, target_with, target_broken, has_weight, is_empty_text, has_text, is_by_header, is_target_elsewhere, envoy_target_of, envoy_target_with, envoy_target_broken, proxy_target_broken, target_in, target_broken_in, proxy_broken_in, entries_of};
ghost use Rattle.std.specs.List.{list_any};

use crate::parts::{Inspect, inspect_all};
use crate::presence::inspect_fields;
use ev_tree::{BrokenRules, Found, Inspection, exactly_one, member};
use ev_types::{MAX_WEIGHT_SUM, Profile, Seq, Target, Text, WeightedCluster, WeightedClusters};
use serde_json::Value;
use std::alloc::{AllocError, Global};

impl Inspect<Profile> for WeightedCluster {
    ghost use Rattle.ev_route_json.specs.Targets.{entry_of, entry_broken_in};

    ghost value_of = { λ _. entry_of };

    ghost broken_of = { entry_broken_in };

    fn inspect(
        alloc: Global,
        mode: Profile,
        tree: &Value,
    ) -> Result<Inspection<WeightedCluster>, AllocError> {
        match mode {
            Profile::Own => inspect_entry(alloc, tree),
            Profile::Envoy => inspect_envoy_entry(alloc, tree),
        }
    }
}

// The mode of a TCP proxy's target, as Envoy reads it.
#[derive(Clone, Copy)]
struct AsProxy;

impl Inspect<AsProxy> for WeightedCluster {
    ghost use Rattle.ev_route_json.specs.Targets.{entry_of, proxy_entry_broken};

    ghost value_of = { λ _. entry_of };

    ghost broken_of = { λ _. proxy_entry_broken };

    fn inspect(
        alloc: Global,
        _mode: AsProxy,
        tree: &Value,
    ) -> Result<Inspection<WeightedCluster>, AllocError> {
        inspect_proxy_entry(alloc, tree)
    }
}

// Inspects an entry of a TCP proxy's target, as Envoy reads it: by its name and weight alone.
fn inspect_proxy_entry(
    alloc: Global,
    entry: &Value,
) -> Result<Inspection<WeightedCluster>, AllocError>
    ensures value { IfOk result (λ found. found.value ≡ entry_of (view entry.now)) }
    ensures broken { IfOk result (λ found. found.broken ≡ proxy_entry_broken (view entry.now)) }
{
    let name = member::text(alloc, Some(entry), "name")?;
    let weight = member::number32(alloc, Some(entry), "weight")?;
    let text = member::text_or_empty(name);
    Ok(Inspection {
        value: WeightedCluster {
            name: Text::new(alloc, text)?,
            weight: weight.given_or(0),
        },
        broken: BrokenRules {
            v6: name.is_wrong() | weight.is_wrong(),
            v23: text.is_empty(),
            ..BrokenRules::none()
        },
    })
}

// Inspects an entry of a route's target, as Envoy reads it: a header of the request may name the cluster.
fn inspect_envoy_entry(
    alloc: Global,
    entry: &Value,
) -> Result<Inspection<WeightedCluster>, AllocError>
    ensures value { IfOk result (λ found. found.value ≡ entry_of (view entry.now)) }
    ensures broken { IfOk result (λ found. found.broken ≡ envoy_entry_broken (view entry.now)) }
{
    let name = member::text(alloc, Some(entry), "name")?;
    let weight = member::number32(alloc, Some(entry), "weight")?;
    let header = member::text(alloc, Some(entry), "cluster_header")?;
    let text = member::text_or_empty(name);
    Ok(Inspection {
        value: WeightedCluster {
            name: Text::new(alloc, text)?,
            weight: weight.given_or(0),
        },
        broken: BrokenRules {
            v6: name.is_wrong() | weight.is_wrong() | header.is_wrong(),
            v23: !has_text(header) & text.is_empty(),
            ..BrokenRules::none()
        },
    })
}

// Whether a text is given that isn't empty.
fn has_text(text: Found<&str>) -> bool
    ensures { result ≡ has_text (found_map (λ s. s.now) text.entry) }
{
    match text {
        Found::Given(text) => !text.is_empty(),
        Found::Absent | Found::Wrong => false,
    }
}

// Inspects a cluster and its weight in `weighted_clusters`, by the own rules.
fn inspect_entry(alloc: Global, entry: &Value) -> Result<Inspection<WeightedCluster>, AllocError>
    ensures value { IfOk result (λ found. found.value ≡ entry_of (view entry.now)) }
    ensures broken { IfOk result (λ found. found.broken ≡ entry_broken (view entry.now)) }
{
    let name = member::text(alloc, Some(entry), "name")?;
    let weight = member::number32(alloc, Some(entry), "weight")?;
    let header = member::field(alloc, Some(entry), "cluster_header")?;
    let text = member::text_or_empty(name);
    Ok(Inspection {
        value: WeightedCluster {
            name: Text::new(alloc, text)?,
            weight: weight.given_or(0),
        },
        broken: BrokenRules {
            v6: name.is_wrong() | weight.is_wrong() | header.is_wrong(),
            v22: header.is_given(),
            v23: text.is_empty(),
            ..BrokenRules::none()
        },
    })
}

/// Inspects the target of a route in a profile.
pub fn inspect_target(
    alloc: Global,
    profile: Profile,
    tree: Option<&Value>,
) -> Result<Inspection<Target>, AllocError>
    ensures value { IfOk result (λ found. found.value ≡ target_in profile (tree_of tree.entry)) }
    ensures broken { IfOk result (λ found. found.broken ≡ target_broken_in profile (tree_of tree.entry)) }
{
    match profile {
        Profile::Own => inspect_own_target(alloc, tree),
        Profile::Envoy => inspect_envoy_target(alloc, tree),
    }
}

/// Inspects the target of a TCP proxy in a profile.
pub fn inspect_proxy_target(
    alloc: Global,
    profile: Profile,
    tree: Option<&Value>,
) -> Result<Inspection<Target>, AllocError>
    ensures value { IfOk result (λ found. found.value ≡ target_of (tree_of tree.entry)) }
    ensures broken { IfOk result (λ found. found.broken ≡ proxy_broken_in profile (tree_of tree.entry)) }
{
    match profile {
        Profile::Own => inspect_own_target(alloc, tree),
        Profile::Envoy => inspect_as_proxy(alloc, tree),
    }
}

// Inspects the target of a TCP proxy as Envoy reads it.
fn inspect_as_proxy(alloc: Global, tree: Option<&Value>) -> Result<Inspection<Target>, AllocError>
    ensures value { IfOk result (λ found. found.value ≡ target_of (tree_of tree.entry)) }
    ensures broken { IfOk result (λ found. found.broken ≡ proxy_target_broken (tree_of tree.entry)) }
{
    let cluster = member::text(alloc, tree, "cluster")?;
    let weighted = member::object(alloc, tree, "weighted_clusters")?;
    let entries = member::objects(alloc, member::inner(weighted), "clusters")?;
    let clusters = inspect_all::<AsProxy, WeightedCluster>(
        alloc,
        AsProxy,
        member::elements(entries),
    )?;
    let own = BrokenRules {
        v6: cluster.is_wrong() | weighted.is_wrong() | entries.is_wrong(),
        v22: !exactly_one(&[cluster.is_given(), weighted.is_given()]),
        v23: is_empty_text(cluster),
        v24: weighted.is_given() & !has_weight(clusters.value.as_slice()),
        ..BrokenRules::none()
    };
    let value = make_target(alloc, clusters.value, member::text_or_empty(cluster))?;
    Ok(Inspection {
        value,
        broken: clusters.broken.or(own),
    })
}

// Inspects the target of a route as Envoy reads it.
fn inspect_envoy_target(
    alloc: Global,
    tree: Option<&Value>,
) -> Result<Inspection<Target>, AllocError>
    ensures value { IfOk result (λ found. found.value ≡ envoy_target_of (tree_of tree.entry)) }
    ensures broken { IfOk result (λ found. found.broken ≡ envoy_target_broken (tree_of tree.entry)) }
{
    let cluster = member::text(alloc, tree, "cluster")?;
    let weighted = member::object(alloc, tree, "weighted_clusters")?;
    let entries = member::objects(alloc, member::inner(weighted), "clusters")?;
    let header = member::text(alloc, tree, "cluster_header")?;
    let plugin = member::text(alloc, tree, "cluster_specifier_plugin")?;
    let inline = member::object(alloc, tree, "inline_cluster_specifier_plugin")?;
    let elements = member::elements(entries);
    let clusters = inspect_all::<Profile, WeightedCluster>(alloc, Profile::Envoy, elements)?;
    let by_header = is_any_by_header(alloc, elements)?;
    let weights_given = weighted.is_given();
    let header_given = header.is_given();
    let plugin_given = plugin.is_given();
    let inline_given = inline.is_given();
    let given = [
        cluster.is_given(),
        weights_given,
        header_given,
        plugin_given,
        inline_given,
    ];
    let own = BrokenRules {
        v6: cluster.is_wrong()
            | weighted.is_wrong()
            | entries.is_wrong()
            | header.is_wrong()
            | plugin.is_wrong()
            | inline.is_wrong(),
        v22: !exactly_one(&given),
        v23: is_empty_text(cluster),
        v24: weights_given & !has_weight(clusters.value.as_slice()),
        ..BrokenRules::none()
    };
    let target = make_target(alloc, clusters.value, member::text_or_empty(cluster))?;
    Ok(Inspection {
        value: envoy_target_with(
            header_given | plugin_given | inline_given | by_header,
            target,
        ),
        broken: clusters.broken.or(own),
    })
}

// Elsewhere, or the target.
fn envoy_target_with(elsewhere: bool, target: Target) -> Target
    ensures { result ≡ envoy_target_with elsewhere target }
{
    if elsewhere { Target::Elsewhere } else { target }
}

// Whether a header of the request names the cluster of one of these entries.
fn is_any_by_header(alloc: Global, entries: &[Value]) -> Result<bool, AllocError>
    ensures { IfOk result (λ is. is ≡ list_any is_by_header (map view entries.now)) }
{
    for entry in entries {
        let header = member::text(alloc, Some(entry), "cluster_header")?;
        if has_text(header) {
            return Ok(true);
        }
    }
    Ok(false)
}

// Inspects a target by the own rules: `cluster` or `weighted_clusters`, as a route action and a TCP proxy have them.
fn inspect_own_target(alloc: Global, tree: Option<&Value>) -> Result<Inspection<Target>, AllocError>
    ensures value { IfOk result (λ found. found.value ≡ target_of (tree_of tree.entry)) }
    ensures broken { IfOk result (λ found. found.broken ≡ target_broken (tree_of tree.entry)) }
{
    let cluster = member::text(alloc, tree, "cluster")?;
    let weighted = member::object(alloc, tree, "weighted_clusters")?;
    let entries = member::objects(alloc, member::inner(weighted), "clusters")?;
    let names = [
        "cluster_header",
        "cluster_specifier_plugin",
        "inline_cluster_specifier_plugin",
    ];
    let others = inspect_fields(alloc, tree, &names)?;
    let clusters = inspect_all::<Profile, WeightedCluster>(
        alloc,
        Profile::Own,
        member::elements(entries),
    )?;
    let own = BrokenRules {
        v6: cluster.is_wrong() | weighted.is_wrong() | entries.is_wrong() | others.doubled,
        v22: !exactly_one(&[cluster.is_given(), weighted.is_given()]) | others.given,
        v23: is_empty_text(cluster),
        v24: weighted.is_given() & !has_weight(clusters.value.as_slice()),
        ..BrokenRules::none()
    };
    let value = make_target(alloc, clusters.value, member::text_or_empty(cluster))?;
    Ok(Inspection {
        value,
        broken: clusters.broken.or(own),
    })
}

// Whether a text is given that is empty.
pub(crate) fn is_empty_text(text: Found<&str>) -> bool
    ensures { result ≡ is_empty_text (found_map (λ s. s.now) text.entry) }
{
    match text {
        Found::Given(text) => text.is_empty(),
        Found::Absent | Found::Wrong => false,
    }
}

// Whether the weights sum to 1 to 2^32 - 1.
fn has_weight(clusters: &[WeightedCluster]) -> bool
    ensures { result ≡ has_weight clusters.now }
{
    let mut sum: u64 = 0;
    for cluster in clusters {
        sum = sum.saturating_add(u64::from(cluster.weight));
    }
    1 <= sum && sum <= MAX_WEIGHT_SUM
}

// The weighted clusters, where they have weights, and otherwise the one cluster.
fn make_target(
    alloc: Global,
    clusters: Vec<WeightedCluster>,
    cluster: &str,
) -> Result<Target, AllocError>
    ensures { IfOk result (λ target. target ≡ target_with clusters.items cluster.now) }
{
    if has_weight(clusters.as_slice()) {
        let clusters = Seq::from_vec(clusters);
        Ok(Target::Weighted(WeightedClusters::new(clusters)))
    } else {
        Ok(Target::One(Text::new(alloc, cluster)?))
    }
}
