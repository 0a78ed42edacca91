ghost use Rattle.std.specs.Prelude.{◌≡◌, ◌≤◌, ◌<◌, map};
ghost use Rattle.ev_types.specs.Weights.{HasWeight, weight_sum};
ghost use Rattle.ev_types.specs.declared.limits.TheConstants.{MAX_WEIGHT_SUM};
ghost use Rattle.ev_types.specs.declared.routes.WeightedCluster.{WeightedCluster};
ghost use Rattle.ev_model.specs.Choice.{name_at, name_picked, place_above};

use ev_types::WeightedCluster;

/// The name of the weighted cluster that a pick takes.
pub(crate) fn name_picked(clusters: &[WeightedCluster], pick: u64) -> &str
    requires { HasWeight clusters.now }
    ensures { result.now ≡ name_picked clusters.now pick }
{
    let rest = pick % weight_sum(clusters);
    name_at(clusters, place_above(rest, clusters))
}

/// What the weights of the clusters add up to.
pub(crate) fn weight_sum(clusters: &[WeightedCluster]) -> u64
    requires { weight_sum clusters.now ≤ MAX_WEIGHT_SUM }
    ensures { result ≡ weight_sum clusters.now }
{
    let mut sum: u64 = 0;
    for cluster in clusters {
        sum += cluster.weight as u64;
    }
    sum
}

// The first place where the weights up to it, and its own, sum to more than n.
#[tactic(auto, using(crate::proofs::Places::from_start, crate::proofs::Places::passed, crate::proofs::Places::reached, crate::proofs::Places::none_left, crate::proofs::Places::sum_more, crate::proofs::Places::sum_fits))]
fn place_above(n: u64, clusters: &[WeightedCluster]) -> Option<usize>
    requires { weight_sum clusters.now ≤ MAX_WEIGHT_SUM }
    ensures { result ≡ place_above n (map (λ (c : WeightedCluster). c.weight) clusters.now) }
{
    let mut sum: u64 = 0;
    for place in 0..clusters.len() {
        sum += clusters[place].weight as u64;
        if n < sum {
            return Some(place);
        }
    }
    None
}

// The name of the cluster at this place, if there is one.
fn name_at(clusters: &[WeightedCluster], place: Option<usize>) -> &str
    ensures { result.now ≡ name_at clusters.now place }
{
    let Some(place) = place else {
        return "";
    };
    match clusters.get(place) {
        Some(cluster) => cluster.name.as_str(),
        None => "",
    }
}
