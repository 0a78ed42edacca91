//! What a picture shows of clusters.

ghost use Rattle.std.specs.Prelude.{◌≡◌, true, Some, filter, IfOk, IfSome};
ghost use Rattle.ev_types.specs.Statuses.{is_active};
ghost use Rattle.ev_model.specs.Picture.{is_elsewhere};
ghost use Rattle.ev_indexes.specs.KeptEndpoints.{marked_in};
ghost use Rattle.ev_indexes.specs.Indexes.{IsIndexed, IsAssignmentOf, MarksAssignment};
ghost use Rattle.ev_indexes.specs.Reads.{is_eligible_in, is_missing_in, cluster_in, eligible_in, lacks_in, secrets_in};
ghost use Rattle.ev_indexes.specs.Shown.{cluster_at, cluster_shown_in, cluster_by};
ghost use Rattle.ev_indexes.specs.Worlds.{InWorlds};

use crate::hosts::{assignment, is_checked};
use crate::{Endpoints, State, Watches};
use ev_hosts::{ChosenHosts, ShownCluster};
use ev_model::Secrets;
use ev_types::{
    Assignment, Content, Discovery, Gen, GenRow, Kind, Reference, Seq, Shared, TryCopy,
};
use std::alloc::{AllocError, Global};

impl State {
    /// What a picture shows of the cluster of this number now:
    /// where it is active, its hosts that may be chosen. It costs a look-up of the number;
    /// and where its rows are marked, a copy of the marks, else a look-up of the name that the cluster depends on,
    /// and of each of its hosts.
    pub fn cluster(&self, alloc: Global, number: Gen) -> Result<Option<ShownCluster>, AllocError>
        requires indexed { IsIndexed self.now }
        requires marked { MarksAssignment self.now number }
        ensures rows { IfOk result (λ served. served ≡ cluster_by self.now number) }
        ensures world { IfOk result (λ served. InWorlds self.now (λ world. served ≡ cluster_at world number)) }
    {
        match self.table.get(number) {
            Some(row) => active_cluster(alloc, &self.watches, &self.results, row),
            None => Ok(None),
        }
    }
}

// A cluster with its hosts that may be chosen, where it is active.
fn active_cluster(
    alloc: Global,
    watches: &Watches,
    results: &Endpoints,
    row: &GenRow,
) -> Result<Option<ShownCluster>, AllocError>
    requires marked { is_active row.now.status ≡ true
        → IfSome (marked_in results.now row.now.number) (IsAssignmentOf watches.now row.now.content) }
    ensures { IfOk result (λ served. served ≡ cluster_shown_in watches.now results.now (Some row.now)) }
{
    if !row.kind.is(Kind::Cds) || !row.status.is_active() {
        return Ok(None);
    }
    Ok(Some(cluster(alloc, watches, results, row)?))
}

// A cluster with its hosts that may be chosen.
fn cluster(
    alloc: Global,
    watches: &Watches,
    results: &Endpoints,
    row: &GenRow,
) -> Result<ShownCluster, AllocError>
    requires marked { IfSome (marked_in results.now row.now.number) (IsAssignmentOf watches.now row.now.content) }
    ensures { IfOk result (λ served. served ≡ cluster_in watches.now results.now row.now) }
{
    Ok(ShownCluster {
        number: row.number,
        name: row.name.copy(alloc)?,
        hosts: eligible(alloc, watches, results, row)?,
        elsewhere: is_elsewhere(&row.content),
        secrets: secrets(watches, &row.content),
    })
}

// Whether Envoy, or an extension of it, finds the hosts of a cluster by itself.
fn is_elsewhere(content: &Content) -> bool
    ensures { result ≡ is_elsewhere content.now }
{
    match content {
        Content::Cluster(cluster) => matches!(&cluster.get().discovery, Discovery::Elsewhere),
        _ => false,
    }
}

// What is known of the secrets of a content.
fn secrets(watches: &Watches, content: &Content) -> Secrets
    ensures { result ≡ secrets_in watches.now content.now }
{
    let Content::Cluster(cluster) = content else {
        return Secrets::There;
    };
    let cluster = cluster.get();
    let lacks = lacks_secret(watches, cluster.secrets.as_slice());
    match &cluster.secrets_by_match {
        None if lacks => Secrets::Missing,
        None => Secrets::There,
        Some(by_match) => {
            if lacks || lacks_secret(watches, by_match.as_slice()) {
                Secrets::Unknown
            } else {
                Secrets::There
            }
        }
    }
}

/// Whether one of these secrets has no value.
pub(crate) fn lacks_secret(watches: &Watches, secrets: &[Reference]) -> bool
    ensures { result ≡ lacks_in watches.now secrets.now }
{
    secrets.iter().any(|secret| is_missing(watches, secret))
}

// Whether a secret has no value.
fn is_missing(watches: &Watches, secret: &Reference) -> bool
    ensures { result ≡ is_missing_in watches.now secret.now }
{
    match watches.get(Kind::Sds, &secret.name) {
        Some(watch) => watch.value.is_none(),
        None => true,
    }
}

// The hosts of a cluster that may be chosen: of marked rows what is marked, else each is looked at.
fn eligible(
    alloc: Global,
    watches: &Watches,
    results: &Endpoints,
    row: &GenRow,
) -> Result<ChosenHosts, AllocError>
    requires marked { IfSome (marked_in results.now row.now.number) (IsAssignmentOf watches.now row.now.content) }
    ensures { IfOk result (λ hosts. hosts ≡ eligible_in watches.now results.now row.now) }
{
    if let Some(chosen) = results.chosen(alloc, row.number)? {
        return Ok(chosen);
    }
    match assignment(watches, &row.content) {
        Some(hosts) => choose(alloc, results, row, hosts),
        None => ChosenHosts::listed(alloc, Seq::new(alloc)),
    }
}

// Those of these hosts that may be chosen.
#[tactic(auto, using(ev_hosts::proofs::ChosenLemmas::chosen_map))]
fn choose(
    alloc: Global,
    results: &Endpoints,
    row: &GenRow,
    hosts: &Shared<Assignment>,
) -> Result<ChosenHosts, AllocError>
    ensures { IfOk result (λ chosen. chosen ≡ filter (is_eligible_in results.now row.now) hosts.now) }
{
    let checked = is_checked(&row.content);
    let marks = results.marks_of(alloc, row.number, checked, hosts.get())?;
    Ok(ChosenHosts::new(hosts.share()?, marks))
}
