ghost use Rattle.std.specs.Prelude.{◌≡◌, ◌+◌, ◌==◌, true, Some, IfOk, find, length, option_map};
ghost use Rattle.std.specs.Arc.{arc_value};
ghost use Rattle.std.specs.Option.{option_copied};
ghost use Rattle.ev_model.specs.Choice.{acted, by_chain, by_host, by_listener, by_reached, by_route, by_routing, by_secrets, choice_of, cluster_named, course_in, course_of, forwarded, has_no_host, in_cluster, to_host};
ghost use Rattle.ev_model.specs.Connections.{is_chain_shown, next_listener, shows_chain};
ghost use Rattle.ev_model.specs.Picture.{is_shown, shown_of};
ghost use Rattle.ev_model.specs.World.{OpenMember, World};
ghost use Rattle.ev_model.specs.declared.pictures.ServedListener.{ServedListener};
ghost use Rattle.ev_snapshot.specs.Changes.{IsNext, IsOrdered, empty_picture, picture_after};
ghost use Rattle.ev_snapshot.specs.Chosen.{TakesEligible, TakesLowest, host_of, names_shown};

use crate::changes::Changes;
use crate::parts::{Parts, keep_all, parts_with};
use crate::targets::{name_picked, weight_sum};
use ev_chain_match::{Criteria, choose_on, leave_undecided, taker_of};
use ev_hosts::{ChosenHosts, ShownCluster};
use ev_keys::Keys;
use ev_layers::Row;
use ev_listeners::{LocalEnd, RoutedChain, RoutedListener};
use ev_model::{Choice, Routing, Secrets, Taken};
use ev_routes::{IndexedRouting, RoutedHost, match_says, route_for};
use ev_types::{Action, Ask, Gen, Host, Origin, Route, Target, Way};
use std::alloc::{AllocError, Global};
use std::marker::Model;
use std::sync::Arc;

/// What a worker serves from: a picture, with the tables by which the way of a connection is found. Contracts see the
/// picture. Its clusters and listeners are shared with the snapshots before and after it that show the same.
#[derive(Drop)]
pub struct Snapshot {
    pub(crate) version: u64,
    pub(crate) parts: Parts,
}

impl Model for Snapshot {
    ghost use Rattle.ev_model.specs.declared.pictures.Picture.{Picture};
    ghost use Rattle.ev_snapshot.specs.Changes.{IsOrdered};

    ghost Value = { Picture };

    ghost view = { λ s. record { version = s.version; shown = record { clusters = s.parts.clusters; listeners = s.parts.listeners } } };

    ghost invariant = { λ s. IsOrdered (record { clusters = s.parts.clusters; listeners = s.parts.listeners }) };
}

impl Snapshot {
    /// The snapshot of picture 0, which shows nothing. Its tables hash by these keys, and so do those of each
    /// snapshot after it.
    pub fn empty(alloc: Global, keys: Keys) -> Result<Arc<Snapshot>, AllocError>
        ensures picture { IfOk result (λ snapshot. arc_value snapshot ≡ empty_picture) }
    {
        let empty = Snapshot {
            version: 0,
            parts: Parts::new(alloc, keys)?,
        };
        Ok(Arc::new(alloc, empty)?)
    }

    /// The snapshot after these changes, under the next version; where it shows what the one before shows, there is
    /// none. It shares what didn't change with the one before, and costs what changed. Out of memory also where
    /// versions are used up.
    pub fn next(
        alloc: Global,
        before: &Arc<Snapshot>,
        changes: &Changes,
    ) -> Result<Option<Arc<Snapshot>>, AllocError>
        ensures picture { IfOk result (IsNext changes.now (arc_value before.now)) }
        ensures ordered { IsOrdered (arc_value before.now).shown }
    {
        let before: &Snapshot = &**before;
        match before.after(alloc, changes)? {
            Some(next) => Ok(Some(Arc::new(alloc, next)?)),
            None => Ok(None),
        }
    }

    // The next snapshot, where it shows something else.
    fn after(&self, alloc: Global, changes: &Changes) -> Result<Option<Snapshot>, AllocError>
        ensures picture { IfOk result (λ next. next ≡ picture_after changes.now self.now) }
        ensures ordered { IsOrdered self.now.shown }
    {
        let parts = parts_with(alloc, &self.parts.clusters, &self.parts.listeners, changes)?;
        if keep_all(&self.parts.clusters, &self.parts.listeners, &parts, changes) {
            return Ok(None);
        }
        let version = version_after(self.version)?;
        let next = Snapshot::with_parts(alloc, version, parts)?;
        Ok(Some(next))
    }

    // The snapshot of this version that shows these clusters and listeners.
    fn with_parts(alloc: Global, version: u64, parts: Parts) -> Result<Snapshot, AllocError>
        requires { IsOrdered (record { clusters = parts.clusters; listeners = parts.listeners }) }
        ensures { IfOk result (λ next. next ≡ record {
          version = version;
          shown = record { clusters = parts.clusters; listeners = parts.listeners };
        }) }
    {
        let mut parts = parts;
        parts.settle(alloc)?;
        Ok(Snapshot { version, parts })
    }

    /// The version of the picture.
    pub fn version(&self) -> u64
        ensures { result ≡ self.now.version }
    {
        self.version
    }

    /// Whether it shows the generation of this number, as a cluster or as a listener. It looks two numbers up, and
    /// goes through no list.
    #[tactic(auto, using(crate::proofs::Numbered::shown_parts))]
    pub fn shows(&self, number: Gen) -> bool
        ensures { result ≡ is_shown number self.now.shown }
    {
        self.parts.clusters.has(number) || self.parts.listeners.has(number)
    }

    /// The number of the first listener that has a chain which began there, if there is one. It takes one look-up.
    pub fn listener_with(&self, origin: Option<Origin>) -> Option<Gen>
        ensures { result
            ≡ option_map (λ (l : ServedListener). l.number) (find (shows_chain origin) self.now.shown.listeners) }
    {
        match self.parts.listeners.with_chain(origin) {
            Some(listener) => Some(listener.number()),
            None => None,
        }
    }

    /// Whether a listener has a chain which began there. It takes one look-up.
    pub fn shows_chain(&self, origin: Option<Origin>) -> bool
        ensures { result ≡ is_chain_shown origin self.now.shown }
    {
        self.listener_with(origin).is_some()
    }

    /// The listener that a connection on this one moves to, whose chain began there: where its own isn't shown, the one
    /// that has its chain, if there is one. It takes three look-ups at most.
    pub fn next_listener(&self, listener: Gen, origin: Option<Origin>) -> Option<Gen>
        ensures { (m : OpenMember) → m.listener ≡ listener → m.origin ≡ origin
            → result ≡ option_map (λ (l : ServedListener). l.number) (next_listener self.now.shown m) }
    {
        if self.shows(listener) {
            return None;
        }
        self.listener_with(origin)
    }

    /// The host at a place of the cluster of this number, as `choose` answers both.
    pub fn host(&self, cluster: Gen, place: u32) -> Option<&Host>
        ensures { option_copied result ≡ host_of self.now cluster place }
    {
        let Some(served) = self.parts.clusters.numbered(cluster) else {
            return None;
        };
        served.get().hosts.host(place)
    }

    /// Where a connection goes: by the listener that takes it, the filter chain that is left for it, the virtual host
    /// and the first route that doesn't say no to its host text, path and headers, the weights of the route's
    /// clusters, and the lowest priority and the weights of the cluster's hosts. It takes no memory.
    #[tactic(auto, using(crate::proofs::Named::choice_shown, crate::proofs::Lowest::choice_takes_lowest, crate::proofs::Eligible::takes_eligible))]
    pub fn choose(&self, ask: &Ask) -> Choice
        ensures choice { result ≡ choice_of self.now ask.now }
        ensures generations { names_shown self.now.shown result ≡ true }
        ensures lowest { TakesLowest self.now.shown result }
        ensures eligible { (world : World) → self.now.shown ≡ shown_of world → TakesEligible world result }
    {
        self.choose_by_listener(ask)
    }

    // The choice by the listener that the connection comes to.
    fn choose_by_listener(&self, ask: &Ask) -> Choice
        ensures { result ≡ choice_of self.now ask.now }
    {
        match self.parts.listeners.for_end(&LocalEnd::delivered_by(ask)) {
            Some(listener) => self.choose_by_reached(listener, ask),
            None => Choice::NoListener,
        }
    }

    // The choice by the listener that takes the connection which came to this one.
    fn choose_by_reached(&self, listener: &RoutedListener, ask: &Ask) -> Choice
        ensures { result ≡ by_listener self.now ask.now (Some listener.now) }
    {
        if listener.restores() {
            let taker = taker_of(&self.parts.listeners, listener, ask);
            self.choose_by_chains(taker, &LocalEnd::meant_by(ask), ask)
        } else {
            self.choose_by_chains(listener, &LocalEnd::delivered_by(ask), ask)
        }
    }

    // The choice by the chains of a listener that are left for a connection to this end.
    fn choose_by_chains(
        &self,
        listener: &RoutedListener,
        local_end: &LocalEnd<'_>,
        ask: &Ask,
    ) -> Choice
        ensures { result ≡ by_reached self.now ask.now (record { listener = listener.now; local_end = local_end.now }) }
    {
        let chains = listener.filter_chains();
        let criteria = Criteria::of(chains, ask, local_end);
        if criteria.lack_source(chains, ask) {
            return leave_undecided(listener.number());
        }
        self.choose_by_chain(listener.number(), criteria.chain_left(listener), ask)
    }

    // The choice with the chain that is left.
    fn choose_by_chain(&self, listener: Gen, chain: Option<&RoutedChain>, ask: &Ask) -> Choice
        ensures { result ≡ by_chain self.now ask.now listener (option_copied chain.entry) }
    {
        match chain {
            Some(chain) => choose_on(listener, chain, self.go_by_chain(chain, ask)),
            None => Choice::NoChain,
        }
    }

    // The way by a chain: without a secret of its own no handshake succeeds, whatever it serves.
    fn go_by_chain(&self, chain: &RoutedChain, ask: &Ask) -> Way<u32>
        ensures { result ≡ course_of self.now ask.now chain.now }
    {
        if chain.lacks_secret() {
            return Way::NoSecret { cluster: None };
        }
        self.go_by_routing(chain.routing(), ask)
    }

    // The way by a routing.
    fn go_by_routing(&self, routing: &IndexedRouting, ask: &Ask) -> Way<u32>
        ensures { result ≡ by_routing self.now ask.now routing.now }
    {
        match routing.routing() {
            Routing::Table(_) => self.go_by_host(routing.virtual_host(ask.host.as_str()), ask),
            Routing::Tcp(target) => self.forward(target, ask.pick),
            Routing::Other => Way::Elsewhere { cluster: None },
        }
    }

    // The way by a virtual host.
    fn go_by_host(&self, host: Option<&RoutedHost>, ask: &Ask) -> Way<u32>
        ensures { result ≡ by_host self.now ask.now (option_copied host.entry) }
    {
        match host {
            Some(host) => self.go_by_route(route_for(host, ask), ask),
            None => Way::NoRoute,
        }
    }

    // The way by a route.
    fn go_by_route(&self, route: Option<&Route>, ask: &Ask) -> Way<u32>
        ensures { result ≡ by_route self.now ask.now (option_copied route.entry) }
    {
        let Some(route) = route else {
            return Way::NoRoute;
        };
        match match_says(ask, &route.route_match) {
            Taken::No => Way::NoRoute,
            Taken::Yes => self.act(&route.action, ask.pick),
            Taken::Undecided => Way::Undecided,
        }
    }

    // The way by an action.
    fn act(&self, action: &Action, pick: u64) -> Way<u32>
        ensures { result ≡ acted self.now pick action.now }
    {
        match action {
            Action::Forward(target) => self.forward(target, pick),
            Action::Redirect => Way::Redirect,
            Action::Local(status) => Way::Local { status: *status },
            Action::Elsewhere => Way::Elsewhere { cluster: None },
        }
    }

    // The way to a target.
    fn forward(&self, target: &Target, pick: u64) -> Way<u32>
        ensures { result ≡ forwarded self.now pick target.now }
    {
        match target {
            Target::One(name) => self.go_to(name.as_str(), pick),
            Target::Weighted(weighted) => {
                let clusters = weighted.clusters();
                self.go_to(name_picked(clusters, pick), pick / weight_sum(clusters))
            }
            Target::Elsewhere => Way::Elsewhere { cluster: None },
        }
    }

    // The way to the cluster of this name.
    fn go_to(&self, name: &str, pick: u64) -> Way<u32>
        ensures { result ≡ course_in (cluster_named self.now.shown.clusters name.now) pick }
    {
        go_in(self.parts.clusters.named(name), pick)
    }
}

// The version after this one, where there is one.
fn version_after(version: u64) -> Result<u64, AllocError>
    ensures { IfOk result (λ next. next ≡ version + 1) }
{
    match version.checked_add(1) {
        Some(next) => Ok(next),
        None => Err(AllocError),
    }
}

// The way in a cluster, if there is one.
fn go_in(cluster: Option<&ShownCluster>, pick: u64) -> Way<u32>
    ensures { result ≡ course_in (option_copied cluster.entry) pick }
{
    match cluster {
        Some(cluster) => go_in_cluster(cluster, pick),
        None => Way::NoCluster,
    }
}

// The way in a cluster: first whether it has a host, then its secrets.
fn go_in_cluster(cluster: &ShownCluster, pick: u64) -> Way<u32>
    ensures { result ≡ in_cluster cluster.now pick }
{
    if has_no_host(cluster) {
        Way::NoEndpoint
    } else {
        go_by_secrets(cluster.secrets, cluster, pick)
    }
}

// Whether no host of a cluster may be chosen, and Envoy finds none by itself.
fn has_no_host(cluster: &ShownCluster) -> bool
    ensures { result ≡ has_no_host cluster.now }
{
    !cluster.elsewhere && is_empty(&cluster.hosts)
}

// Whether no host may be chosen.
fn is_empty(hosts: &ChosenHosts) -> bool
    ensures { result ≡ (length hosts.now == 0) }
{
    match hosts.host(0) {
        Some(_) => false,
        None => true,
    }
}

// The way in a cluster by what is known of its secrets: without one no handshake succeeds.
fn go_by_secrets(secrets: Secrets, cluster: &ShownCluster, pick: u64) -> Way<u32>
    ensures { result ≡ by_secrets secrets cluster.now pick }
{
    let number = cluster.number;
    match secrets {
        Secrets::There => go_to_host(cluster, pick),
        Secrets::Missing => Way::NoSecret {
            cluster: Some(number),
        },
        Secrets::Unknown => Way::Elsewhere {
            cluster: Some(number),
        },
    }
}

// The way to a host of a cluster, or where Envoy finds one by itself.
fn go_to_host(cluster: &ShownCluster, pick: u64) -> Way<u32>
    ensures { result ≡ to_host cluster.now pick }
{
    let number = cluster.number;
    if cluster.elsewhere {
        return Way::Elsewhere {
            cluster: Some(number),
        };
    }
    match cluster.hosts.host_place(pick) {
        Some(host) => Way::Served {
            cluster: number,
            host,
        },
        None => Way::NoEndpoint,
    }
}
