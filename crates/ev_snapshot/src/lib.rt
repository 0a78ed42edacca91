//! What a worker serves from: a picture with the tables by which a connection's way through it is found.
//!
//! # Choices
//!
//! - Contracts see a snapshot as its picture, by a `Model` all the way down: a list of shared clusters is seen as the
//!   list of clusters, a listener with its domains as the listener, a key that is a shared cluster as the cluster's
//!   name. So the clause of `choose` is an equation with the definition, and tables are invisible in it.
//! - A publication makes its snapshot of the last one and of what changed, and shares the rest: `ev_layers` says how
//!   its tables do that, `ev_listeners` how listeners share their chains, and `ev_routes` how
//!   requests find routes.
//! - All tables hash by the keys that the first snapshot is given, which are made of the input: so none is made of
//!   keys that were chosen to meet in it.
//! - Whether anything changed is asked under the names that the changes touch, before and after: that all others are
//!   as before is proved, so *unchanged* needs no look at them.
//! - A change is a number and what serves of it now. All numbers go before any is put in, so an update, which ends
//!   one number and begins another under one name, may be given in either order. What is put in takes the place of
//!   what has its number or its name: so `next` has a meaning for all changes, needs no condition, and keeps the
//!   order of names and numbers by itself.
//! - What a publication takes away, and whose chains it brings, is told by a superset: what the changes touch, less
//!   what is still shown, and the generations with which the brought chains began. Whoever asks looks at each once
//!   more.
//! - A cluster whose number is in the last picture is compared with it first, and is taken over from there where it
//!   is equal, and of a listener the tables of its chains. A cluster's hosts are shared with its assignment, and
//!   routes with the resource that brought them: they are never copied.
//! - Whether a cluster has a host that may be chosen is asked of the first one, before its secrets are looked at:
//!   that takes a walk up to that one alone.
//! - That a chosen host is eligible is said of worlds that show what the picture shows: a picture has no ineligible
//!   hosts, and doesn't say why.
#![tactic(auto)]

mod changes;
mod differences;
mod parts;
mod snapshot;
mod targets;

pub use changes::{Changes, ClusterChange, ListenerChange};
pub use snapshot::Snapshot;
