ghost use Rattle.std.specs.Prelude.{◌≡◌, ◌≤◌, ◌<◌, ◌+◌, ◌++◌, ◌==◌, None, IsSome, is_some, map, nat_eq, option_to_list};
ghost use Rattle.indexmap.specs.IndexMap.{IsUnique, get, spare};
ghost use Rattle.ev_model.specs.Connections.{cluster_on};
ghost use Rattle.ev_model.specs.Picture.{has_number};
ghost use Rattle.ev_worker.specs.Members.{LosesWhere, MovesWhere, chosen_on, next_of, on_of};

use crate::lines::Accepted;
use ev_keys::Keys;
use ev_ledger::On;
use ev_model::Choice;
use ev_snapshot::Snapshot;
use ev_types::{Gen, Way};
use indexmap::IndexMap;

/// A worker's open connections: by number, what each is open on.
pub(crate) type Members = IndexMap<u64, On, Keys>;

/// Opens a connection on a listener and, where it was forwarded, on a cluster,
/// in room that is there; without a listener or a filter chain nothing is opened.
pub(crate) fn open_on(members: &mut Members, conn: u64, on: Option<On>)
    requires absent { IsSome on → get nat_eq members.old conn ≡ None }
    requires room { 0 < spare members.old }
    ensures entries { members.new.entries ≡ members.old.entries ++ map (λ o. (conn, o)) (option_to_list on) }
    ensures room { spare members.old ≤ spare members.new + 1 }
    ensures apart { IsUnique nat_eq members.new }
{
    // No number is there twice.
    let _ = members.len();
    let Some(on) = on else {
        return;
    };
    // The parts are named since the prover, at a whole struct that goes into a map, misses the types of its fields.
    let On {
        listener,
        cluster,
        origin,
    } = on;
    let Ok(_) = members.insert(
        conn,
        On {
            listener,
            cluster,
            origin,
        },
    ) else {
        unreachable!()
    };
}

/// What an accept opens its connection on, by how it was answered:
/// a listener, a cluster where it is on one, and where the chain began that takes it.
pub fn on_of(answer: &Accepted) -> Option<On>
    ensures { result ≡ on_of answer.now }
{
    match answer {
        Accepted::InUse => None,
        Accepted::Chosen(choice) => chosen_on(choice),
    }
}

// What a choice opens a connection on.
fn chosen_on(choice: &Choice) -> Option<On>
    ensures { result ≡ chosen_on choice.now }
{
    match choice {
        Choice::NoListener | Choice::NoChain => None,
        Choice::On {
            listener,
            origin,
            way,
            ..
        } => {
            Some(On {
                listener: *listener,
                cluster: cluster_on(way),
                origin: *origin,
            })
        }
    }
}

// The cluster that a connection is on, if it is on one.
fn cluster_on(way: &Way<u32>) -> Option<Gen>
    ensures { result ≡ cluster_on way.now }
{
    match way {
        Way::Elsewhere { cluster } | Way::NoSecret { cluster } => *cluster,
        Way::Served { cluster, .. } => Some(*cluster),
        Way::Undecided
        | Way::NoRoute
        | Way::Redirect
        | Way::NoCluster
        | Way::NoEndpoint
        | Way::Local { .. } => None,
    }
}

/// Closes a connection and returns whether it was open. It takes no memory.
pub(crate) fn close(members: &mut Members, conn: u64) -> bool
    ensures answer { result ≡ is_some (get nat_eq members.old conn) }
    ensures left { LosesWhere (nat_eq conn) (get nat_eq members.old) (get nat_eq members.new) }
    ensures room { spare members.old ≤ spare members.new }
    ensures apart { IsUnique nat_eq members.new }
{
    members.swap_remove(&conn).is_some()
}

/// Closes the connections of these numbers, where they are open. It takes no memory.
pub(crate) fn close_all(members: &mut Members, numbers: &[u64])
    ensures left { LosesWhere (λ n. has_number n numbers.now) (get nat_eq members.old) (get nat_eq members.new) }
    ensures room { spare members.old ≤ spare members.new }
    ensures apart { IsUnique nat_eq members.new }
{
    // No number is there twice.
    let _ = members.len();
    for number in numbers {
        close(members, *number);
    }
}

/// Moves the connections of these numbers, where they are open,
/// to the listeners of a picture that have their chains, each where its own listener isn't shown. It takes no memory.
pub(crate) fn move_all(members: &mut Members, snapshot: &Snapshot, numbers: &[u64])
    ensures moved { MovesWhere (λ n. has_number n numbers.now) snapshot.now.shown (get nat_eq members.old) (get nat_eq members.new) }
    ensures room { spare members.old ≤ spare members.new }
    ensures apart { IsUnique nat_eq members.new }
{
    // No number is there twice.
    let _ = members.len();
    for number in numbers {
        move_one(members, snapshot, *number);
    }
}

// Moves a connection, where it is open.
fn move_one(members: &mut Members, snapshot: &Snapshot, conn: u64)
    ensures moved { MovesWhere (λ n. n == conn) snapshot.now.shown (get nat_eq members.old) (get nat_eq members.new) }
    ensures room { spare members.old ≤ spare members.new }
    ensures apart { IsUnique nat_eq members.new }
{
    // No number is there twice.
    let _ = members.len();
    if let Some(on) = members.get_mut(&conn) {
        *on = next_on(on, snapshot);
    }
}

// What a connection is on once it has moved; where it doesn't move, what it was on.
fn next_on(on: &On, snapshot: &Snapshot) -> On
    ensures { result ≡ next_of snapshot.now.shown on.now }
{
    On {
        listener: snapshot
            .next_listener(on.listener, on.origin)
            .unwrap_or(on.listener),
        cluster: on.cluster,
        origin: on.origin,
    }
}
