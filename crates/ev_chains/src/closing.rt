ghost use Rattle.std.specs.Prelude.{◌≡◌, ◌+◌, ◌==◌, ◌&&◌, length, vec_len, IfOk, OnOk};
ghost use Rattle.std.specs.BTreeSet.{contains, IsOrdered};
ghost use Rattle.std.specs.Ordering.{nat_cmp};
ghost use Rattle.ev_ledger.specs.Members.{has_place};
ghost use Rattle.ev_chains.specs.Sets.{Gains};
ghost use Rattle.ev_chains.specs.State.{has_open, idle_among, busy_among};
ghost use Rattle.ev_chains.specs.Closing.{AreConnectionsOn, closed_all, closed_by, left_open, on_chain};

use ev_ledger::{Ledger, On};
use ev_types::Gen;
use std::alloc::{AllocError, Global};
use std::collections::BTreeSet;

// The numbers of chains, by whether a connection is open on them.
#[derive(Drop)]
pub(crate) struct PartedDraining {
    pub idle: Vec<Gen>,
    pub busy: Vec<Gen>,
}

// Parts the chains that drain.
pub(crate) fn part_draining(
    alloc: Global,
    ledger: &Ledger,
    draining: &[Gen],
) -> Result<PartedDraining, AllocError>
    ensures idle { IfOk result (λ parted. parted.idle.items ≡ idle_among ledger.now draining.now) }
    ensures busy { IfOk result (λ parted. parted.busy.items ≡ busy_among ledger.now draining.now) }
    ensures all { IfOk result (λ parted. vec_len parted.idle + vec_len parted.busy ≡ length draining.now) }
{
    let mut idle = Vec::new(alloc);
    let mut busy = Vec::new(alloc);
    for number in draining {
        if has_open(ledger, *number) {
            busy.push(*number)?;
        } else {
            idle.push(*number)?;
        }
    }
    Ok(PartedDraining { idle, busy })
}

// Whether a connection is open on a chain.
pub(crate) fn has_open(ledger: &Ledger, number: Gen) -> bool
    ensures { result ≡ has_open ledger.now number }
{
    ledger.count(number) != 0
}

// What a connection on a chain is open on: the chain is its listener.
pub(crate) fn on_chain(number: Gen) -> On
    ensures { result ≡ on_chain number }
{
    On {
        listener: number,
        cluster: None,
        origin: None,
    }
}

// Closes connections, one after another. It takes no memory.
pub(crate) fn close_all(ledger: &mut Ledger, conns: &[u64])
    ensures { ledger.new ≡ closed_all conns.now ledger.old }
{
    for conn in conns {
        ledger.close(0, *conn);
    }
}

// The numbers of the connections on these chains, from the least. No other connection is looked at.
pub(crate) fn closing_conns(
    alloc: Global,
    ledger: &Ledger,
    draining: &[Gen],
) -> Result<Vec<u64>, AllocError>
    ensures conns { IfOk result (λ conns. conns.items ≡ closed_by draining.now 0 ledger.now) }
    ensures left { IfOk result (λ conns. closed_all conns.items ledger.now ≡ left_open draining.now 0 ledger.now) }
{
    // No two connections are of one worker and number.
    let _ = ledger.on(0, 0);
    let conns = conns_on(alloc, ledger, draining)?;
    let closing = keys_of(alloc, &conns)?;
    Ok(closing)
}

// The numbers of the connections on these chains.
fn conns_on(alloc: Global, ledger: &Ledger, draining: &[Gen]) -> Result<BTreeSet<u64>, AllocError>
    ensures { IfOk result (AreConnectionsOn draining.now ledger.now) }
{
    let mut conns = BTreeSet::new(alloc);
    for number in draining {
        let places = ledger.places_on(alloc, *number)?;
        put_places(&mut conns, places.as_slice())?;
    }
    Ok(conns)
}

// Adds the numbers of the first worker's connections at these places to others.
fn put_places(conns: &mut BTreeSet<u64>, places: &[(u64, u64)]) -> Result<(), AllocError>
    ensures { OnOk result (Gains (contains nat_cmp) (λ conn. has_place 0 conn places.now) conns.old conns.new) }
{
    for place in places {
        put_place(conns, *place)?;
    }
    Ok(())
}

// Adds the number of a connection at a place, where it is one of the first worker, to others.
fn put_place(conns: &mut BTreeSet<u64>, place: (u64, u64)) -> Result<(), AllocError>
    ensures { OnOk result (Gains (contains nat_cmp) (λ conn. (place.0 == 0) && (place.1 == conn)) conns.old conns.new) }
{
    if place.0 != 0 {
        return Ok(());
    }
    insert(conns, place.1)
}

// Adds a number to others.
fn insert(conns: &mut BTreeSet<u64>, conn: u64) -> Result<(), AllocError>
    ensures { OnOk result (Gains (contains nat_cmp) (λ other. conn == other) conns.old conns.new) }
{
    let Ok(_) = conns.insert(conn) else {
        return Err(AllocError);
    };
    Ok(())
}

// The numbers of a set from the least.
fn keys_of(alloc: Global, conns: &BTreeSet<u64>) -> Result<Vec<u64>, AllocError>
    ensures keys { IfOk result (λ keys. keys.items ≡ conns.now.keys) }
    ensures ordered { IsOrdered nat_cmp conns.now }
{
    // They are in their order.
    let _ = conns.len();
    conns.iter().copied().collect(alloc)
}
