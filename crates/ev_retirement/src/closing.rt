ghost use Rattle.std.specs.Prelude.{◌≡◌, ◌<◌, ◌^◌, ◌+◌, true, filter, List, IfOk, OnOk};
ghost use Rattle.std.specs.BTreeSet.{contains, IsOrdered};
ghost use Rattle.ev_ledger.specs.Entries.{key_order};
ghost use Rattle.ev_ledger.specs.Members.{AreApart, member_on};
ghost use Rattle.ev_drain.specs.Retired.{Retired};
ghost use Rattle.ev_snapshot.specs.Changes.{shown_with};
ghost use Rattle.ev_retirement.specs.Aside.{HoldsMore};
ghost use Rattle.ev_retirement.specs.Closing.{AreFound, AreFoundFrom, AreFoundFromEach, AreFoundOn, AreFoundOnEach, ArePlacesFound, FindsMore, IsFoundWhereDue, LeavesOne, StillFinds, closes, is_due, is_found, moves, numbers_at, numbers_found, numbers_where, passes_at};

use ev_drain::Drain;
use ev_ledger::{Ledger, On};
use ev_snapshot::{Changes, Snapshot};
use ev_types::Gen;
use std::alloc::{AllocError, Global};
use std::collections::BTreeSet;

/// Which connections the next settles look at, by worker and number: each is among them that is on a listener whose
/// drain timeout came, and each that moves. Another one does no harm. A worker's number has 64 bits here, so that
/// there is one above each.
#[derive(Drop)]
pub(crate) struct Closing {
    places: BTreeSet<(u64, u64)>,
}

impl Closing {
    /// None. It takes no memory.
    pub(crate) fn new(alloc: Global) -> Closing {
        Closing {
            places: BTreeSet::new(alloc),
        }
    }

    /// A worker's connection is looked at. Out of memory, all stays as it was.
    pub(crate) fn enter(&mut self, place: (u64, u64)) -> Result<(), AllocError>
        ensures entered { OnOk result (is_found self.new place.0 place.1 ≡ true) }
        ensures more { FindsMore self.old self.new }
    {
        put(&mut self.places, place)
    }

    /// Each of these connections is looked at. Out of memory, some of the first are.
    pub(crate) fn enter_each(&mut self, places: &[(u64, u64)]) -> Result<(), AllocError>
        ensures entered { OnOk result (ArePlacesFound self.new places.now) }
        ensures more { FindsMore self.old self.new }
    {
        for place in places {
            self.enter(*place)?;
        }
        Ok(())
    }

    /// A worker's connection is no longer looked at. It takes no memory.
    pub(crate) fn leave(&mut self, worker: u32, conn: u64)
        ensures { LeavesOne worker conn self.old self.new }
    {
        self.places.remove(&(worker as u64, conn));
    }

    /// The numbers of a worker's connections that its next settle looks at, from the least.
    pub(crate) fn numbers(&self, alloc: Global, worker: u32) -> Result<Vec<u64>, AllocError>
        ensures numbers { IfOk result (λ numbers. numbers.items ≡ numbers_found worker self.now) }
        ensures ordered { IsOrdered key_order self.now.places }
    {
        numbers_in(alloc, &self.places, worker as u64)
    }
}

// Adds a place to the others. Out of memory, they stay as they were.
fn put(places: &mut BTreeSet<(u64, u64)>, place: (u64, u64)) -> Result<(), AllocError>
    ensures put { OnOk result (contains key_order places.new place ≡ true) }
    ensures kept { HoldsMore (contains key_order places.old) (contains key_order places.new) }
{
    let Ok(_) = places.insert(place) else {
        return Err(AllocError);
    };
    Ok(())
}

// The numbers of a worker's places.
fn numbers_in(
    alloc: Global,
    places: &BTreeSet<(u64, u64)>,
    worker: u64,
) -> Result<Vec<u64>, AllocError>
    requires { worker + 1 < 2 ^ 64 }
    ensures numbers { IfOk result (λ numbers. numbers.items ≡ numbers_at worker places.now.keys) }
    ensures ordered { IsOrdered key_order places.now }
{
    // They are in order.
    let _ = places.len();
    places
        .range((worker, 0)..(worker + 1, 0))
        .map(|place| place.1)
        .collect(alloc)
}

/// The connections on the listeners of these numbers are looked at. Out of memory, some of them are.
pub(crate) fn enter_on_each(
    alloc: Global,
    closing: &mut Closing,
    ledger: &Ledger,
    listeners: &[Gen],
) -> Result<(), AllocError>
    ensures entered { OnOk result (AreFoundOnEach closing.new ledger.now listeners.now) }
    ensures more { FindsMore closing.old closing.new }
{
    for listener in listeners {
        enter_on(alloc, closing, ledger, *listener)?;
    }
    Ok(())
}

// The connections on a listener are looked at.
fn enter_on(
    alloc: Global,
    closing: &mut Closing,
    ledger: &Ledger,
    listener: Gen,
) -> Result<(), AllocError>
    ensures entered { OnOk result (AreFoundOn closing.new ledger.now listener) }
    ensures more { FindsMore closing.old closing.new }
{
    let Ok(places) = ledger.places_on(alloc, listener) else {
        return Err(AllocError);
    };
    closing.enter_each(places.as_slice())
}

// The connections whose chains began with the generations of these numbers are looked at. Out of memory, some of them
// are.
fn enter_from_each(
    alloc: Global,
    closing: &mut Closing,
    ledger: &Ledger,
    numbers: &[Gen],
) -> Result<(), AllocError>
    ensures entered { OnOk result (AreFoundFromEach closing.new ledger.now numbers.now) }
    ensures more { FindsMore closing.old closing.new }
{
    for number in numbers {
        enter_from(alloc, closing, ledger, *number)?;
    }
    Ok(())
}

// The connections whose chains began with a generation are looked at.
fn enter_from(
    alloc: Global,
    closing: &mut Closing,
    ledger: &Ledger,
    number: Gen,
) -> Result<(), AllocError>
    ensures entered { OnOk result (AreFoundFrom closing.new ledger.now number) }
    ensures more { FindsMore closing.old closing.new }
{
    let Ok(places) = ledger.places_from(alloc, number) else {
        return Err(AllocError);
    };
    closing.enter_each(places.as_slice())
}

/// The connections are looked at that move once the next snapshot, the one after these changes of the last, is
/// published: those on what goes, and those whose chains come. Out of memory, some of them are.
pub(crate) fn enter_touched(
    alloc: Global,
    closing: &mut Closing,
    ledger: &Ledger,
    last: &Snapshot,
    next: &Snapshot,
    changes: &Changes,
) -> Result<(), AllocError>
    requires after { next.now.shown ≡ shown_with changes.now last.now.shown }
    ensures found { OnOk result ((drain : List Retired) → AreFound closing.old drain last.now.shown ledger.now
        → AreFound closing.new drain next.now.shown ledger.now) }
    ensures more { FindsMore closing.old closing.new }
{
    let gone = next.gone(alloc, last, changes)?;
    enter_on_each(alloc, closing, ledger, gone.as_slice())?;
    let begun = next.begun(alloc, last, changes)?;
    enter_from_each(alloc, closing, ledger, begun.as_slice())
}

/// A worker's connection is looked at where the drain timeout of its listener came, or where it moves by the last
/// snapshot. Out of memory, all stays as it was.
pub(crate) fn enter_where_due(
    closing: &mut Closing,
    drain: &Drain,
    last: &Snapshot,
    worker: u32,
    conn: u64,
    on: &On,
) -> Result<(), AllocError>
    ensures entered { OnOk result (IsFoundWhereDue closing.new drain.now last.now.shown worker conn on.now) }
    ensures more { FindsMore closing.old closing.new }
{
    if is_due(drain, last, on) {
        return closing.enter((worker as u64, conn));
    }
    Ok(())
}

// Whether the drain timeout of a connection's listener came, or it moves by the last snapshot.
fn is_due(drain: &Drain, last: &Snapshot, on: &On) -> bool
    ensures { result ≡ is_due drain.now last.now.shown (member_on 0 0 on.now) }
{
    drain.expired(on.listener) || moves(last, on)
}

// Whether a connection moves by the last snapshot.
fn moves(last: &Snapshot, on: &On) -> bool
    ensures { result ≡ moves last.now.shown (member_on 0 0 on.now) }
{
    last.next_listener(on.listener, on.origin).is_some()
}

// Whether a connection closes by the last snapshot.
fn closes(drain: &Drain, last: &Snapshot, on: &On) -> bool
    ensures { result ≡ closes drain.now last.now.shown (member_on 0 0 on.now) }
{
    drain.expired(on.listener) && !last.shows_chain(on.origin)
}

/// What a worker's settle looks at, and what it does with it: the numbers of connections, from the least.
#[derive(Drop)]
pub(crate) struct Due {
    pub(crate) looked_at: Vec<u64>,
    pub(crate) closed: Vec<u64>,
    pub(crate) moved: Vec<u64>,
}

/// The numbers of a worker's connections that its settle looks at, of those that close, and of those that move by the
/// last snapshot. It looks at no other connection.
pub(crate) fn due_of(
    alloc: Global,
    closing: &Closing,
    ledger: &Ledger,
    drain: &Drain,
    last: &Snapshot,
    worker: u32,
) -> Result<Due, AllocError>
    requires found { AreFound closing.now drain.now last.now.shown ledger.now }
    ensures apart { AreApart ledger.now }
    ensures closed { IfOk result (λ due.
        due.closed.items ≡ numbers_where (closes drain.now last.now.shown) worker ledger.now) }
    ensures moved { IfOk result (λ due.
        due.moved.items ≡ numbers_where (moves last.now.shown) worker ledger.now) }
{
    // They are in order, and no two are of one number.
    let _ = ledger.on(worker, 0);
    let looked_at = closing.numbers(alloc, worker)?;
    let closed = those_closing(alloc, ledger, drain, last, worker, looked_at.as_slice())?;
    let moved = those_moving(alloc, ledger, last, worker, looked_at.as_slice())?;
    Ok(Due {
        looked_at,
        closed,
        moved,
    })
}

// Of these numbers those of a worker's connections that close.
fn those_closing(
    alloc: Global,
    ledger: &Ledger,
    drain: &Drain,
    last: &Snapshot,
    worker: u32,
    numbers: &[u64],
) -> Result<Vec<u64>, AllocError>
    ensures { IfOk result (λ closed.
        closed.items ≡ filter (passes_at (closes drain.now last.now.shown) worker ledger.now) numbers.now) }
{
    numbers
        .iter()
        .filter(|conn| closes_at(ledger, drain, last, worker, **conn))
        .map(|conn| *conn)
        .collect(alloc)
}

// Whether a worker's connection closes.
fn closes_at(ledger: &Ledger, drain: &Drain, last: &Snapshot, worker: u32, conn: u64) -> bool
    ensures { result ≡ passes_at (closes drain.now last.now.shown) worker ledger.now conn }
{
    match ledger.on(worker, conn) {
        Some(on) => closes(drain, last, &on),
        None => false,
    }
}

// Of these numbers those of a worker's connections that move.
fn those_moving(
    alloc: Global,
    ledger: &Ledger,
    last: &Snapshot,
    worker: u32,
    numbers: &[u64],
) -> Result<Vec<u64>, AllocError>
    ensures { IfOk result (λ moved.
        moved.items ≡ filter (passes_at (moves last.now.shown) worker ledger.now) numbers.now) }
{
    numbers
        .iter()
        .filter(|conn| moves_at(ledger, last, worker, **conn))
        .map(|conn| *conn)
        .collect(alloc)
}

// Whether a worker's connection moves.
fn moves_at(ledger: &Ledger, last: &Snapshot, worker: u32, conn: u64) -> bool
    ensures { result ≡ passes_at (moves last.now.shown) worker ledger.now conn }
{
    match ledger.on(worker, conn) {
        Some(on) => moves(last, &on),
        None => false,
    }
}

/// Of these numbers those of a worker's connections are looked at no longer that neither are on a listener whose
/// drain timeout came nor move by the last snapshot. It takes no memory.
pub(crate) fn leave_done(
    closing: &mut Closing,
    drain: &Drain,
    last: &Snapshot,
    ledger: &Ledger,
    worker: u32,
    numbers: &[u64],
)
    ensures { StillFinds drain.now last.now.shown closing.old closing.new ledger.now ledger.now }
{
    for number in numbers {
        leave_where_done(closing, drain, last, ledger, worker, *number);
    }
}

// A worker's connection is looked at no longer where it is so.
fn leave_where_done(
    closing: &mut Closing,
    drain: &Drain,
    last: &Snapshot,
    ledger: &Ledger,
    worker: u32,
    conn: u64,
)
    ensures { StillFinds drain.now last.now.shown closing.old closing.new ledger.now ledger.now }
{
    if !is_due_at(ledger, drain, last, worker, conn) {
        closing.leave(worker, conn);
    }
}

// Whether a worker's connection is on such a listener, or moves.
fn is_due_at(ledger: &Ledger, drain: &Drain, last: &Snapshot, worker: u32, conn: u64) -> bool
    ensures due { result ≡ passes_at (is_due drain.now last.now.shown) worker ledger.now conn }
    ensures apart { AreApart ledger.now }
{
    match ledger.on(worker, conn) {
        Some(on) => is_due(drain, last, &on),
        None => false,
    }
}
