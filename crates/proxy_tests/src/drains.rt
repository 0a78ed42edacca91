//! What is dead by the rules of either format, and the rows that were reaped.
ghost use Rattle.std.specs.Prelude.{◌≡◌, ◌<◌, ◌-◌, [], OnOk};

use ev_drain::{Deferred, Drain, Shows};
use ev_keys::Keys;
use ev_ledger::{Ledger, On};
use ev_types::{Content, Format, Gen, GenRow, Kind, Name, RouteTable, RowStatus, Seq, Shared};
use std::alloc::Global;
use std::hash::DefaultHasher;
use std::mem::drop;
use std::process::Abort;
use std::test::Fail;

// The listener, number 1, is shown, or nothing is.
#[derive(Drop)]
struct Shown(bool);

impl Shows for Shown {
    ghost use Rattle.std.specs.Prelude.{◌&&◌, ◌==◌};

    ghost has = { λ shown number. shown.0 && (number == 1) };

    fn shows(&self, number: Gen) -> bool {
        self.0 && number == Gen::new(1)
    }
}

// These are dead where the listener is shown or not.
fn find_dead(
    rt: &impl Abort,
    alloc: Global,
    drain: &Drain,
    ledger: &Ledger,
    format: Format,
    shown: bool,
    want: &[Gen],
) -> Result<(), Fail> {
    let dead = drain.dead(alloc, format, ledger, &Shown(shown))?;
    assert_eq!(rt; dead.as_slice(), want);
    Ok(())
}

// The listener, number 1, drains, and cluster 2 was dropped.
fn retire(alloc: Global, drain: &mut Drain, name: &Name) -> Result<(), Fail>
    requires { drain.old ≡ [] }
{
    drain.retire(alloc, Kind::Cds, Gen::new(2), name, true)?;
    Ok(drain.retire(alloc, Kind::Lds, Gen::new(1), name, false)?)
}

// By the rules of format 1 a connection holds the listener, and a picture that shows it;
// by those of format 2 its drain timeout too.
fn hold(
    rt: &impl Abort,
    alloc: Global,
    drain: &Drain,
    open: &Ledger,
    closed: &Ledger,
) -> Result<(), Fail> {
    let (listener, cluster) = (Gen::new(1), Gen::new(2));
    find_dead(rt, alloc, drain, open, Format::One, false, &[cluster])?;
    find_dead(rt, alloc, drain, closed, Format::One, true, &[cluster])?;
    find_dead(
        rt,
        alloc,
        drain,
        closed,
        Format::One,
        false,
        &[listener, cluster],
    )?;
    find_dead(rt, alloc, drain, closed, Format::Two, false, &[cluster])
}

// The same, and both are dead after it.
fn go(
    rt: &impl Abort,
    alloc: Global,
    drain: &mut Drain,
    open: &mut Ledger,
    closed: &Ledger,
) -> Result<(), Fail>
    requires nothing { drain.old ≡ [] }
    requires closed { open.old ≡ [] }
{
    let on = On {
        listener: Gen::new(1),
        cluster: None,
        origin: None,
    };
    open.open(0, 1, on)?;
    let name = Name::new(alloc, "in")?;
    retire(alloc, drain, &name)?;
    hold(rt, alloc, drain, open, closed)?;
    assert!(rt; drain.expire(&name) && !drain.expire(&name));
    let both = [Gen::new(1), Gen::new(2)];
    find_dead(rt, alloc, drain, closed, Format::Two, false, &both)
}

// Rows are dead once nothing holds them.
fn assert_dead(rt: &impl Abort, alloc: Global) -> Result<(), Fail> {
    let mut drain = Drain::new(alloc, Keys::after(DefaultHasher::new()));
    let closed = Ledger::new(alloc);
    let mut open = Ledger::new(alloc);
    let went = go(rt, alloc, &mut drain, &mut open, &closed);
    drop(open);
    drop(closed);
    drop(drain);
    went
}

fn row(alloc: Global, number: Gen) -> Result<GenRow, Fail> {
    let name = Name::new(alloc, "r")?;
    let hosts = Seq::new(alloc);
    let table = Shared::new(alloc, RouteTable { hosts })?;
    Ok(GenRow {
        kind: Kind::Rds,
        number,
        name,
        content: Content::Routes(table),
        status: RowStatus::Dropped,
        kept: Seq::new(alloc),
    })
}

fn push(alloc: Global, deferred: &mut Deferred, number: Gen) -> Result<(), Fail>
    requires { 0 < deferred.old.1 }
    ensures { OnOk result (deferred.new.1 ≡ deferred.old.1 - 1) }
{
    let row = row(alloc, number)?;
    deferred.push(row);
    Ok(())
}

fn push_two(alloc: Global, deferred: &mut Deferred) -> Result<(), Fail> {
    deferred.make_room(2)?;
    push(alloc, deferred, Gen::new(2))?;
    push(alloc, deferred, Gen::new(1))
}

#[test]
fn rows_are_dead_once_nothing_holds_them_and_are_kept_in_order(
    rt: HostRuntime,
) -> Result<(), Fail> {
    assert_dead(&rt, rt.alloc())?;
    let mut deferred = Deferred::new(rt.alloc());
    let pushed = push_two(rt.alloc(), &mut deferred);
    let rows = deferred.into_rows();
    let count = rows.len();
    let first = rows.as_slice().first().map(|row| row.number);
    drop(rows);
    pushed?;
    assert_eq!(rt; count, 2);
    assert_eq!(rt; first, Some(Gen::new(2)));
    Ok(())
}
