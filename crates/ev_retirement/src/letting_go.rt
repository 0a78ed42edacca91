ghost use Rattle.std.specs.Prelude.{◌≡◌, ◌<◌, true, false, length, IfOk, OnOk, OnErr};
ghost use Rattle.ev_model.specs.Connections.{closed, is_member, is_open};
ghost use Rattle.ev_model.specs.declared.pictures.Shown.{Shown};
ghost use Rattle.ev_ledger.specs.Members.{HasOpenedAfter, IsAnswerOf};
ghost use Rattle.ev_drain.specs.Retired.{has_row};
ghost use Rattle.ev_retirement.specs.Asking.{AreAskedOn, AreBothAsked, AsksMore, LetsGo, MayLeave, is_asked};
ghost use Rattle.ev_retirement.specs.Closing.{StillFinds, closed_all, moved_each, moved_one};

use crate::Pictures;
use crate::asking::Asking;
use crate::closing::{Closing, enter_where_due};
use ev_drain::Drain;
use ev_ledger::{Ledger, On};
use ev_snapshot::Snapshot;
use ev_types::Gen;
use std::alloc::{AllocError, Global};

/// Closes a worker's connection, and returns whether it was open; what it was open on is to be asked about, where it
/// was retired. Out of memory, it stays open.
pub(crate) fn close_one(
    asking: &mut Asking,
    closing: &mut Closing,
    drain: &Drain,
    ledger: &mut Ledger,
    worker: u32,
    conn: u64,
) -> Result<bool, AllocError>
    ensures answer { IfOk result (IsAnswerOf (λ opened. is_open opened worker conn) ledger.old) }
    ensures world { OnOk result (HasOpenedAfter (λ opened. (closed conn worker opened).opened) ledger.old ledger.new) }
    ensures closed { OnOk result (ledger.new ≡ (closed conn worker ledger.old).opened) }
    ensures gone { OnOk result (is_open ledger.new worker conn ≡ false) }
    ensures goes { LetsGo drain.now asking.old asking.new ledger.old ledger.new }
    ensures found { (shown : Shown) → StillFinds drain.now shown closing.old closing.new ledger.old ledger.new }
    ensures err { OnErr result (ledger.new ≡ ledger.old) }
{
    let Ok(_) = ask_on(asking, drain, ledger, worker, conn) else {
        return Err(AllocError);
    };
    closing.leave(worker, conn);
    Ok(ledger.close(worker, conn))
}

/// Closes a worker's connections of these numbers; what they were open on is to be asked about, where it was retired.
/// Out of memory, some of the first are closed.
pub(crate) fn close_each(
    asking: &mut Asking,
    closing: &mut Closing,
    drain: &Drain,
    ledger: &mut Ledger,
    worker: u32,
    numbers: &[u64],
) -> Result<(), AllocError>
    ensures closed { OnOk result (ledger.new ≡ closed_all worker numbers.now ledger.old) }
    ensures goes { LetsGo drain.now asking.old asking.new ledger.old ledger.new }
    ensures found { (shown : Shown) → StillFinds drain.now shown closing.old closing.new ledger.old ledger.new }
{
    for number in numbers {
        let _ = close_one(asking, closing, drain, ledger, worker, *number)?;
    }
    Ok(())
}

/// Moves a worker's connections of these numbers to the listeners of the last snapshot that have their chains, each
/// where its own isn't shown; what they were open on is to be asked about, where it was retired. Out of memory, some
/// of the first have moved, and one may be closed.
pub(crate) fn move_each(
    asking: &mut Asking,
    closing: &mut Closing,
    drain: &Drain,
    last: &Snapshot,
    ledger: &mut Ledger,
    worker: u32,
    numbers: &[u64],
) -> Result<(), AllocError>
    ensures moved { OnOk result (ledger.new ≡ moved_each worker numbers.now last.now.shown ledger.old) }
    ensures goes { LetsGo drain.now asking.old asking.new ledger.old ledger.new }
    ensures found { StillFinds drain.now last.now.shown closing.old closing.new ledger.old ledger.new }
{
    for number in numbers {
        move_one(asking, closing, drain, last, ledger, worker, *number)?;
    }
    Ok(())
}

// Moves a worker's connection, where its listener isn't shown and another one has its chain.
fn move_one(
    asking: &mut Asking,
    closing: &mut Closing,
    drain: &Drain,
    last: &Snapshot,
    ledger: &mut Ledger,
    worker: u32,
    conn: u64,
) -> Result<(), AllocError>
    ensures moved { OnOk result (ledger.new ≡ moved_one worker conn last.now.shown ledger.old) }
    ensures goes { LetsGo drain.now asking.old asking.new ledger.old ledger.new }
    ensures found { StillFinds drain.now last.now.shown closing.old closing.new ledger.old ledger.new }
{
    let Some(on) = ledger.on(worker, conn) else {
        return Ok(());
    };
    let Some(listener) = last.next_listener(on.listener, on.origin) else {
        return Ok(());
    };
    let next = On {
        listener,
        cluster: on.cluster,
        origin: on.origin,
    };
    let _ = close_one(asking, closing, drain, ledger, worker, conn)?;
    enter_where_due(closing, drain, last, worker, conn, &next)?;
    ledger.open(worker, conn, next)
}

// What a worker's connection is open on is to be asked about, where it was retired.
fn ask_on(
    asking: &mut Asking,
    drain: &Drain,
    ledger: &Ledger,
    worker: u32,
    conn: u64,
) -> Result<(), AllocError>
    ensures asked { OnOk result (AreAskedOn (is_member worker conn) asking.new drain.now ledger.now) }
    ensures more { AsksMore asking.old asking.new }
{
    match ledger.on(worker, conn) {
        Some(on) => ask_both(asking, drain, &on),
        None => Ok(()),
    }
}

// A listener and, where there is one, a cluster are to be asked about, where they were retired.
fn ask_both(asking: &mut Asking, drain: &Drain, on: &On) -> Result<(), AllocError>
    ensures asked { OnOk result (AreBothAsked asking.new drain.now on.now) }
    ensures more { AsksMore asking.old asking.new }
{
    ask_retired(asking, drain, on.listener)?;
    match on.cluster {
        Some(cluster) => ask_retired(asking, drain, cluster),
        None => Ok(()),
    }
}

// The generation of this number is to be asked about, where it was retired.
#[tactic(auto, using(crate::proofs::HoldLemmas::kind_there, crate::proofs::MoreLemmas::same_more))]
fn ask_retired(asking: &mut Asking, drain: &Drain, number: Gen) -> Result<(), AllocError>
    ensures asked { OnOk result (has_row drain.now number ≡ true → is_asked asking.new number ≡ true) }
    ensures more { AsksMore asking.old asking.new }
{
    if drain.kind(number).is_some() {
        return asking.ask(number);
    }
    Ok(())
}

/// What is set aside under the picture that a worker gives up where it settles is to be asked about. Out of memory,
/// some of it is.
pub(crate) fn recall_left(
    alloc: Global,
    asking: &mut Asking,
    pictures: &Pictures,
    worker: u32,
) -> Result<(), AllocError>
    requires known { worker < length pictures.now.held }
    ensures left { OnOk result (MayLeave worker asking.new pictures.now) }
    ensures more { AsksMore asking.old asking.new }
{
    match pictures.leaving(worker) {
        Some(version) => asking.recall(alloc, version),
        None => Ok(()),
    }
}
