ghost use Rattle.std.specs.Prelude.{◌≡◌, ◌<◌, length, IfOk, OnOk, OnErr};
ghost use Rattle.ev_model.specs.Connections.{answer_of, closed, served_by, way_of};
ghost use Rattle.ev_snapshot.specs.Chosen.{host_of};
ghost use Rattle.ev_ledger.specs.Members.{HasOpenedAfter};
ghost use Rattle.ev_worker.specs.Batches.{outcome_answer, accepted_answer, closed_answer, closed_as};
ghost use Rattle.ev_retirement.specs.Asking.{LetsGo};
ghost use Rattle.ev_retirement.specs.Closing.{StillFinds};
ghost use Rattle.ev_retirement.specs.Lines.{IsAccepted, KeepsOpen, accept_leaves, line_leaves, lines_leave, opened_on};

use crate::Pictures;
use crate::asking::Asking;
use crate::closing::{Closing, enter_where_due};
use crate::letting_go::close_one;
use ev_drain::Drain;
use ev_ledger::{Ledger, On};
use ev_model::Choice;
use ev_snapshot::Snapshot;
use ev_types::{Answer, Ask, Event, Gen, Host, TryCopy, Way};
use ev_worker::{Accepted, BatchLine, Closed, Outcome, on_of};
use std::alloc::{AllocError, Global};

/// Opens and closes what a worker's lines opened and closed, one after another; what a closed connection was open on
/// is to be asked about, where it was retired. Out of memory, some of the first are taken.
pub(crate) fn take_lines(
    asking: &mut Asking,
    closing: &mut Closing,
    drain: &Drain,
    last: &Snapshot,
    ledger: &mut Ledger,
    worker: u32,
    lines: &[BatchLine],
) -> Result<(), AllocError>
    ensures opened { OnOk result (HasOpenedAfter (lines_leave worker lines.now) ledger.old ledger.new) }
    ensures goes { LetsGo drain.now asking.old asking.new ledger.old ledger.new }
    ensures found { StillFinds drain.now last.now.shown closing.old closing.new ledger.old ledger.new }
{
    for line in lines {
        take_line(asking, closing, drain, last, ledger, worker, line)?;
    }
    Ok(())
}

// Opens or closes what a line opened or closed.
fn take_line(
    asking: &mut Asking,
    closing: &mut Closing,
    drain: &Drain,
    last: &Snapshot,
    ledger: &mut Ledger,
    worker: u32,
    line: &BatchLine,
) -> Result<(), AllocError>
    ensures opened { OnOk result (HasOpenedAfter (line_leaves worker line.now) ledger.old ledger.new) }
    ensures goes { LetsGo drain.now asking.old asking.new ledger.old ledger.new }
    ensures found { StillFinds drain.now last.now.shown closing.old closing.new ledger.old ledger.new }
{
    match &line.event {
        Event::Accept(ask) => {
            take_accept(
                closing,
                drain,
                last,
                ledger,
                worker,
                ask.get().conn,
                &line.outcome,
            )
        }
        Event::Close(conn) => take_close(asking, closing, drain, last, ledger, worker, *conn),
        _ => Ok(()),
    }
}

// Closes what a close closed.
fn take_close(
    asking: &mut Asking,
    closing: &mut Closing,
    drain: &Drain,
    last: &Snapshot,
    ledger: &mut Ledger,
    worker: u32,
    conn: u64,
) -> Result<(), AllocError>
    ensures opened { OnOk result (HasOpenedAfter (λ opened. (closed conn worker opened).opened) ledger.old ledger.new) }
    ensures goes { LetsGo drain.now asking.old asking.new ledger.old ledger.new }
    ensures found { StillFinds drain.now last.now.shown closing.old closing.new ledger.old ledger.new }
{
    let _ = close_one(asking, closing, drain, ledger, worker, conn)?;
    Ok(())
}

/// How the machine answers a worker's accept, by the snapshot that the worker holds and by its connections that are
/// open.
pub(crate) fn answer_accept(pictures: &Pictures, ledger: &Ledger, worker: u32, ask: &Ask) -> Outcome
    requires known { worker < length pictures.now.held }
    ensures { IsAccepted pictures.now ledger.now worker ask.now result }
{
    if ledger.is_open(worker, ask.conn) {
        return Outcome::Accepted(Accepted::InUse);
    }
    Outcome::Accepted(Accepted::Chosen(pictures.held(worker).choose(ask)))
}

/// Opens what an accept opened. Out of memory, all stays as it was.
pub(crate) fn take_accept(
    closing: &mut Closing,
    drain: &Drain,
    last: &Snapshot,
    ledger: &mut Ledger,
    worker: u32,
    conn: u64,
    outcome: &Outcome,
) -> Result<(), AllocError>
    ensures opened { OnOk result (HasOpenedAfter (accept_leaves worker conn outcome.now) ledger.old ledger.new) }
    ensures kept { KeepsOpen ledger.old ledger.new }
    ensures found { StillFinds drain.now last.now.shown closing.old closing.new ledger.old ledger.new }
    ensures err { OnErr result (ledger.new ≡ ledger.old) }
{
    match outcome {
        Outcome::Accepted(accepted) => {
            open_on(closing, drain, last, ledger, worker, conn, on_of(accepted))
        }
        Outcome::Closed(_) => Ok(()),
    }
}

// Opens a connection on a listener and, where it is forwarded, on a cluster, where none of its number is open.
fn open_on(
    closing: &mut Closing,
    drain: &Drain,
    last: &Snapshot,
    ledger: &mut Ledger,
    worker: u32,
    conn: u64,
    on: Option<On>,
) -> Result<(), AllocError>
    ensures opened { OnOk result (HasOpenedAfter (opened_on worker conn on) ledger.old ledger.new) }
    ensures kept { KeepsOpen ledger.old ledger.new }
    ensures found { StillFinds drain.now last.now.shown closing.old closing.new ledger.old ledger.new }
    ensures err { OnErr result (ledger.new ≡ ledger.old) }
{
    let Some(on) = on else {
        return Ok(());
    };
    if ledger.is_open(worker, conn) {
        return Ok(());
    }
    let Ok(_) = enter_where_due(closing, drain, last, worker, conn, &on) else {
        return Err(AllocError);
    };
    ledger.open(worker, conn, on)
}

/// The machine's answer for how a line of a worker was answered: `snapshot` is what the worker served from, which has
/// the host that a connection goes to.
pub fn answer_of(
    alloc: Global,
    snapshot: &Snapshot,
    outcome: &Outcome,
) -> Result<Answer, AllocError>
    ensures { IfOk result (λ answer. answer ≡ outcome_answer snapshot.now outcome.now) }
{
    match outcome {
        Outcome::Accepted(accepted) => accepted_answer(alloc, snapshot, accepted),
        Outcome::Closed(closed) => Ok(closed_answer(*closed)),
    }
}

// The answer for how a close was answered.
fn closed_answer(closed: Closed) -> Answer
    ensures { result ≡ closed_answer closed }
{
    match closed {
        Closed::Done => Answer::Done,
        Closed::NotOpen => Answer::NotOpen,
    }
}

/// The answer to a close, by whether the connection was open.
pub(crate) fn close_answer(was_open: bool) -> Answer
    ensures { result ≡ closed_answer (closed_as was_open) }
{
    if was_open {
        Answer::Done
    } else {
        Answer::NotOpen
    }
}

// The answer for how an accept was answered.
fn accepted_answer(
    alloc: Global,
    snapshot: &Snapshot,
    accepted: &Accepted,
) -> Result<Answer, AllocError>
    ensures { IfOk result (λ answer. answer ≡ accepted_answer snapshot.now accepted.now) }
{
    match accepted {
        Accepted::InUse => Ok(Answer::InUse),
        Accepted::Chosen(choice) => choice_answer(alloc, snapshot, choice),
    }
}

// The answer for a choice.
fn choice_answer(alloc: Global, snapshot: &Snapshot, choice: &Choice) -> Result<Answer, AllocError>
    ensures { IfOk result (λ answer. answer ≡ answer_of snapshot.now choice.now) }
{
    match choice {
        Choice::NoListener => Ok(Answer::NoListener),
        Choice::NoChain => Ok(Answer::NoChain),
        Choice::On {
            listener,
            chain,
            way,
            ..
        } => Ok(Answer::On {
            listener: *listener,
            chain: *chain,
            way: host_way(alloc, snapshot, way)?,
        }),
    }
}

// The way of a choice, with the host in place of its place.
#[tactic(auto, using(crate::proofs::LineLemmas::same_host))]
fn host_way(alloc: Global, snapshot: &Snapshot, way: &Way<u32>) -> Result<Way<Host>, AllocError>
    ensures { IfOk result (λ found. found ≡ way_of snapshot.now way.now) }
{
    match way {
        Way::Undecided => Ok(Way::Undecided),
        Way::Elsewhere { cluster } => Ok(Way::Elsewhere { cluster: *cluster }),
        Way::NoRoute => Ok(Way::NoRoute),
        Way::Redirect => Ok(Way::Redirect),
        Way::NoCluster => Ok(Way::NoCluster),
        Way::NoEndpoint => Ok(Way::NoEndpoint),
        Way::NoSecret { cluster } => Ok(Way::NoSecret { cluster: *cluster }),
        Way::Local { status } => Ok(Way::Local { status: *status }),
        Way::Served { cluster, host } => served_way(alloc, snapshot, *cluster, *host),
    }
}

// The way to a host of a cluster.
fn served_way(
    alloc: Global,
    snapshot: &Snapshot,
    cluster: Gen,
    place: u32,
) -> Result<Way<Host>, AllocError>
    ensures { IfOk result (λ way. way ≡ served_by cluster (host_of snapshot.now cluster place)) }
{
    match snapshot.host(cluster, place) {
        Some(host) => Ok(Way::Served {
            cluster,
            host: host.copy(alloc)?,
        }),
        None => Ok(Way::NoEndpoint),
    }
}
