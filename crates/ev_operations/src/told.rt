ghost use Rattle.std.specs.Prelude.{◌≡◌, ◌&&◌, ◌==◌};
ghost use Rattle.ev_types.specs.Events.{op_same};
ghost use Rattle.ev_operations.specs.Courses.{is_left, is_settle_due, tells_due};

use crate::due::Due;
use ev_types::{Event, Op, Row, Script};

/// Whether a row records what is due.
pub(crate) fn tells(script: &Script, row: &Row, due: Due) -> bool
    ensures { result ≡ tells_due script.now row.now due }
{
    let lines = script.lines.as_slice();
    match due {
        Due::Line(place) => match lines.get(place as usize) {
            Some(line) => is_told(row, line.at, 0, line.event.op()),
            None => false,
        },
        Due::Publish(place) => match lines.get(place as usize) {
            Some(line) => is_told(row, line.at, 1, Op::Publish),
            None => false,
        },
        Due::Reap(place) => match lines.get(place as usize) {
            Some(line) => is_told(row, line.at, 2, Op::Reap),
            None => false,
        },
        Due::Settle(place) => match lines.get(place as usize) {
            Some(line) => is_told(row, line.at, 1, Op::Settle),
            None => false,
        },
        Due::LastSettle => is_told(row, script.count + 1, 0, Op::Settle),
    }
}

// Whether a row is at this line and step and has this word.
fn is_told(row: &Row, at: u32, step: u32, op: Op) -> bool
    ensures { result ≡ ((row.now.at == at) && (row.now.step == step) && op_same row.now.op op) }
{
    row.at == at && row.step == step && is_same_word(row.op, op)
}

// Whether the two are the same word.
fn is_same_word(one: Op, other: Op) -> bool
    ensures { result ≡ op_same one other }
{
    match (one, other) {
        (Op::Connect, Op::Connect) => true,
        (Op::Disconnect, Op::Disconnect) => true,
        (Op::Response, Op::Response) => true,
        (Op::Health, Op::Health) => true,
        (Op::FetchTimeout, Op::FetchTimeout) => true,
        (Op::DrainTimeout, Op::DrainTimeout) => true,
        (Op::TtlExpired, Op::TtlExpired) => true,
        (Op::Publish, Op::Publish) => true,
        (Op::Reap, Op::Reap) => true,
        (Op::Accept, Op::Accept) => true,
        (Op::Close, Op::Close) => true,
        (Op::Settle, Op::Settle) => true,
        _ => false,
    }
}

/// Whether what is due may not be left out: a settle may be, where the actor rests.
pub(crate) fn is_left(script: &Script, rests: bool, due: Due) -> bool
    ensures { result ≡ is_left script.now rests due }
{
    !(rests && is_settle(script, due))
}

// Whether what is due is a settle.
fn is_settle(script: &Script, due: Due) -> bool
    ensures { result ≡ is_settle_due script.now due }
{
    match due {
        Due::Line(place) => match script.lines.as_slice().get(place as usize) {
            Some(line) => matches!(line.event, Event::Settle),
            None => false,
        },
        Due::Publish(_) | Due::Reap(_) => false,
        Due::Settle(_) | Due::LastSettle => true,
    }
}
