ghost use Rattle.std.specs.Prelude.{◌≡◌, string_bytes, IfOk, OnOk};
ghost use Rattle.ev_journal.specs.Rendering.{format_number, actor_text, op_text, verdict_text};
ghost use Rattle.ev_journal.specs.Rows.{IsActor};

use ev_types::{Actor, Format, Op, Verdict};
use std::alloc::{AllocError, Global};

/// The number of a format.
pub(crate) fn format_number(format: Format) -> u32
    ensures { result ≡ format_number format }
{
    match format {
        Format::One => 1,
        Format::Two => 2,
    }
}

/// An actor in words.
pub fn actor_word(alloc: Global, actor: Actor) -> Result<String, AllocError>
    ensures word { IfOk result (λ word. string_bytes word ≡ actor_text actor) }
    ensures bounded { OnOk result (IsActor actor) }
{
    match actor {
        Actor::Stream => String::from_str(alloc, "stream"),
        Actor::Health => String::from_str(alloc, "health"),
        Actor::Timer => String::from_str(alloc, "timer"),
        Actor::Main => String::from_str(alloc, "main"),
        Actor::Worker(worker) => format!(in alloc; "w{worker}"),
    }
}

/// An operation's word.
pub fn op_word(op: Op) -> &'static str
    ensures { result.now ≡ op_text op }
{
    match op {
        Op::Connect => "connect",
        Op::Disconnect => "disconnect",
        Op::Response => "response",
        Op::Health => "health",
        Op::FetchTimeout => "fetchTimeout",
        Op::DrainTimeout => "drainTimeout",
        Op::TtlExpired => "ttlExpired",
        Op::Publish => "publish",
        Op::Reap => "reap",
        Op::Accept => "accept",
        Op::Close => "close",
        Op::Settle => "settle",
    }
}

/// A verdict in words.
pub fn verdict_word(alloc: Global, verdict: Verdict) -> Result<String, AllocError>
    ensures { IfOk result (λ word. string_bytes word ≡ verdict_text verdict) }
{
    match verdict {
        Verdict::New => String::from_str(alloc, "new"),
        Verdict::Same => String::from_str(alloc, "same"),
        Verdict::InPlace => String::from_str(alloc, "inPlace"),
        Verdict::Back => String::from_str(alloc, "back"),
        Verdict::Kept => String::from_str(alloc, "kept"),
        Verdict::Unasked => String::from_str(alloc, "unasked"),
        Verdict::Renewed => String::from_str(alloc, "renewed"),
        Verdict::Refused(rule) => {
            let number = rule.number();
            format!(in alloc; "V{number}")
        }
    }
}
