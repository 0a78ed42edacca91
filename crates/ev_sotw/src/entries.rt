ghost use Rattle.std.specs.Prelude.{◌≡◌};
ghost use Rattle.std.specs.Option.{option_copied};
ghost use Rattle.ev_sotw.specs.Stated.{is_connect, is_moved, opens, reply_in, requests_in};

use ev_types::{Answer, Entry, Event, Request};

// Whether an entry opens a stream.
pub(crate) fn opens(entry: &Entry) -> bool
    ensures { result ≡ opens entry.now }
{
    is_connect(&entry.event) & is_moved(&entry.answer)
}

fn is_connect(event: &Event) -> bool
    ensures { result ≡ is_connect event.now }
{
    matches!(event, Event::Connect)
}

fn is_moved(answer: &Answer) -> bool
    ensures { result ≡ is_moved answer.now }
{
    matches!(answer, Answer::Moved { .. })
}

// The requests of an answer.
pub(crate) fn requests_in(answer: &Answer) -> &[Request]
    ensures { result.now ≡ requests_in answer.now }
{
    match answer {
        Answer::Moved { requests } => requests.as_slice(),
        Answer::Replied { requests, .. } => requests.as_slice(),
        _ => &[],
    }
}

// The reply to a response: the first of the requests of its answer.
pub(crate) fn reply_in(answer: &Answer) -> Option<&Request>
    ensures { option_copied result ≡ reply_in answer.now }
{
    match answer {
        Answer::Replied { requests, .. } => requests.as_slice().first(),
        _ => None,
    }
}
