ghost use Rattle.std.specs.Prelude.{◌≡◌, ◌+◌, length, IfOk};
ghost use Rattle.std.specs.List.{list_any};
ghost use Rattle.ev_model.specs.Entries.{numbers_reaped};
ghost use Rattle.ev_tally.specs.Tallies.{is_refusal, is_ack, is_nack, is_opened, is_served, is_counted, count_answers, all_reaped, tally_of};

use crate::counts::Tally;
use ev_types::{Answer, Entry, Verdict, Way};
use std::alloc::AllocError;

/// Counts up a journal.
///
/// # Errors
/// `AllocError` where its reapings name 2^64 numbers and more together: there is no room for so many.
pub fn tally(journal: &[Entry]) -> Result<Tally, AllocError>
    ensures { IfOk result (λ counts. counts ≡ tally_of journal.now) }
{
    let reaped = count_reaped(journal)?;
    Ok(Tally {
        acks: count_answers(journal, Counted::Acks),
        nacks: count_answers(journal, Counted::Nacks),
        opened: count_answers(journal, Counted::Opened),
        served: count_answers(journal, Counted::Served),
        reaped,
    })
}

// Which answers are counted.
#[derive(Clone, Copy, Debug)]
enum Counted {
    Acks,
    Nacks,
    Opened,
    Served,
}

// How many entries have such an answer.
#[tactic(auto, using(crate::proofs::TallyLemmas::count_more))]
fn count_answers(journal: &[Entry], counted: Counted) -> u64
    ensures { result ≡ count_answers (is_counted counted) journal.now }
{
    let mut count = 0u64;
    for entry in journal {
        count += u64::from(is_counted(counted, &entry.answer));
    }
    count
}

// Whether an answer is one of those that are counted.
fn is_counted(counted: Counted, answer: &Answer) -> bool
    ensures { result ≡ is_counted counted answer.now }
{
    match counted {
        Counted::Acks => is_ack(answer),
        Counted::Nacks => is_nack(answer),
        Counted::Opened => is_opened(answer),
        Counted::Served => is_served(answer),
    }
}

// How many generations a journal's reapings destroyed.
fn count_reaped(journal: &[Entry]) -> Result<u64, AllocError>
    ensures { IfOk result (λ count. count ≡ length (all_reaped journal.now)) }
{
    let mut count = 0u64;
    for entry in journal {
        count = sum(count, count_numbers(&entry.answer))?;
    }
    Ok(count)
}

// So many more, where the sum has 64 bits.
fn sum(count: u64, more: u64) -> Result<u64, AllocError>
    ensures { IfOk result (λ sum. sum ≡ count + more) }
{
    match count.checked_add(more) {
        Some(sum) => Ok(sum),
        None => Err(AllocError),
    }
}

// How many generations a reaping destroyed; other events destroy none.
fn count_numbers(answer: &Answer) -> u64
    ensures { result ≡ length (numbers_reaped answer.now) }
{
    match answer {
        Answer::Reaped(numbers) => numbers.len() as u64,
        _ => 0,
    }
}

// Whether a response is answered, and none of its resources is refused.
fn is_ack(answer: &Answer) -> bool
    ensures { result ≡ is_ack answer.now }
{
    match answer {
        Answer::Replied { verdicts, .. } => !has_refusal(verdicts.as_slice()),
        _ => false,
    }
}

// Whether a response is answered, and one of its resources is refused.
fn is_nack(answer: &Answer) -> bool
    ensures { result ≡ is_nack answer.now }
{
    match answer {
        Answer::Replied { verdicts, .. } => has_refusal(verdicts.as_slice()),
        _ => false,
    }
}

// Whether one of these verdicts is a refusal.
fn has_refusal(verdicts: &[Verdict]) -> bool
    ensures { result ≡ list_any is_refusal verdicts.now }
{
    verdicts.iter().any(|verdict| is_refusal(*verdict))
}

// Whether a resource is refused.
fn is_refusal(verdict: Verdict) -> bool
    ensures { result ≡ is_refusal verdict }
{
    matches!(verdict, Verdict::Refused(_))
}

// Whether an accept opened a connection: a filter chain of a listener took it, whatever became of it there.
fn is_opened(answer: &Answer) -> bool
    ensures { result ≡ is_opened answer.now }
{
    matches!(answer, Answer::On { .. })
}

// Whether an accept was answered with a host.
fn is_served(answer: &Answer) -> bool
    ensures { result ≡ is_served answer.now }
{
    match answer {
        Answer::On { way, .. } => matches!(way, Way::Served { .. }),
        _ => false,
    }
}
