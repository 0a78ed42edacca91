ghost use Rattle.std.specs.Prelude.{◌≡◌, [], ◌∷◌, ◌++◌, IfOk, OnOk, OnErr};

use ev_drain::Deferred;
use ev_types::{Actor, Answer, Entry, Event, TryCopy};
use std::alloc::{AllocError, Global};

// An event with its answer, as an entry. The event is copied: it stays a part of its script.
pub(crate) fn entry_of(
    alloc: Global,
    actor: Actor,
    at: u32,
    step: u32,
    event: &Event,
    answer: Answer,
) -> Result<Entry, AllocError>
    ensures { IfOk result (λ entry. entry
        ≡ record { actor = actor; at = at; step = step; event = event.now; answer = answer }) }
{
    Ok(Entry {
        actor,
        at,
        step,
        event: event.copy(alloc)?,
        answer,
    })
}

// Appends what was done to a journal, and puts the rows that it reaped after those that wait.
// Out of memory, both stay as they were.
pub(crate) fn enter(
    journal: &mut Vec<Entry>,
    deferred: &mut Deferred,
    reaped: &mut Deferred,
    entry: Entry,
) -> Result<(), AllocError>
    ensures journal { OnOk result (journal.new.items ≡ journal.old.items ++ entry ∷ []) }
    ensures deferred { OnOk result (deferred.new.0 ≡ deferred.old.0 ++ reaped.old.0) }
    ensures journal_kept { OnErr result (journal.new.items ≡ journal.old.items) }
    ensures deferred_kept { OnErr result (deferred.new.0 ≡ deferred.old.0) }
    ensures none { OnOk result (reaped.new.0 ≡ []) }
{
    journal.reserve(1)?;
    deferred.append(reaped)?;
    journal.push_reserved(entry);
    Ok(())
}
