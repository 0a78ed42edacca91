ghost use Rattle.std.specs.Prelude.{◌≡◌, IfOk};
ghost use Rattle.ev_model.specs.Dead.{waits_for_timer};
ghost use Rattle.ev_drain.specs.Notes.{dead_notes, is_dead_note, is_held_note};

use crate::notes::{Note, Notes};
use crate::shown::Shows;
use ev_ledger::Ledger;
use ev_types::{Format, Gen, Kind, RowStatus};
use std::alloc::{AllocError, Global};

/// The numbers of the notes of generations that nothing holds, in order.
pub(crate) fn dead_notes<S: Shows>(
    alloc: Global,
    notes: &Notes,
    format: Format,
    ledger: &Ledger,
    shown: &S,
) -> Result<Vec<Gen>, AllocError>
    ensures { IfOk result (λ dead. dead.items ≡ dead_notes format (S.has shown.now) ledger.now notes.now.entries) }
{
    notes
        .iter()
        .filter(|entry| nothing_holds(format, ledger, shown, *entry.0, entry.1))
        .map(|(number, _)| *number)
        .collect(alloc)
}

/// Whether nothing holds a generation any more.
pub(crate) fn nothing_holds<S: Shows>(
    format: Format,
    ledger: &Ledger,
    shown: &S,
    number: Gen,
    note: &Note,
) -> bool
    ensures { result ≡ is_dead_note format (S.has shown.now) ledger.now (number, note.now) }
{
    match note.status {
        RowStatus::Warming => false,
        RowStatus::Active => false,
        RowStatus::Draining => !is_held(format, ledger, shown, number, note),
        RowStatus::Dropped => true,
    }
}

// Whether a picture in use or a connection holds a draining generation, or its drain timeout is awaited.
fn is_held<S: Shows>(format: Format, ledger: &Ledger, shown: &S, number: Gen, note: &Note) -> bool
    ensures { result ≡ is_held_note format (S.has shown.now) ledger.now (number, note.now) }
{
    shown.shows(number)
        || ledger.count(number) != 0
        || (waits_for_timer(format, note.kind) && !note.expired)
}

// Whether a draining generation of this kind waits for its drain timeout.
fn waits_for_timer(format: Format, kind: Kind) -> bool
    ensures { result ≡ waits_for_timer format kind }
{
    matches!((format, kind), (Format::Two, Kind::Lds))
}
