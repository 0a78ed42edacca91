ghost use Rattle.std.specs.Prelude.{◌≡◌, [], ◌∷◌, map, OnOk, OnErr};
ghost use Rattle.std.specs.List.{list_any};
ghost use Rattle.ev_drain.specs.Notes.{is_waiting_note, is_waiting_among, marked_note, marked_among};
ghost use Rattle.std.specs.Ordering.{nat_cmp};
ghost use Rattle.std.specs.BTreeMap.{insert_entry, IsOrdered};

use ev_types::{Gen, Kind, Name, RowStatus, Shared};
use std::alloc::{AllocError, Global};
use std::collections::BTreeMap;

/// What is noted of a generation that no longer serves.
#[derive(Drop)]
pub(crate) struct Note {
    pub(crate) kind: Kind,
    pub(crate) name: Shared<Name>,
    /// Whether it drains or was dropped.
    pub(crate) status: RowStatus,
    /// Whether its drain timeout came.
    pub(crate) expired: bool,
}

impl Clone for Note {
    ghost use Rattle.std.specs.Prelude.{◌≡◌};

    ghost is_clone = { λ note copied. copied ≡ note };

    // A copy shares the name.
    fn clone(&self) -> Result<Note, AllocError> {
        Ok(Note {
            kind: self.kind,
            name: self.name.share()?,
            status: self.status,
            expired: self.expired,
        })
    }
}

/// The kind of the generation.
pub(crate) fn kind_of(note: &Note) -> Kind
    ensures { result ≡ note.now.kind }
{
    note.kind
}

/// Whether it is a draining listener whose drain timeout hasn't come.
pub(crate) fn is_waiting(note: &Note) -> bool
    ensures { result ≡ is_waiting_note note.now.name note.now }
{
    note.kind.is(Kind::Lds) && matches!(note.status, RowStatus::Draining) && !note.expired
}

// Whether it is a draining listener of this name whose drain timeout hasn't come.
fn waits(note: &Note, name: &str) -> bool
    ensures { result ≡ is_waiting_note name.now note.now }
{
    is_waiting(note) && note.name.get().as_str() == name
}

/// The notes by number.
pub(crate) type Notes = BTreeMap<Gen, Note>;

/// Adds a note to the others. Out of memory, they stay as they were.
pub(crate) fn put(notes: &mut Notes, number: Gen, note: Note) -> Result<(), AllocError>
    ensures entries { OnOk result (notes.new.entries ≡ insert_entry nat_cmp notes.old.entries number note) }
    ensures err { OnErr result (notes.new.entries ≡ notes.old.entries) }
    ensures ordered { IsOrdered nat_cmp notes.old }
{
    // They are in the order of their numbers.
    let _ = notes.len();
    let Ok(_) = notes.insert(number, note) else {
        return Err(AllocError);
    };
    Ok(())
}

/// The drain timeout of this name came: marks the draining listeners of the name among the notes
/// of these numbers, and returns whether there was one for which it hadn't come.
/// It looks at no other note, and takes no memory.
pub(crate) fn mark(notes: &mut Notes, name: &str, numbers: &[Gen]) -> bool
    ensures answer { result ≡ list_any (is_waiting_among name.now numbers.now) notes.old.entries }
    ensures entries { notes.new.entries ≡ map (marked_among name.now numbers.now) notes.old.entries }
{
    let mut meant = false;
    for number in numbers {
        meant |= mark_numbered(notes, name, *number);
    }
    meant
}

// Marks the note of this number, where it is a draining listener of this name,
// and returns whether its drain timeout hadn't come.
fn mark_numbered(notes: &mut Notes, name: &str, number: Gen) -> bool
    ensures answer { result ≡ list_any (is_waiting_among name.now (number ∷ [])) notes.old.entries }
    ensures entries { notes.new.entries ≡ map (marked_among name.now (number ∷ [])) notes.old.entries }
{
    // They are in the order of their numbers.
    let _ = notes.len();
    match notes.get_mut(&number) {
        Some(note) => mark_one(note, name),
        None => false,
    }
}

// Marks it where it is a draining listener of this name, and returns whether its drain timeout hadn't come.
fn mark_one(note: &mut Note, name: &str) -> bool
    ensures answer { result ≡ is_waiting_note name.now note.old }
    ensures marked { note.new ≡ marked_note name.now note.old }
{
    if !waits(note, name) {
        return false;
    }
    note.expired = true;
    true
}
