ghost use Rattle.std.specs.Prelude.{◌≡◌, List, [], ◌∷◌, ◌++◌, map, IfOk, OnOk};
ghost use Rattle.ev_sotw.specs.Follows.{FollowsEntries, GoesOnBy};
ghost use Rattle.ev_sotw.specs.Stated.{Stated, sotw_line};
ghost use Rattle.ev_sotw.specs.Text.{is_response, version_at, stated_by, sotw_text};

use crate::state::SotwState;
use ev_journal::{write_end_line, write_first_line};
use ev_types::{Entry, Event, Format, Text, TryCopy};
use std::alloc::{AllocError, Global};

/// Writes the text of a journal in format 2, for this many workers,
/// with the requests of the state of the world: the first line, a line for each entry,
/// and the end line with their number, each closed by a line feed.
/// `versions` are those of the responses of the lines after the header of the script of the state
/// of the world that was replayed.
///
/// # Errors
/// `AllocError` where there is no memory for it.
pub fn render_sotw(
    alloc: Global,
    versions: &[Text],
    workers: u32,
    journal: &[Entry],
) -> Result<Vec<u8>, AllocError>
    ensures { IfOk result (λ text. text.items ≡ sotw_text workers (map (stated_by versions.now) journal.now)) }
{
    let mut text = write_first_line(alloc, Format::Two, workers)?;
    let mut state = SotwState::new(alloc);
    for entry in journal {
        push_entry(alloc, &mut text, &mut state, versions, entry)?;
    }
    text.extend_from_slice(write_end_line(alloc, journal.len())?.as_slice())?;
    Ok(text)
}

// Appends the line of an entry to the text.
fn push_entry(
    alloc: Global,
    text: &mut Vec<u8>,
    state: &mut SotwState,
    versions: &[Text],
    entry: &Entry,
) -> Result<(), AllocError>
    ensures follows { OnOk result (GoesOnBy (stated_by versions.now entry.now) state.old state.new) }
    ensures line { OnOk result ((entries : List Stated) → FollowsEntries entries state.old
        → text.new.items ≡ text.old.items ++ sotw_line entries (stated_by versions.now entry.now)) }
{
    let version = version_at(alloc, versions, entry)?;
    let line = state.line(alloc, entry, &version)?;
    text.extend_from_slice(line.as_slice())
}

// The version of the response that an entry answers, and the empty text where it answers none.
fn version_at(alloc: Global, versions: &[Text], entry: &Entry) -> Result<Text, AllocError>
    ensures { IfOk result (λ version. version ≡ version_at versions.now entry.now) }
{
    if !is_response(&entry.event) {
        return Text::new(alloc, "");
    }
    match versions.get((entry.at as usize).saturating_sub(2)) {
        Some(version) => version.copy(alloc),
        None => Text::new(alloc, ""),
    }
}

fn is_response(event: &Event) -> bool
    ensures { result ≡ is_response event.now }
{
    matches!(event, Event::Response(_))
}
