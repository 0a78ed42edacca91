ghost use Rattle.std.specs.Prelude.{◌≡◌, ◌<◌, [], None, map, length, OnOk};
ghost use Rattle.ev_script.specs.Members.{tree_told};
ghost use Rattle.serde_json.specs.View.{view};
ghost use Rattle.ev_expand.specs.Expanding.{IsExpanded, lines_due};
ghost use Rattle.ev_expand.specs.Following.{due_shown};
ghost use Rattle.ev_expand.specs.Fronts.{event_of};
ghost use Rattle.ev_expand.specs.Growing.{GrowsBy, Pushes, StepsBehind};
ghost use Rattle.ev_expand.specs.Guarding.{clusters_in};
ghost use Rattle.ev_expand.specs.Numbers.{TakesUpLine};
ghost use Rattle.ev_expand.specs.Placing.{placed_lines};
ghost use Rattle.ev_expand.specs.Private.{first_use};

use crate::expansion::Expansion;
use crate::following::{Due, following_value};
use crate::fronts::read_event;
use crate::guarding::{places_in, waiting_value};
use crate::numbers::Numbers;
use crate::outcome::ExpandError;
use crate::private::first_use;
use crate::text_so_far::TextSoFar;
use ev_keys::Keys;
use ev_script::LineTree;
use ev_types::{Event, Profile};
use serde_json::Value;
use std::alloc::{AllocError, Global};

/// An input has fewer lines after the first: `expand_with` takes fewer than this many.
pub const MOST_LINES: usize = 4_294_967_290;

/// The text that a command makes of the header and the lines of a script, which are read by this profile. Its tables
/// hash by these keys.
///
/// # Errors
/// `Private` exactly for the first line that uses a private name. `Large` where there is none, exactly for the line
/// with whose output the text goes above a limit of inputs. `OutOfMemory` where memory runs out, and for `MOST_LINES`
/// lines or more.
pub fn expand_with<E: Expansion + Drop>(
    alloc: Global,
    keys: Keys,
    profile: Profile,
    expansion: E,
    head: &Value,
    lines: &[LineTree],
) -> Result<Vec<u8>, ExpandError>
    requires { E.is_behind profile expansion [] }
    ensures { IsExpanded (E.rules profile) (view head.now) (map tree_told lines.now) result }
{
    if lines.len() >= MOST_LINES {
        return Err(ExpandError::OutOfMemory);
    }
    if let Some(line) = first_use(alloc, profile, expansion.prefix(), lines)? {
        return Err(ExpandError::Private { line });
    }
    grown_text(alloc, keys, profile, expansion, head, lines)
}

// The text of lines of which none uses a private name.
fn grown_text<E: Expansion + Drop>(
    alloc: Global,
    keys: Keys,
    profile: Profile,
    expansion: E,
    head: &Value,
    lines: &[LineTree],
) -> Result<Vec<u8>, ExpandError>
    requires behind { E.is_behind profile expansion [] }
    requires few { length lines.now < MOST_LINES }
    requires unused { first_use (E.rules profile).guard.profile (E.rules profile).prefix (map tree_told lines.now) ≡ None }
    ensures { IsExpanded (E.rules profile) (view head.now) (map tree_told lines.now) result }
{
    let mut expansion = expansion;
    let mut text = TextSoFar::new(alloc);
    if !text.push(alloc, head)? {
        return Err(ExpandError::Large { line: 1 });
    }
    let mut numbers = Numbers::new(alloc, keys);
    for (index, line) in lines.iter().enumerate() {
        let at = index as u32 + 2;
        let has_room = push_line(
            alloc,
            profile,
            &mut expansion,
            &mut numbers,
            &mut text,
            at,
            line,
        )?;
        if !has_room {
            return Err(ExpandError::Large { line: at });
        }
    }
    Ok(text.bytes)
}

// Appends what the next line gives to the text, and returns whether it had room there.
fn push_line<E: Expansion>(
    alloc: Global,
    profile: Profile,
    expansion: &mut E,
    numbers: &mut Numbers,
    text: &mut TextSoFar,
    at: u32,
    line: &LineTree,
) -> Result<bool, AllocError>
    ensures text { GrowsBy (E.rules profile) (E.is_behind profile) expansion.old numbers.old at (tree_told line.now)
        text.old text.new result }
    ensures numbers { OnOk result (TakesUpLine (E.rules profile).guard (tree_told line.now) numbers.old numbers.new) }
    ensures behind { StepsBehind (E.rules profile) (E.is_behind profile) expansion.old expansion.new numbers.old
        (tree_told line.now) result }
{
    let tree = line.read(alloc)?;
    let event = read_event(alloc, profile, &tree)?;
    push_read(alloc, profile, expansion, numbers, text, at, &tree, &event)
}

// The same, of a line that is read as this event.
fn push_read<E: Expansion>(
    alloc: Global,
    profile: Profile,
    expansion: &mut E,
    numbers: &mut Numbers,
    text: &mut TextSoFar,
    at: u32,
    line: &Value,
    event: &Option<Event>,
) -> Result<bool, AllocError>
    requires { event.now ≡ event_of (E.rules profile).guard.profile (view line.now) }
    ensures text { GrowsBy (E.rules profile) (E.is_behind profile) expansion.old numbers.old at (view line.now)
        text.old text.new result }
    ensures numbers { OnOk result (TakesUpLine (E.rules profile).guard (view line.now) numbers.old numbers.new) }
    ensures behind { StepsBehind (E.rules profile) (E.is_behind profile) expansion.old expansion.new numbers.old
        (view line.now) result }
{
    let places = places_in(alloc, profile, expansion, numbers, line, event)?;
    let due = expansion.due(alloc, profile, line, event, numbers, places.as_slice())?;
    let has_room = push_written(
        alloc,
        profile,
        expansion,
        text,
        line,
        event,
        places.as_slice(),
    )?;
    if !has_room {
        return Ok(false);
    }
    push_due(alloc, expansion.prefix(), expansion.nonce(), text, at, due)
}

// Appends a line itself to the text, where it is written, by the places of its keys.
fn push_written<E: Expansion>(
    alloc: Global,
    profile: Profile,
    expansion: &E,
    text: &mut TextSoFar,
    line: &Value,
    event: &Option<Event>,
    places: &[Option<usize>],
) -> Result<bool, AllocError>
    requires event { event.now ≡ event_of (E.rules profile).guard.profile (view line.now) }
    requires places { length places.now ≡ length (clusters_in (E.rules profile).guard.profile (view line.now)) }
    ensures { Pushes text.old text.new result (placed_lines (E.rules profile) (view line.now) places.now) }
{
    if !expansion.is_written(line) {
        return Ok(true);
    }
    match waiting_value(alloc, expansion.prefix(), line, event, places)? {
        Some(waiting) => text.push(alloc, &waiting),
        None => text.push(alloc, line),
    }
}

// Appends the line that follows line `at` to the text, where some are due.
fn push_due(
    alloc: Global,
    prefix: &str,
    nonce: &str,
    text: &mut TextSoFar,
    at: u32,
    due: Vec<Due>,
) -> Result<bool, AllocError>
    ensures { Pushes text.old text.new result (lines_due prefix.now nonce.now at (map due_shown due.items)) }
{
    if due.len() == 0 {
        return Ok(true);
    }
    let following = following_value(alloc, prefix, nonce, at, due)?;
    text.push(alloc, &following)
}
