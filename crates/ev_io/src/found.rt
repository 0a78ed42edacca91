ghost use Rattle.std.specs.Prelude.{◌≡◌, ◌+◌, ◌<◌, ◌≤◌, length, slice_index};
ghost use Rattle.ev_io.specs.declared.limits.TheConstants.{MAX_INPUT_BYTES};
ghost use Rattle.ev_io.specs.Lines.{HasNoFeed};
ghost use Rattle.ev_io.specs.Found.{Finds};

use super::faults::LineFault;
use super::limits::{MAX_INPUT_BYTES, MAX_LINE_BYTES, MAX_LINES};

/// What comes next in the bytes taken.
#[derive(Clone, Copy)]
pub(crate) enum Found {
    /// A line of this many bytes.
    Line(usize),
    /// A fault.
    Fault(LineFault),
    /// The end of the input.
    End,
}

/// What comes next in `pending`, the last of `taken` bytes, of which the first `searched` are no
/// line feeds, after `given` lines. None where more bytes are wanted.
pub(crate) fn find_next(
    pending: &[u8],
    searched: usize,
    taken: usize,
    given: u32,
    ended: bool,
) -> Option<Found>
    requires within { searched ≤ length pending.now }
    requires none { HasNoFeed pending.now searched }
    requires part { length pending.now ≤ taken }
    requires at_most { taken ≤ MAX_INPUT_BYTES + length pending.now }
    ensures { Finds taken given pending.now ended result }
{
    if pending.len() == 0 {
        return if ended { Some(Found::End) } else { None };
    }
    let room = MAX_INPUT_BYTES - (taken - pending.len());
    if given >= MAX_LINES {
        let fault = if room == 0 {
            LineFault::TooLarge
        } else {
            LineFault::TooMany
        };
        return Some(Found::Fault(fault));
    }
    let length = line_length(pending, searched);
    if room < pending.len() && room <= length && room <= MAX_LINE_BYTES {
        Some(Found::Fault(LineFault::TooLarge))
    } else if length > MAX_LINE_BYTES {
        Some(Found::Fault(LineFault::TooLong))
    } else if length < pending.len() || ended {
        Some(Found::Line(length))
    } else {
        None
    }
}

// How many bytes come before the first line feed: all where there is none.
#[tactic(auto, using(crate::proofs::LineLemmas::found_further))]
fn line_length(bytes: &[u8], searched: usize) -> usize
    requires within { searched ≤ length bytes.now }
    requires none { HasNoFeed bytes.now searched }
    ensures within { result ≤ length bytes.now }
    ensures none { HasNoFeed bytes.now result }
    ensures found { result < length bytes.now → slice_index bytes.now result ≡ 10 }
{
    searched + front_length(&bytes[searched..])
}

// The same, where nothing was searched before.
fn front_length(bytes: &[u8]) -> usize
    ensures within { result ≤ length bytes.now }
    ensures none { HasNoFeed bytes.now result }
    ensures found { result < length bytes.now → slice_index bytes.now result ≡ 10 }
{
    match bytes.iter().position(|byte| *byte == b'\n') {
        Some(place) => place,
        None => bytes.len(),
    }
}
