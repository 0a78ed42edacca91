//! Laws of runs, by the script of the incremental protocol that is written for one of the state
//! of the world. No code that runs.
//!
//! # Choices
//!
//! - They are said of every run, in both formats, and not of the replay alone.
//! - That requests list what is watched is said of each place where a stream is open:
//!   while none is open, nothing is listed.

ghost use Rattle.ev_sotw_delta.specs.SameWorld.{SameWorld};
ghost use Rattle.ev_sotw_delta.specs.Watches.{RequestsTellWatches};

/// A law of every run of a state-of-the-world script: after an answered response of clusters or listeners each live
/// generation of that kind has a name that is in the response, a response of another type leaves the value of each
/// watched name that it doesn't name, and requests list all names that are watched. It does nothing.
pub fn same_world()
    ensures { SameWorld }
{}

/// A law of every run, in both formats: while a stream is open, the names of a type that the entries so far ask for,
/// and don't give up, are those that are watched, in the order of their bytes. It does nothing.
pub fn requests_tell_watches()
    ensures { RequestsTellWatches }
{}
