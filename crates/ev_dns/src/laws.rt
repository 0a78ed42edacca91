//! The last answers count: in a run of a script in which templates wait for resolutions, what is known of a
//! template's endpoints is what the last answers say, in either profile. No code that runs.
//!
//! - It is said of every run of the script that the command writes, in both formats, by one thread or by several, and
//!   of any trees.
//! - It speaks of a template by the private name of its place, where that is watched: of other names nothing is kept.
//! - It looks at the stream's entries by the last line that a line of the input gave, where they leave the stream
//!   open: within the lines of one, what is due is still on its way, and on a closed stream nothing is reported,
//!   though resolutions count.
//! - Where clusters are read as Envoy reads them a generation waits for endpoints that come since it was made: those
//!   of a template are sent anew with each of its resources, so the law speaks of each live generation.
//! - What it says of the hosts depends on the last success of each name alone, so the order in which different names
//!   are answered changes nothing in the end.

ghost use Rattle.ev_dns.specs.LastAnswers.{LastAnswers};

/// A law of every run of a script in which templates wait for resolutions: after each entry of the stream that leaves
/// it open and is its input line's last, the endpoints of a watched place have come exactly where its template is
/// complete, and are its hosts by the last answers. It does nothing.
pub fn answers_are_last()
    ensures { LastAnswers }
{}
