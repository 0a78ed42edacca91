//! All that is known: the managers, the subscription, how far the proxy has booted. Each event is one step of the
//! flat machine, by a function of its own.
//!
//! What is asked for isn't kept: it is what is watched. An event reports how many numbers were allocated before it and
//! which generations it retired, and from these the names are found that began and ceased to be watched: those that
//! only new generations hold, and those that only retired ones held. What a picture may show anew is found from what
//! the event brought: a number that is reported may be one of which nothing changed, and none of which something
//! changed is left out.
//!
//! How far the proxy has booted, as Envoy's init manager knows it: the names that the first response of clusters, and
//! of listeners, made generations for are its init targets. Which of these wait isn't counted, since a count would have
//! to be moved at every arrival, promotion and retirement; a name that was seen waiting is asked first, so no event
//! looks at all of them.
#![tactic(auto)]

mod asked;
mod changed;
mod first;
mod init_targets;
mod known;
mod reads;
mod remove;
mod response;
mod signals;
mod state;
mod stream;
mod timeouts;

pub use init_targets::InitTargets;
pub use state::State;
