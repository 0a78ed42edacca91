//! The proxy: what its managers know and what holds generations. Each event is one step of the flat machine; it is
//! matched here, once.
//!
//! The managers and what holds generations meet here and nowhere below: a step of the managers reports by number what
//! it moved, and the proxy notes what retired among those that drain, and keeps the numbers of which a picture may
//! show something else than the last one, each once. A publication looks at these alone: that nothing else changed is
//! part of `IsAt` (`IsShownBut`).
#![tactic(auto)]

mod changed;
mod changing;
mod noting;
mod proxy;
mod steps;

pub use changed::Changed;
pub use proxy::Proxy;
