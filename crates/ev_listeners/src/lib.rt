//! The listeners of a picture: how one is found by the end of a connection, by where a chain began, by name and by
//! number.
//!
//! # Choices
//!
//! - Contracts see a listener with its tables as the listener, and all of them as the list in the order of names.
//! - Listeners at one address are in a group, in the order of names, so that pictures with several at one address
//!   have a meaning, and the first takes the connections. The rules of listeners are made so that no two that serve
//!   have one address, and then a group has one; that isn't proved, and nothing rests on it but the time.
//! - A listener that takes every address is found by its address like others, under `0.0.0.0` or `::`, where no
//!   listener has the address itself: at most three look-ups, however many listeners there are.
//! - A connection moves to the listener that has its chain, when a listener is changed in place. That one is found by
//!   where the chain began: each listener is in the group of each of its chains. So a settle looks a connection up
//!   and walks no listener, and a publication changes the groups of the chains of those listeners that it changes.
//!   That no two listeners that serve have a chain of one origin isn't proved here either: the first in the order of
//!   names has it. A listener with two chains of one origin is in their group once.
//! - The chains of a listener are shared part by part: what a chain asks for with the resource that brought it, its
//!   routing with its tables with the chain of the listener of that name before that began where it did, or else with
//!   the one in its place, or with the chain that it comes after, where that is the same. So a publication makes
//!   tables for those routes alone that changed, also where a chain before them comes or goes. Chains of one listener
//!   that don't follow each other share no table.
//! - Listeners change by value (`without(self, ..)`, `put(self, ..)`): out of memory, nothing is left of them, and no
//!   half-changed ones can be seen.
#![tactic(auto)]

mod address_texts;
mod addresses;
mod earlier;
mod groups;
mod listeners;
mod local_ends;
mod origins;
mod routed;
mod routed_chain;

pub use listeners::Listeners;
pub use local_ends::LocalEnd;
pub use routed::RoutedListener;
pub use routed_chain::RoutedChain;
