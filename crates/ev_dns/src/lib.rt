//! Clusters whose hosts are resolved names: a script in which each cluster of the type STRICT_DNS waits for endpoints
//! by a private name, which are sent when each of its host names was answered, with the addresses of the last
//! answers.
//!
//! - Resolutions count on a closed stream too: they are no part of it. A failed one answers its name, and keeps the
//!   last success. Their lines aren't written, also where they are of a wrong form: an input of the command has no
//!   such line.
//! - Host names compare byte for byte. An address in place of a host name waits for its resolution like any name.
//! - A template is the cluster as it is read with the type STATIC: so its hosts, and what else tells two templates
//!   apart, are those of the shared reader of clusters. Its body's text and its secrets tell none apart, and each
//!   cluster keeps its own secrets.
//! - A cluster with a custom type, or with a host that isn't at a socket address, is no template: as Envoy reads it,
//!   it is found elsewhere, or its host needs no resolution.
//! - Each place that isn't complete is under the first host name that it still waits for, so a resolution wakes the
//!   places alone that wait for its name. The complete ones are under all their host names.
//!
//! `resolve` is the command: of the trees of a script's lines and resolutions the text of a script in which clusters
//! wait for the addresses of their hosts. With it stands the law that what its runs know of them is what the last
//! answers say.
//!
//! # Choices
//!
//! - The text is made by `expand`; that it is a script is a law of `ev_expand`, whose premises are proved
//!   here: what is written of the trees that were read is a line of a script, and endpoints of hosts nest by a
//!   constant.
#![tactic(auto)]

mod answers;
mod complete;
mod hosts;
mod laws;
mod lines;
mod looking;
mod names;
mod places;
mod resolutions;
mod resolving;
mod sockets;
mod templates;
mod touching;
mod waiting;

pub use laws::answers_are_last;
pub use lines::{Resolution, ResolvedOperation, resolution_in, script_lines_are_written};
pub use resolutions::expand;
pub use resolving::resolve;
