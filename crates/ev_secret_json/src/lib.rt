//! Secrets and extensions out of JSON, and the references to them: what clusters and listeners wait for by name beside
//! endpoints and routes. All of it is read as Envoy reads it; this project's own rules read none of it.
//!
//! # Choices
//!
//! - A part's references and the rules that it breaks are one value, `References`, here and in the definitions: a part
//!   made of others joins theirs, in the order in which a resource depends on them.
//! - A reference whose name is no name breaks V2, so it isn't in the list; the list counts where no rule is broken.
//! - A transport socket that holds another is looked into, and the one that it holds isn't looked into again.
//! - A secret and an extension have no value of their own: a name has one or hasn't.
#![tactic(auto)]

mod extensions;
mod referring;
mod resources;
mod secret_configs;
mod tls_contexts;
mod transport_sockets;

pub use extensions::{find_extension, find_extensions};
pub use referring::{References, join_references, no_references, wrong_form};
pub use resources::{extension_rule_is_least, read_extension, read_secret, secret_rule_is_least};
pub use transport_sockets::find_transport_secrets;
