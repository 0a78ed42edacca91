//! Both managers together: what clusters and listeners are live, which wait for which names, and what is due. A kind is
//! a value: each change is one function, over a kind, which is one of generations or one that is asked for by name.
#![tactic(auto)]

mod health;
mod managers;
mod moved;
mod response;
mod signals;

pub use managers::Managers;
pub use moved::Moved;
