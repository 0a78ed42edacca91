//! The hosts of a cluster that may be chosen: a shared assignment and a mark for each of its rows.
//!
//! # Choices
//!
//! - A served cluster shares the assignment that it was made of, and says by one bit a row which hosts may be chosen:
//!   so a publication after a health result takes a word for 64 hosts, and not a copy of them.
//! - Contracts see the chosen rows as a list. The marks are seen only where they are made.
//! - What a choice needs, the lowest priority and the sum of the weights at it, is found at the choice, by walks over
//!   the rows: a publication would have to find it anew for each health result.
#![tactic(auto)]

mod chosen;
mod marks;
mod shown;
mod walks;

pub use chosen::ChosenHosts;
pub use marks::Marks;
pub use shown::ShownCluster;
