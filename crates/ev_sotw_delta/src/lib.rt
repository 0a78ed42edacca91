//! The command `sotw`: the script of the incremental protocol that says what a script of the state
//! of the world says, as text, and the laws that its runs are the same world and that the requests
//! of such a run list what is watched.
//!
//! - A line of the text that a reader wouldn't take, since it nests too deep,
//!   or for which there is no room within the limits of inputs, is reported at once.
//!   So the text is a script without fault, of lines at the places of those that were read.
//! - Every line's depth is looked at, also that of lines that stay. A response alone gets deeper, by one.
//! - That the text is a script without fault follows from the input's having none, line by line:
//!   so the call asks that the trees were read of some input without fault, which the reader of trees says.
#![tactic(auto)]

mod laws;
mod outcome;
mod writing;

pub use laws::{requests_tell_watches, same_world};
pub use outcome::DeltaError;
pub use writing::{Delta, to_delta};
