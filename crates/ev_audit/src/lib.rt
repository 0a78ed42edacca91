//! The audit: what is found of a journal's rows, held against their script.
//!
//! # Choices
//!
//! - One walk over the rows, by a proxy of its own: it makes the step of each row
//!   and compares the answers. A registry can't do this, since its journal is a run,
//!   which ends in no open batch, and it copies.
//! - A row has its event's word alone, so the event is that of the operation that the row records:
//!   of the script's line, or a publication, a reaping or a settle.
//! - A row is looked at in this order: whether it is the script's, whether it breaks into a batch,
//!   how it is answered. The first place where anything is wrong ends the walk,
//!   so that the proxy never takes a step that the journal may not have.
//! - Each row costs its step, and each operation is passed once.
//!   But a reaping by the rules of format 1 goes over all that drain.
#![tactic(auto)]

mod audits;
mod steps;
mod text;
mod walk;

pub use audits::audit;
pub use text::write_finding;
