//! Laws of the flat machine: of its definitions, of its runs, of what the main side does in a run, and of walks over
//! the lines of journals. Each function does nothing, and its contract is a law.
//!
//! # Choices
//!
//! - What one event does is said of every world, and not of the worlds of runs alone.
//! - A name keeps its value wherever it is watched after the event:
//!   whether it was watched before doesn't matter, since nothing is kept of a name that isn't.
//! - The walk's place is a number, and nothing is found before it (`NothingFound`):
//!   so each law speaks of the rows as they are, and what a row adds is one place more.
//! - What comes next for a row is said with what comes before it and after it (`ComesNext`),
//!   so that what is left after the row's entry is a part of what was left before it,
//!   and each operation is passed once.
//! - The numbers of generations suffice as long as nothing is found,
//!   since the resources that were entered are the script's, each once.
//!   An audit of a journal that isn't the script's never gets to an entry for which they don't.
#![tactic(auto)]

mod acknowledging;
mod by_number;
mod drawing;
mod in_use;
mod legal_findings;
mod main_side;
mod narrowing;
mod nothing_done;
mod numbers;
mod one_a_name;
mod one_replay;
mod phase_forward;
mod run_laws;
mod tidying;
mod told;
mod versions_kept;
mod walks;
mod watches;

pub use acknowledging::acknowledges_exactly;
pub use by_number::rows_stand_by_number;
pub use drawing::numbers_are_drawn_for_resources;
pub use in_use::{open_connections_were_opened, use_nothing_that_was_reaped};
pub use legal_findings::legal_exactly;
pub use main_side::{main_side_holds, stream_follows};
pub use narrowing::one_chain_is_left;
pub use nothing_done::nothing_done_leaves_the_world;
pub use numbers::numbers_are_drawn_once;
pub use one_a_name::one_warms_and_one_serves;
pub use one_replay::{
    has_a_replay, has_one_replay, replay_holds_operations, replay_is_a_run_of_its_script,
};
pub use phase_forward::phase_never_goes_back;
pub use run_laws::{
    chains_that_stay_keep_connections, connections_go_to_warmed_generations,
    drained_listeners_have_waited, generations_are_reaped_once, moves_keep_the_chain,
    reaped_generations_are_unused, refused_updates_take_nothing_away, responses_are_acknowledged,
    runs_have_the_laws, runs_keep_their_parts, snapshots_never_go_back,
};
pub use tidying::tidies_once;
pub use told::{kept_is_value, told_stays};
pub use versions_kept::versions_are_kept_once;
pub use walks::{finds_strays, finds_the_first, goes_on, moves_on, numbers_last, takes_next};
pub use watches::{live_are_named, watches_begin_with_new};
