use ev_tree::BrokenRules;
use ev_types::HostRow;

/// What was found of an assignment so far: its rows, and which rules it breaks.
#[derive(Drop)]
pub struct Tally {
    pub rows: Vec<HostRow>,
    pub broken: BrokenRules,
}
