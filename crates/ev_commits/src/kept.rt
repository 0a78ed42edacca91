ghost use Rattle.std.specs.Prelude.{◌≡◌};
ghost use Rattle.ev_commits.specs.Commits.{commits_of};
ghost use Rattle.ev_commits.specs.Seen.{began_as, version_after};

use ev_actors::Journaled;
use ev_gate::Stands;
use ev_types::{Entry, Format, Text};
use std::collections::LinkedList;

/// What a journal began as: the format whose rules it follows, its workers and its node. No value of it is made.
pub struct Began {
    pub format: Format,
    pub workers: u32,
    pub node: Text,
}

/// What the gate of a threaded run keeps. It represents the commits of the journal.
#[derive(Drop)]
pub struct Kept<J> {
    pub journaled: J,
}

impl<J: Journaled> Stands for Kept<J> {
    type Opening = Began;

    type Commit = LinkedList<Entry>;

    ghost opening = { λ k. began_as (J.shows k.journaled) };

    ghost commits = { λ k. commits_of (J.shows k.journaled).journal };

    ghost version_of = { version_after };

    fn version(&self) -> u64 {
        let _ = self.journaled.journal();
        self.journaled.latest()
    }
}
