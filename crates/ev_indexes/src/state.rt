ghost use Rattle.std.specs.Prelude.{◌≡◌, ◌<◌, ℕ, List};
ghost use Rattle.ev_model.specs.World.{opening};
ghost use Rattle.ev_indexes.specs.Worlds.{HasRows};
ghost use Rattle.ev_indexes.specs.Indexes.{IsIndexed};

use crate::{Addresses, Due, Endpoints, Generations, Names, Watches};
use ev_keys::Keys;
use std::alloc::Global;

/// The table of the generations, clusters and listeners, with its indexes.
#[derive(Drop)]
pub struct State {
    pub table: Generations,
    pub names: Names,
    pub watches: Watches,
    pub addresses: Addresses,
    pub results: Endpoints,
    pub due: Due,
}

impl State {
    /// No generation, and nothing known. Its tables by names, addresses and hosts hash by these keys. It takes no
    /// memory, and represents every world in which nothing happened.
    pub fn new(alloc: Global, keys: Keys) -> State
        ensures indexed { IsIndexed result }
        ensures made { result.table.made ≡ 0 }
        ensures stands { (workers : ℕ) (node : List ℕ) → HasRows result (opening workers node) }
    {
        State {
            table: Generations::new(alloc),
            names: Names::new(alloc, keys),
            watches: Watches::new(alloc, keys),
            addresses: Addresses::new(alloc, keys),
            results: Endpoints::new(alloc, keys),
            due: Due::new(alloc),
        }
    }
}
