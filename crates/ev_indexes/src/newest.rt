//! What verdicts ask of a name. They ask by texts, of which not each is a name,
//! so the maps by kind and name are asked by a key that borrows the text (`KeyText`).

ghost use Rattle.std.specs.Prelude.{◌≡◌, ◌||◌, not, is_some};
ghost use Rattle.ev_model.specs.Live.{lives_of, newest_of};
ghost use Rattle.ev_model.specs.Phase.{has_come};
ghost use Rattle.ev_lookups.specs.Keys.{named};
ghost use Rattle.ev_indexes.specs.Indexes.{IsIndexed};
ghost use Rattle.ev_indexes.specs.Newest.{later_number, newest_in, found_in};
ghost use Rattle.ev_indexes.specs.Worlds.{InWorlds};
ghost use Rattle.ev_indexes.specs.Reads.{has_come_in};

use crate::{Generations, Standing, State};
use ev_lookups::LiveRow;
use ev_types::{Gen, Kind};

impl State {
    /// The newest live generation of a name of a kind. It costs a look-up of the name,
    /// and one of the generation where one is live.
    pub fn newest(&self, kind: Kind, name: &str) -> Option<LiveRow<'_>>
        requires indexed { IsIndexed self.now }
        ensures rows { result ≡ newest_in self.now.table.rows (named kind name.now) }
        ensures world { InWorlds self.now (λ world. result ≡ newest_of (lives_of world) kind name.now) }
    {
        live_row_of(&self.table, later(self.names.standing_of(kind, name)))
    }

    /// Whether nothing is waited for under the name: it serves, or nothing of it is live.
    /// It costs a look-up of the name.
    pub fn has_come(&self, kind: Kind, name: &str) -> bool
        requires indexed { IsIndexed self.now }
        ensures rows { result ≡ has_come_in self.now.table.rows (named kind name.now) }
        ensures world { InWorlds self.now (λ world. result ≡ has_come world.rows kind name.now) }
    {
        is_settled(self.names.standing_of(kind, name))
    }
}

// Whether one serves, or none warms.
fn is_settled(standing: Standing) -> bool
    ensures { result ≡ (is_some standing.active || not (is_some standing.warming)) }
{
    standing.active.is_some() || standing.warming.is_none()
}

// The greater of the two numbers, where there are two.
fn later(standing: Standing) -> Option<Gen>
    ensures { result ≡ later_number standing }
{
    let Some(active) = standing.active else {
        return standing.warming;
    };
    match standing.warming {
        Some(warming) if active < warming => Some(warming),
        _ => Some(active),
    }
}

/// What is seen of the generation of this number, where there is one. It costs a look-up.
pub fn live_row_of(table: &Generations, number: Option<Gen>) -> Option<LiveRow<'_>>
    ensures row { result ≡ found_in table.now.rows number }
{
    let row = table.get(number?)?;
    Some(LiveRow {
        kind: row.kind,
        number: row.number,
        name: row.name.as_str(),
        content: &row.content,
        warming: row.status.is_warming(),
    })
}
