ghost use Rattle.std.specs.Prelude.{◌≡◌, ◌<◌, true, length, map, option_map, slice_get, IfOk};
ghost use Rattle.std.specs.Option.{option_copied};
ghost use Rattle.ev_types.specs.Hosts.{HostRowParts};
ghost use Rattle.ev_types.specs.declared.limits.TheConstants.{ROW_LIMIT};
ghost use Rattle.ev_model.specs.Choice.{host_place};
ghost use Rattle.ev_hosts.specs.Chosen.{chosen_by};

use crate::marks::Marks;
use crate::walks::{are_same, host_at, lowest_priority, place_above, weight_sum};
use ev_types::{Assignment, Host, HostRow, Seq, Shared, TryCopy};
use std::alloc::{AllocError, Global};
use std::marker::Model;

/// The hosts of a cluster that may be chosen, in the order of its assignment:
/// the assignment, which is shared, and a mark for each of its rows. Contracts see the rows that are marked.
#[derive(Drop)]
pub struct ChosenHosts {
    rows: Shared<Assignment>,
    marks: Marks,
}

impl Model for ChosenHosts {
    ghost use Rattle.std.specs.Prelude.{◌≡◌, List, length};
    ghost use Rattle.ev_types.specs.Hosts.{HostRowParts};
    ghost use Rattle.ev_hosts.specs.Chosen.{chosen_by};

    ghost Value = { List HostRowParts };

    ghost view = { λ c. chosen_by c.marks c.rows };

    ghost invariant = { λ c. length c.marks ≡ length c.rows };
}

impl ChosenHosts {
    /// The rows that are marked. It takes no memory.
    pub fn new(rows: Shared<Assignment>, marks: Marks) -> ChosenHosts
        requires { length marks ≡ length rows }
        ensures { result ≡ chosen_by marks rows }
    {
        ChosenHosts { rows, marks }
    }

    /// All of these rows.
    pub fn listed(alloc: Global, rows: Seq<HostRow>) -> Result<ChosenHosts, AllocError>
        requires { length rows < ROW_LIMIT }
        ensures { IfOk result (λ hosts. hosts ≡ rows) }
    {
        let marks = all_marked(alloc, rows.as_slice())?;
        Ok(ChosenHosts::new(Shared::new(alloc, Assignment::new(rows))?, marks))
    }

    /// The host at a place, if there is one.
    pub fn host(&self, place: u32) -> Option<&Host>
        ensures { option_copied result ≡ option_map (λ (r : HostRowParts). r.host) (slice_get self.now place) }
    {
        host_at(self.rows.get().rows(), &self.marks, place)
    }

    /// The place of the host that a pick takes: the first of the lowest priority where the sum
    /// of the first weights is above the pick modulo the whole sum. There is none where there is no host.
    pub fn host_place(&self, pick: u64) -> Option<u32>
        ensures { result ≡ host_place self.now pick }
    {
        let rows = self.rows.get().rows();
        let Some(priority) = lowest_priority(rows, &self.marks) else {
            return None;
        };
        let sum = weight_sum(rows, &self.marks, priority);
        place_above(rows, &self.marks, priority, pick % sum)
    }
}

// A mark that is set for each of these rows.
fn all_marked(alloc: Global, rows: &[HostRow]) -> Result<Marks, AllocError>
    ensures { IfOk result (λ marks. marks ≡ map (λ (r : HostRowParts). true) rows.now) }
{
    let mut marks = Marks::new(alloc);
    for _row in rows {
        marks.push(true)?;
    }
    Ok(marks)
}

impl TryCopy for ChosenHosts {
    fn copy(&self, alloc: Global) -> Result<ChosenHosts, AllocError> {
        Ok(ChosenHosts {
            rows: self.rows.share()?,
            marks: self.marks.copy(alloc)?,
        })
    }
}

impl PartialEq for ChosenHosts {
    ghost use Rattle.std.specs.Cmp.{decided, partial_equiv_from_equiv};
    ghost use Rattle.ev_types.specs.SameHosts.{rows_same, rows_decide};

    ghost eq = { rows_same };

    ghost laws = { partial_equiv_from_equiv (decided rows_same rows_decide) };

    fn eq(&self, other: &ChosenHosts) -> bool {
        are_same(
            self.rows.get().rows(),
            &self.marks,
            other.rows.get().rows(),
            &other.marks,
        )
    }
}

impl Eq for ChosenHosts {
    ghost use Rattle.std.specs.Cmp.{decided};
    ghost use Rattle.ev_types.specs.SameHosts.{rows_same, rows_decide};

    ghost laws = { decided rows_same rows_decide };
}
