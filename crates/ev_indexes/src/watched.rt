ghost use Rattle.std.specs.Prelude.{◌≡◌, ◌<◌, ◌++◌, [], ◌∷◌, length, option_to_list, IfOk, OnOk};
ghost use Rattle.ev_model.specs.Watching.{names_awaited, watched_of, sorted_names};
ghost use Rattle.ev_indexes.specs.Needs.{needs_of};
ghost use Rattle.ev_indexes.specs.Reads.{names_needed, names_watched};
ghost use Rattle.ev_indexes.specs.Worlds.{InWorlds};

use crate::{Generations, Need, Needs, State};
use ev_types::{Content, GenRow, Kind, Name, Seq, TryCopy};
use std::alloc::{AllocError, Global};

impl State {
    /// The names of a kind that live generations depend on, in the order of their bytes, each once.
    /// It goes over the whole table.
    pub fn watched(&self, alloc: Global, kind: Kind) -> Result<Seq<Name>, AllocError>
        ensures rows { IfOk result (λ names. names ≡ names_watched kind self.now.table.rows) }
        ensures world { IfOk result (λ names. InWorlds self.now (λ world. names ≡ watched_of world kind)) }
    {
        let mut names = needs(alloc, kind, &self.table)?;
        sort(&mut names);
        Ok(Seq::from_vec(names))
    }
}

// The names of a kind that live rows of a table depend on.
fn needs(alloc: Global, kind: Kind, table: &Generations) -> Result<Vec<Name>, AllocError>
    ensures { IfOk result (λ names. names.items ≡ names_needed kind table.now.rows) }
{
    let mut names = Vec::new(alloc);
    for row in table.rows() {
        push_needs_of(alloc, kind, row, &mut names)?;
    }
    Ok(names)
}

// Puts the names of a kind that a row depends on to the others, where it is live.
fn push_needs_of(
    alloc: Global,
    kind: Kind,
    row: &GenRow,
    names: &mut Vec<Name>,
) -> Result<(), AllocError>
    ensures { OnOk result (names.new.items ≡ names.old.items ++ names_needed kind (row.now ∷ [])) }
{
    if row.status.is_live() {
        push_needs(alloc, kind, &row.content, names)?;
    }
    Ok(())
}

// Puts the names of a kind that a generation of this content depends on to the others.
fn push_needs(
    alloc: Global,
    kind: Kind,
    content: &Content,
    names: &mut Vec<Name>,
) -> Result<(), AllocError>
    ensures { OnOk result (names.new.items ≡ names.old.items ++ names_awaited kind (needs_of content.now)) }
{
    let mut needs = Needs::of(content);
    while let Some(need) = needs.next() {
        push_need(alloc, kind, &need, names)?;
    }
    Ok(())
}

// Puts a name that it depends on to the others, where it is of the kind.
fn push_need(
    alloc: Global,
    kind: Kind,
    need: &Need<'_>,
    names: &mut Vec<Name>,
) -> Result<(), AllocError>
    ensures { OnOk result (names.new.items ≡ names.old.items ++ names_awaited kind (need.now ∷ [])) }
{
    if need.kind.is(kind) {
        names.push(need.name.copy(alloc)?)?;
    }
    Ok(())
}

// Sorts names, and leaves each once.
pub(crate) fn sort(names: &mut Vec<Name>)
    ensures { names.new.items ≡ sorted_names names.old.items }
{
    names.sort_unstable_by(|one, other| one.as_str().cmp(other.as_str()));
    names.dedup();
}
