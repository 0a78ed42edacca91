//! Which names generations ceased or began to depend on, by the generations that changed alone.

ghost use Rattle.std.specs.Prelude.{◌≡◌, ◌<◌, ◌++◌, [], ◌∷◌, length, option_to_list, IfOk, OnOk};
ghost use Rattle.ev_model.specs.Watching.{names_awaited};
ghost use Rattle.ev_lookups.specs.Keys.{named};
ghost use Rattle.ev_indexes.specs.Indexes.{IsIndexed};
ghost use Rattle.ev_indexes.specs.Moved.{is_held, free_names, free_needs, needs_lost, needs_gained, names_lost, names_gained};

use crate::watched::sort;
use crate::{Need, Needs, State};
use ev_types::{Content, Gen, Kind, Name, Seq, TryCopy};
use std::alloc::{AllocError, Global};

impl State {
    /// The names of a kind that these retired generations depended on and no live generation up
    /// to the number `made` does, in the order of their bytes, each once;
    /// of generations after that number nothing is said. It looks at these generations alone.
    pub fn names_lost(
        &self,
        alloc: Global,
        kind: Kind,
        made: u32,
        retired: &[Gen],
    ) -> Result<Seq<Name>, AllocError>
        requires indexed { IsIndexed self.now }
        ensures { IfOk result (λ names. names ≡ names_lost kind made self.now.table.rows retired.now) }
    {
        let mut names = Vec::new(alloc);
        for number in retired {
            self.push_lost(alloc, kind, made, *number, &mut names)?;
        }
        sort(&mut names);
        Ok(Seq::from_vec(names))
    }

    /// The names of a kind that live generations after the number `made` depend on and no live one up to it does,
    /// in the order of their bytes, each once. It looks at the generations after that number alone.
    pub fn names_gained(
        &self,
        alloc: Global,
        kind: Kind,
        made: u32,
    ) -> Result<Seq<Name>, AllocError>
        requires indexed { IsIndexed self.now }
        ensures { IfOk result (λ names. names ≡ names_gained kind made self.now.table.made self.now.table.rows) }
    {
        let mut names = Vec::new(alloc);
        for number in made..self.table.made() {
            self.push_gained(alloc, kind, made, Gen::new(number + 1), &mut names)?;
        }
        sort(&mut names);
        Ok(Seq::from_vec(names))
    }

    // Puts to the others the names of a kind that a generation up to the number `made` leaves.
    fn push_lost(
        &self,
        alloc: Global,
        kind: Kind,
        made: u32,
        number: Gen,
        names: &mut Vec<Name>,
    ) -> Result<(), AllocError>
        requires indexed { IsIndexed self.now }
        ensures { OnOk result (names.new.items ≡ names.old.items ++ needs_lost kind made self.now.table.rows number) }
    {
        if number.number() > made {
            return Ok(());
        }
        match self.table.get(number) {
            Some(row) => self.push_free(alloc, kind, made, &row.content, names),
            None => Ok(()),
        }
    }

    // Puts to the others the names of a kind that a live generation brings.
    fn push_gained(
        &self,
        alloc: Global,
        kind: Kind,
        made: u32,
        number: Gen,
        names: &mut Vec<Name>,
    ) -> Result<(), AllocError>
        requires indexed { IsIndexed self.now }
        ensures { OnOk result (names.new.items ≡ names.old.items ++ needs_gained kind made self.now.table.rows number) }
    {
        match self.table.get(number) {
            Some(row) if row.status.is_live() => {
                self.push_free(alloc, kind, made, &row.content, names)
            }
            _ => Ok(()),
        }
    }

    // Puts to the others the names of a kind that a generation of this content depends on and no live one up
    // to the number `made` does.
    fn push_free(
        &self,
        alloc: Global,
        kind: Kind,
        made: u32,
        content: &Content,
        names: &mut Vec<Name>,
    ) -> Result<(), AllocError>
        requires indexed { IsIndexed self.now }
        ensures { OnOk result (names.new.items ≡ names.old.items ++ free_needs kind made self.now.table.rows content.now) }
    {
        let mut needs = Needs::of(content);
        while let Some(need) = needs.next() {
            self.push_free_need(alloc, kind, made, &need, names)?;
        }
        Ok(())
    }

    // The same of one name that it depends on, where it is of the kind.
    fn push_free_need(
        &self,
        alloc: Global,
        kind: Kind,
        made: u32,
        need: &Need<'_>,
        names: &mut Vec<Name>,
    ) -> Result<(), AllocError>
        requires indexed { IsIndexed self.now }
        ensures { OnOk result (names.new.items ≡ names.old.items
            ++ free_names kind made self.now.table.rows (names_awaited kind (need.now ∷ []))) }
    {
        if need.kind.is(kind) {
            self.push_name(alloc, kind, made, need.name, names)?;
        }
        Ok(())
    }

    // Puts a name of a kind to the others, where no live generation up to the number `made` depends on it.
    fn push_name(
        &self,
        alloc: Global,
        kind: Kind,
        made: u32,
        name: &Name,
        names: &mut Vec<Name>,
    ) -> Result<(), AllocError>
        requires indexed { IsIndexed self.now }
        ensures { OnOk result (names.new.items ≡ names.old.items ++ free_names kind made self.now.table.rows (name.now ∷ [])) }
    {
        if !self.is_held(kind, made, name) {
            names.push(name.copy(alloc)?)?;
        }
        Ok(())
    }

    // Whether a live generation up to the number `made` depends on a name of a kind.
    fn is_held(&self, kind: Kind, made: u32, name: &Name) -> bool
        requires indexed { IsIndexed self.now }
        ensures { result ≡ is_held made self.now.table.rows (named kind name.now) }
    {
        match self.watches.get(kind, name) {
            Some(watch) => watch.unlimited.has_up_to(made) || watch.limited.has_up_to(made),
            None => false,
        }
    }
}
