ghost use Rattle.std.specs.Prelude.{◌≡◌, ◌++◌, false, true, IfOk, OnOk, option_to_list};
ghost use Rattle.ev_types.specs.Kinds.{is_by_name};
ghost use Rattle.ev_types.specs.declared.rows.Arrival.TheVariants.{Ended};
ghost use Rattle.ev_model.specs.Signals.{with_end};
ghost use Rattle.ev_warming.specs.Arrivals.{with_arrived};
ghost use Rattle.ev_managers.specs.Managers.{AreManagersKept, HaveSameRows, is_watched_in, last_value, Follow, FollowEnd};
ghost use Rattle.ev_managers.specs.Moved.{AreRetired};

use crate::Managers;
use ev_indexes::{Standing, Steps};
use ev_types::{Arrival, Assignment, Content, Gen, Kind, Name, RouteTable, Seq, Shared};
use std::alloc::{AllocError, Global};
use std::sync::ledger::Ledger;

impl Managers {
    /// Something was received for a name of a kind that a live generation depends on. Out of memory, it is unspecified.
    pub fn arrive<L: Ledger>(
        &mut self,
        alloc: Global,
        kind: Kind,
        name: &Name,
        arrival: &Arrival,
        steps: &mut Steps<L>,
    ) -> Result<(), AllocError>
        requires kept { AreManagersKept self.old }
        requires watched { is_watched_in self.old kind name.now ≡ true }
        ensures kept { OnOk result (AreManagersKept self.new) }
        ensures rows { OnOk result (HaveSameRows self.old self.new) }
        ensures stands { OnOk result (Follow self.old self.new (with_arrived kind arrival.now name.now)) }
    {
        self.core.arrive(alloc, kind, name, arrival, steps)?;
        Ok(())
    }

    /// What a name of this kind represents has come to its end: a cluster or listener goes as if it were removed,
    /// endpoints or routes become none, where the name is watched, and a secret or an extension stays what it is.
    /// Answers which generations retired. Out of memory, it is unspecified.
    pub fn end<L: Ledger>(
        &mut self,
        alloc: Global,
        kind: Kind,
        name: &Name,
        steps: &mut Steps<L>,
    ) -> Result<Seq<Gen>, AllocError>
        requires kept { AreManagersKept self.old }
        ensures kept { OnOk result (AreManagersKept self.new) }
        ensures retired { IfOk result (λ retired. AreRetired retired self.old self.new) }
        // Whatever world they represented, they represent that world where the name has come to its end: one of what is
        // asked for by name is to be watched.
        ensures stands { OnOk result (FollowEnd self.old self.new kind name.now) }
    {
        if kind.is_by_name() {
            self.end_value(alloc, kind, name, steps)?;
            return Ok(Seq::new(alloc));
        }
        self.end_rows(alloc, kind, name, steps)
    }

    // A name of generations has come to its end: one that warms is dropped, and one that serves drains. Answers both.
    fn end_rows<L: Ledger>(
        &mut self,
        alloc: Global,
        kind: Kind,
        name: &Name,
        steps: &mut Steps<L>,
    ) -> Result<Seq<Gen>, AllocError>
        requires kept { AreManagersKept self.old }
        requires rows { is_by_name kind ≡ false }
        ensures kept { OnOk result (AreManagersKept self.new) }
        ensures retired { IfOk result (λ retired. AreRetired retired self.old self.new) }
        ensures stands { OnOk result (Follow self.old self.new (with_end kind name.now)) }
    {
        let ended = self.core.end(kind, name, steps)?;
        stood(alloc, ended)
    }

    // A name of what generations depend on has come to its end: where it is watched, its value is none from now on, or
    // stays, if it is a secret's or an extension's. That tells nothing.
    fn end_value<L: Ledger>(
        &mut self,
        alloc: Global,
        kind: Kind,
        name: &Name,
        steps: &mut Steps<L>,
    ) -> Result<(), AllocError>
        requires kept { AreManagersKept self.old }
        requires by_name { is_by_name kind ≡ true }
        ensures kept { OnOk result (AreManagersKept self.new) }
        ensures rows { OnOk result (HaveSameRows self.old self.new) }
        ensures stands { OnOk result (FollowEnd self.old self.new kind name.now) }
    {
        if !self.is_watched(kind, name.as_str()) {
            return Ok(());
        }
        let Some(value) = last_value(alloc, kind)? else {
            return Ok(());
        };
        self.arrive_last(alloc, kind, name, value, steps)?;
        Ok(())
    }

    // A watched name has come to its end with this value.
    fn arrive_last<L: Ledger>(
        &mut self,
        alloc: Global,
        kind: Kind,
        name: &Name,
        value: Content,
        steps: &mut Steps<L>,
    ) -> Result<(), AllocError>
        requires kept { AreManagersKept self.old }
        requires watched { is_watched_in self.old kind name.now ≡ true }
        ensures kept { OnOk result (AreManagersKept self.new) }
        ensures rows { OnOk result (HaveSameRows self.old self.new) }
        ensures stands { OnOk result (Follow self.old self.new (with_arrived kind (Ended value) name.now)) }
    {
        self.arrive(alloc, kind, name, &Arrival::Ended(value), steps)
    }
}

// What a name represents once its time to live is over: no endpoints or no routes. Others stay what they are.
fn last_value(alloc: Global, kind: Kind) -> Result<Option<Content>, AllocError>
    ensures { IfOk result (λ value. value ≡ last_value kind) }
{
    match kind {
        Kind::Eds => {
            let none = Assignment::new(Seq::new(alloc));
            Ok(Some(Content::Assignment(Shared::new(alloc, none)?)))
        }
        Kind::Rds => {
            let none = RouteTable {
                hosts: Seq::new(alloc),
            };
            Ok(Some(Content::Routes(Shared::new(alloc, none)?)))
        }
        Kind::Cds | Kind::Lds | Kind::Sds | Kind::Ecds => Ok(None),
    }
}

// The numbers of the generations that were live under a name.
fn stood(alloc: Global, standing: Standing) -> Result<Seq<Gen>, AllocError>
    ensures { IfOk result (λ numbers. numbers ≡ option_to_list standing.warming ++ option_to_list standing.active) }
{
    let mut numbers = Seq::new(alloc);
    put_one(&mut numbers, standing.warming)?;
    put_one(&mut numbers, standing.active)?;
    Ok(numbers)
}

// Adds a number to the others, where there is one.
fn put_one(numbers: &mut Seq<Gen>, number: Option<Gen>) -> Result<(), AllocError>
    ensures { OnOk result (numbers.new ≡ numbers.old ++ option_to_list number) }
{
    if let Some(number) = number {
        numbers.push(number)?;
    }
    Ok(())
}
