//! Responses of what generations depend on: of a kind that is asked for by name.

ghost use Rattle.std.specs.Prelude.{◌≡◌, true, Some, length, OnOk};
ghost use Rattle.std.specs.List.{list_any};
ghost use Rattle.ev_types.specs.Kinds.{is_by_name};
ghost use Rattle.ev_types.specs.declared.events.Verdict.TheVariants.{Kept};
ghost use Rattle.ev_types.specs.declared.rows.Arrival.TheVariants.{Value as a_value};
ghost use Rattle.ev_model.specs.Verdicts.{is_among};
ghost use Rattle.ev_model.specs.Rows.{add_item, add_items};
ghost use Rattle.ev_lookups.specs.Keys.{named};
ghost use Rattle.ev_indexes.specs.Indexes.{depends_on};
ghost use Rattle.ev_warming.specs.Managers.{IsKept};
ghost use Rattle.ev_warming.specs.Arrivals.{IsOnValue, AreOnValues, with_arrived};
ghost use Rattle.ev_warming.specs.Worlds.{Follows, with_name_absent, with_names_absent, with_removals_told, with_response, with_told};

use crate::Manager;
use ev_indexes::Steps;
use ev_lookups::Mentions;
use ev_types::{Arrival, Body, Content, Item, Kind, Name, NameError, Text, TryCopy, Verdict};
use std::alloc::{AllocError, Global};
use std::sync::ledger::Ledger;

impl Manager {
    /// A response of a kind that is asked for by name, with the verdicts on its resources: a watched name that is
    /// removed is reported as absent, unless it is a secret's; then, in order, each resource that is kept arrives, and
    /// one that is refused is reported where its name is watched. Look-ups are counted: one for each generation that
    /// depends on a name that something was received for, for each way in which it waits.
    /// Out of memory, it is unspecified.
    pub fn arrive_all<L: Ledger>(
        &mut self,
        alloc: Global,
        kind: Kind,
        mentions: &Mentions<'_>,
        verdicts: &[Verdict],
        steps: &mut Steps<L>,
    ) -> Result<(), AllocError>
        requires kept { IsKept self.old }
        requires typed { mentions.now.kind ≡ Some kind }
        requires by_name { is_by_name kind ≡ true }
        requires one_each { length verdicts.now ≡ length mentions.now.items }
        requires on_values { AreOnValues kind self.old.state.table.rows verdicts.now mentions.now.items }
        ensures kept { OnOk result (IsKept self.new) }
        ensures table { OnOk result (self.new.state.table ≡ self.old.state.table) }
        // Whatever world the manager represented, it represents that world once the response's
        // removals and resources are in.
        ensures stands { OnOk result (Follows self.old.state self.new.state
            (with_response kind verdicts.now mentions.now)) }
    {
        self.tell_removals(alloc, kind, mentions, steps)?;
        self.take_values(
            alloc,
            kind,
            mentions.response().items.as_slice(),
            verdicts,
            steps,
        )?;
        Ok(())
    }

    // Watched names that a response removes are reported. Those of secrets aren't: the secrets stay in use.
    fn tell_removals<L: Ledger>(
        &mut self,
        alloc: Global,
        kind: Kind,
        mentions: &Mentions<'_>,
        steps: &mut Steps<L>,
    ) -> Result<(), AllocError>
        requires kept { IsKept self.old }
        ensures kept { OnOk result (IsKept self.new) }
        ensures table { OnOk result (self.new.state.table ≡ self.old.state.table) }
        ensures stands { OnOk result (Follows self.old.state self.new.state
            (with_removals_told kind mentions.now)) }
    {
        if kind.is(Kind::Sds) {
            return Ok(());
        }
        self.tell_absences(alloc, kind, mentions, steps)
    }

    // Watched names that a response removes are reported, except those that a resource has.
    fn tell_absences<L: Ledger>(
        &mut self,
        alloc: Global,
        kind: Kind,
        mentions: &Mentions<'_>,
        steps: &mut Steps<L>,
    ) -> Result<(), AllocError>
        requires kept { IsKept self.old }
        ensures kept { OnOk result (IsKept self.new) }
        ensures table { OnOk result (self.new.state.table ≡ self.old.state.table) }
        ensures stands { OnOk result (Follows self.old.state self.new.state
            (with_names_absent kind mentions.now)) }
    {
        for name in mentions.response().removed.as_slice() {
            self.tell_absence(alloc, kind, mentions, name, steps)?;
        }
        Ok(())
    }

    // A name that is removed is reported, where it is watched and no resource has it.
    fn tell_absence<L: Ledger>(
        &mut self,
        alloc: Global,
        kind: Kind,
        mentions: &Mentions<'_>,
        name: &Text,
        steps: &mut Steps<L>,
    ) -> Result<(), AllocError>
        requires kept { IsKept self.old }
        requires listed { is_among name.now mentions.now.removed ≡ true }
        ensures kept { OnOk result (IsKept self.new) }
        ensures table { OnOk result (self.new.state.table ≡ self.old.state.table) }
        ensures stands { OnOk result (Follows self.old.state self.new.state
            (with_name_absent self.old.state kind mentions.now name.now)) }
    {
        if !mentions.is_removed(name.as_str()) {
            return Ok(());
        }
        self.tell(alloc, kind, name, &Arrival::Absent, steps)
    }

    // Something was received for a text, where it is a name that is watched.
    fn tell<L: Ledger>(
        &mut self,
        alloc: Global,
        kind: Kind,
        name: &Text,
        arrival: &Arrival,
        steps: &mut Steps<L>,
    ) -> Result<(), AllocError>
        requires kept { IsKept self.old }
        ensures kept { OnOk result (IsKept self.new) }
        ensures table { OnOk result (self.new.state.table ≡ self.old.state.table) }
        ensures stands { OnOk result (Follows self.old.state self.new.state
            (with_told self.old.state kind arrival.now name.now)) }
    {
        match Name::new(alloc, name.as_str()) {
            Ok(name) => self.tell_name(alloc, kind, &name, arrival, steps),
            Err(NameError::Length) => Ok(()),
            Err(NameError::OutOfMemory) => Err(AllocError),
        }
    }

    // Something was received for a name, where it is watched.
    fn tell_name<L: Ledger>(
        &mut self,
        alloc: Global,
        kind: Kind,
        name: &Name,
        arrival: &Arrival,
        steps: &mut Steps<L>,
    ) -> Result<(), AllocError>
        requires kept { IsKept self.old }
        ensures kept { OnOk result (IsKept self.new) }
        ensures table { OnOk result (self.new.state.table ≡ self.old.state.table) }
        ensures stands { OnOk result (Follows self.old.state self.new.state
            (with_told self.old.state kind arrival.now name.now)) }
    {
        if self.state.is_watched(kind, name.as_str()) {
            return self.arrive(alloc, kind, name, arrival, steps);
        }
        Ok(())
    }

    // The resources of a response come in, in order, each by its verdict.
    fn take_values<L: Ledger>(
        &mut self,
        alloc: Global,
        kind: Kind,
        items: &[Item],
        verdicts: &[Verdict],
        steps: &mut Steps<L>,
    ) -> Result<(), AllocError>
        requires kept { IsKept self.old }
        requires by_name { is_by_name kind ≡ true }
        requires one_each { length verdicts.now ≡ length items.now }
        requires on_values { AreOnValues kind self.old.state.table.rows verdicts.now items.now }
        ensures kept { OnOk result (IsKept self.new) }
        ensures table { OnOk result (self.new.state.table ≡ self.old.state.table) }
        ensures stands { OnOk result (Follows self.old.state self.new.state
            (add_items kind verdicts.now items.now)) }
    {
        for (place, item) in items.iter().enumerate() {
            self.take_value(alloc, kind, &verdicts[place], item, steps)?;
        }
        Ok(())
    }

    // One resource comes in.
    fn take_value<L: Ledger>(
        &mut self,
        alloc: Global,
        kind: Kind,
        verdict: &Verdict,
        item: &Item,
        steps: &mut Steps<L>,
    ) -> Result<(), AllocError>
        requires kept { IsKept self.old }
        requires by_name { is_by_name kind ≡ true }
        requires on_value { IsOnValue verdict.now
            (list_any (depends_on (named kind item.now.name)) self.old.state.table.rows) }
        ensures kept { OnOk result (IsKept self.new) }
        ensures table { OnOk result (self.new.state.table ≡ self.old.state.table) }
        ensures stands { OnOk result (Follows self.old.state self.new.state
            (add_item kind verdict.now item.now)) }
    {
        match verdict {
            Verdict::Kept => self.keep_value(alloc, kind, item, steps),
            Verdict::Refused(_) => self.tell(alloc, kind, &item.name, &Arrival::Bad, steps),
            _ => Ok(()),
        }
    }

    // A resource of a watched name arrives, where it has content.
    fn keep_value<L: Ledger>(
        &mut self,
        alloc: Global,
        kind: Kind,
        item: &Item,
        steps: &mut Steps<L>,
    ) -> Result<(), AllocError>
        requires kept { IsKept self.old }
        requires watched { list_any (depends_on (named kind item.now.name)) self.old.state.table.rows ≡ true }
        ensures kept { OnOk result (IsKept self.new) }
        ensures table { OnOk result (self.new.state.table ≡ self.old.state.table) }
        ensures stands { OnOk result (Follows self.old.state self.new.state
            (add_item kind Kept item.now)) }
    {
        let Body::Good(content) = &item.body else {
            return Ok(());
        };
        let name = item.resource_name(alloc)?;
        self.arrive_value(alloc, kind, &name, content, steps)
    }

    // A value arrives for a watched name.
    fn arrive_value<L: Ledger>(
        &mut self,
        alloc: Global,
        kind: Kind,
        name: &Name,
        content: &Content,
        steps: &mut Steps<L>,
    ) -> Result<(), AllocError>
        requires kept { IsKept self.old }
        requires watched { list_any (depends_on (named kind name.now)) self.old.state.table.rows ≡ true }
        ensures kept { OnOk result (IsKept self.new) }
        ensures table { OnOk result (self.new.state.table ≡ self.old.state.table) }
        ensures stands { OnOk result (Follows self.old.state self.new.state
            (with_arrived kind (a_value content.now) name.now)) }
    {
        let arrival = Arrival::Value(content.copy(alloc)?);
        self.arrive(alloc, kind, name, &arrival, steps)
    }
}
