//! Responses of clusters or listeners. A removed name is a text of any length, and no row has one that is no name of 1
//! to 512 bytes. Whether a resource has it is looked up in the table of what the response mentions, which the verdicts
//! were made by too.

ghost use Rattle.std.specs.Prelude.{◌≡◌, ◌+◌, ◌^◌, ◌<◌, ◌≤◌, true, false, Some, All, length, IfOk, OnOk};
ghost use Rattle.ev_types.specs.Kinds.{is_by_name};
ghost use Rattle.ev_types.specs.Items.{IsBodyOf, content_kind};
ghost use Rattle.ev_model.specs.Verdicts.{is_among};
ghost use Rattle.ev_model.specs.Origins.{kept_from};
ghost use Rattle.ev_model.specs.Rows.{add_item, add_items, serving_row};
ghost use Rattle.ev_warming.specs.Arrivals.{AreOnRows, IsOnRow};
ghost use Rattle.ev_warming.specs.Managers.{IsKept};
ghost use Rattle.ev_warming.specs.Changes.{HaveRetired, TellsRetired};
ghost use Rattle.ev_warming.specs.Worlds.{Follows, with_generation, with_name_left, with_response, with_rows_ended, with_rows_left, with_rows_replaced};

use crate::Manager;
use crate::chains::kept_from;
use crate::changes::{add, drop_warming, put_one};
use ev_indexes::Steps;
use ev_lookups::Mentions;
use ev_types::{Body, Content, Gen, Item, KeptChain, Kind, Name, NameError, Seq, Text, Verdict};
use std::alloc::{AllocError, Global};
use std::sync::ledger::Ledger;

impl Manager {
    /// A response of clusters or of listeners, with the verdicts on its resources: removed generations drain, or are
    /// dropped where they warmed; then each resource that is new or in place makes a generation, in order, whose number
    /// is the next that is allocated, and one that warmed under its name is dropped; one that goes back to what serves
    /// drops the one that warms. Other resources change nothing here. Answers the numbers of those that began to drain
    /// or were dropped. Look-ups are counted, and not bounded. Out of memory, it is unspecified.
    pub fn apply<L: Ledger>(
        &mut self,
        alloc: Global,
        kind: Kind,
        mentions: &Mentions<'_>,
        verdicts: &[Verdict],
        steps: &mut Steps<L>,
    ) -> Result<Seq<Gen>, AllocError>
        requires kept { IsKept self.old }
        requires typed { mentions.now.kind ≡ Some kind }
        requires rows { is_by_name kind ≡ false }
        requires one_each { length verdicts.now ≡ length mentions.now.items }
        requires on_rows { AreOnRows verdicts.now }
        requires room { self.old.state.table.made + length mentions.now.items < 2 ^ 32 }
        ensures kept { OnOk result (IsKept self.new) }
        ensures grows { OnOk result (self.old.state.table.made ≤ self.new.state.table.made) }
        ensures retired { IfOk result (λ retired. HaveRetired retired self.old.state self.new.state) }
        // Whatever world the manager represented, it represents that world once the response's
        // removals and resources are in.
        ensures stands { OnOk result (Follows self.old.state self.new.state
            (with_response kind verdicts.now mentions.now)) }
    {
        let mut retired = Seq::new(alloc);
        self.remove_names(alloc, kind, mentions, &mut retired, steps)?;
        self.take_items(
            alloc,
            kind,
            mentions.response().items.as_slice(),
            verdicts,
            &mut retired,
            steps,
        )?;
        Ok(retired)
    }

    // The removed names of a response come to their end, except those that a resource has.
    fn remove_names<L: Ledger>(
        &mut self,
        alloc: Global,
        kind: Kind,
        mentions: &Mentions<'_>,
        retired: &mut Seq<Gen>,
        steps: &mut Steps<L>,
    ) -> Result<(), AllocError>
        requires kept { IsKept self.old }
        ensures kept { OnOk result (IsKept self.new) }
        ensures made { OnOk result (self.new.state.table.made ≡ self.old.state.table.made) }
        ensures told { OnOk result (TellsRetired self.old.state self.new.state retired.old retired.new) }
        ensures stands { OnOk result (Follows self.old.state self.new.state
            (with_rows_left kind mentions.now)) }
    {
        for name in mentions.response().removed.as_slice() {
            self.remove_name(alloc, kind, mentions, name, retired, steps)?;
        }
        Ok(())
    }

    // A removed name comes to its end, where no resource has it.
    fn remove_name<L: Ledger>(
        &mut self,
        alloc: Global,
        kind: Kind,
        mentions: &Mentions<'_>,
        name: &Text,
        retired: &mut Seq<Gen>,
        steps: &mut Steps<L>,
    ) -> Result<(), AllocError>
        requires kept { IsKept self.old }
        requires listed { is_among name.now mentions.now.removed ≡ true }
        ensures kept { OnOk result (IsKept self.new) }
        ensures made { OnOk result (self.new.state.table.made ≡ self.old.state.table.made) }
        ensures told { OnOk result (TellsRetired self.old.state self.new.state retired.old retired.new) }
        ensures stands { OnOk result (Follows self.old.state self.new.state
            (with_name_left kind mentions.now name.now)) }
    {
        if !mentions.is_removed(name.as_str()) {
            return Ok(());
        }
        match Name::new(alloc, name.as_str()) {
            Ok(name) => self.end_name(kind, &name, retired, steps),
            Err(NameError::Length) => Ok(()),
            Err(NameError::OutOfMemory) => Err(AllocError),
        }
    }

    // A name comes to its end, and what retired is reported.
    fn end_name<L: Ledger>(
        &mut self,
        kind: Kind,
        name: &Name,
        retired: &mut Seq<Gen>,
        steps: &mut Steps<L>,
    ) -> Result<(), AllocError>
        requires kept { IsKept self.old }
        ensures kept { OnOk result (IsKept self.new) }
        ensures made { OnOk result (self.new.state.table.made ≡ self.old.state.table.made) }
        ensures told { OnOk result (TellsRetired self.old.state self.new.state retired.old retired.new) }
        ensures stands { OnOk result (Follows self.old.state self.new.state
            (with_rows_ended kind name.now)) }
    {
        let ended = self.end(kind, name, steps)?;
        put_one(retired, &ended.warming)?;
        put_one(retired, &ended.active)
    }

    // The resources of a response come in, in order, each by its verdict.
    fn take_items<L: Ledger>(
        &mut self,
        alloc: Global,
        kind: Kind,
        items: &[Item],
        verdicts: &[Verdict],
        retired: &mut Seq<Gen>,
        steps: &mut Steps<L>,
    ) -> Result<(), AllocError>
        requires kept { IsKept self.old }
        requires typed { All (λ item. IsBodyOf kind item.body) items.now }
        requires rows { is_by_name kind ≡ false }
        requires one_each { length verdicts.now ≡ length items.now }
        requires on_rows { AreOnRows verdicts.now }
        requires room { self.old.state.table.made + length items.now < 2 ^ 32 }
        ensures kept { OnOk result (IsKept self.new) }
        ensures grows { OnOk result (self.old.state.table.made ≤ self.new.state.table.made) }
        ensures told { OnOk result (TellsRetired self.old.state self.new.state retired.old retired.new) }
        ensures stands { OnOk result (Follows self.old.state self.new.state
            (add_items kind verdicts.now items.now)) }
    {
        for (place, item) in items.iter().enumerate() {
            self.take_item(alloc, kind, &verdicts[place], item, retired, steps)?;
        }
        Ok(())
    }

    // One resource comes in: where it is new or in place and has content, a generation of this warms under its name,
    // and one that warmed under it before is dropped; where it is the one that serves again, that one alone is dropped.
    fn take_item<L: Ledger>(
        &mut self,
        alloc: Global,
        kind: Kind,
        verdict: &Verdict,
        item: &Item,
        retired: &mut Seq<Gen>,
        steps: &mut Steps<L>,
    ) -> Result<(), AllocError>
        requires kept { IsKept self.old }
        requires typed { IsBodyOf kind item.now.body }
        requires rows { is_by_name kind ≡ false }
        requires on_row { IsOnRow verdict.now }
        requires room { self.old.state.table.made + 1 < 2 ^ 32 }
        ensures kept { OnOk result (IsKept self.new) }
        ensures grows { OnOk result (self.old.state.table.made ≤ self.new.state.table.made) }
        ensures few { OnOk result (self.new.state.table.made ≤ self.old.state.table.made + 1) }
        ensures told { OnOk result (TellsRetired self.old.state self.new.state retired.old retired.new) }
        ensures stands { OnOk result (Follows self.old.state self.new.state
            (add_item kind verdict.now item.now)) }
    {
        let Body::Good(content) = &item.body else {
            return Ok(());
        };
        match verdict {
            Verdict::New => {
                let name = item.resource_name(alloc)?;
                self.make(alloc, kind, name, content, Seq::new(alloc), retired, steps)
            }
            Verdict::InPlace => {
                let name = item.resource_name(alloc)?;
                self.make_in_place(alloc, kind, name, content, retired, steps)
            }
            Verdict::Back => {
                let name = item.resource_name(alloc)?;
                self.go_back(kind, &name, retired, steps)
            }
            _ => Ok(()),
        }
    }

    // A generation of this content warms under a name, with the chains that it keeps of the one that serves.
    fn make_in_place<L: Ledger>(
        &mut self,
        alloc: Global,
        kind: Kind,
        name: Name,
        content: &Content,
        retired: &mut Seq<Gen>,
        steps: &mut Steps<L>,
    ) -> Result<(), AllocError>
        requires kept { IsKept self.old }
        requires typed { content_kind content.now ≡ kind }
        requires room { self.old.state.table.made + 1 < 2 ^ 32 }
        ensures kept { OnOk result (IsKept self.new) }
        ensures made { OnOk result (self.new.state.table.made ≡ self.old.state.table.made + 1) }
        ensures told { OnOk result (TellsRetired self.old.state self.new.state retired.old retired.new) }
        ensures stands { OnOk result (Follows self.old.state self.new.state
            (with_generation kind name content.now
            (kept_from (serving_row kind name self.old.state.table.rows) content.now))) }
    {
        let chains = kept_from(&self.state, alloc, kind, &name, content, steps)?;
        self.make(alloc, kind, name, content, chains, retired, steps)
    }

    // A generation of this content warms under a name, with these chains, and one that warmed under it before is
    // dropped.
    fn make<L: Ledger>(
        &mut self,
        alloc: Global,
        kind: Kind,
        name: Name,
        content: &Content,
        chains: Seq<KeptChain>,
        retired: &mut Seq<Gen>,
        steps: &mut Steps<L>,
    ) -> Result<(), AllocError>
        requires kept { IsKept self.old }
        requires typed { content_kind content.now ≡ kind }
        requires room { self.old.state.table.made + 1 < 2 ^ 32 }
        ensures kept { OnOk result (IsKept self.new) }
        ensures made { OnOk result (self.new.state.table.made ≡ self.old.state.table.made + 1) }
        ensures told { OnOk result (TellsRetired self.old.state self.new.state retired.old retired.new) }
        ensures stands { OnOk result (Follows self.old.state self.new.state
            (with_generation kind name content.now chains)) }
    {
        let dropped = self.state.names.standing(kind, &name).warming;
        put_one(&mut self.stale, &dropped)?;
        put_one(retired, &dropped)?;
        add(&mut self.state, alloc, kind, name, content, chains, steps)?;
        Ok(())
    }

    // The generation that warms under a name is dropped, where there is one.
    fn go_back<L: Ledger>(
        &mut self,
        kind: Kind,
        name: &Name,
        retired: &mut Seq<Gen>,
        steps: &mut Steps<L>,
    ) -> Result<(), AllocError>
        requires kept { IsKept self.old }
        ensures kept { OnOk result (IsKept self.new) }
        ensures made { OnOk result (self.new.state.table.made ≡ self.old.state.table.made) }
        ensures told { OnOk result (TellsRetired self.old.state self.new.state retired.old retired.new) }
        ensures stands { OnOk result (Follows self.old.state self.new.state
            (with_rows_replaced kind name.now)) }
    {
        let dropped = self.state.names.standing(kind, name).warming;
        put_one(&mut self.stale, &dropped)?;
        put_one(retired, &dropped)?;
        drop_warming(&mut self.state, kind, name, steps);
        Ok(())
    }
}
