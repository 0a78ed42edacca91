ghost use Rattle.std.specs.Prelude.{◌≡◌, ◌+◌, ◌^◌, ◌<◌, Some, length, IfOk, OnOk};
ghost use Rattle.ev_warming.specs.Worlds.{with_response};
ghost use Rattle.ev_managers.specs.Managers.{AreManagersKept, MayBeGiven, Follow};
ghost use Rattle.ev_managers.specs.Moved.{AreRetired};

use crate::Managers;
use ev_indexes::Steps;
use ev_lookups::Mentions;
use ev_types::{Gen, Kind, Seq, Verdict};
use std::alloc::{AllocError, Global};
use std::sync::ledger::Ledger;

impl Managers {
    /// A response of this kind, by what it mentions, with the verdicts on its resources: removals first, then its resources in order.
    /// Answers which generations retired. Out of memory, it is unspecified.
    pub fn respond<L: Ledger>(
        &mut self,
        alloc: Global,
        kind: Kind,
        mentions: &Mentions<'_>,
        verdicts: &[Verdict],
        steps: &mut Steps<L>,
    ) -> Result<Seq<Gen>, AllocError>
        requires kept { AreManagersKept self.old }
        requires typed { mentions.now.kind ≡ Some kind }
        requires one_each { length verdicts.now ≡ length mentions.now.items }
        requires given { MayBeGiven self.old kind verdicts.now mentions.now.items }
        requires room { self.old.core.state.table.made + length mentions.now.items < 2 ^ 32 }
        ensures kept { OnOk result (AreManagersKept self.new) }
        ensures retired { IfOk result (λ retired. AreRetired retired self.old self.new) }
        // Whatever world they represented, they represent that world once the response's removals and resources are in.
        ensures stands { OnOk result (Follow self.old self.new (with_response kind verdicts.now mentions.now)) }
    {
        if kind.is_by_name() {
            self.core
                .arrive_all(alloc, kind, mentions, verdicts, steps)?;
            return Ok(Seq::new(alloc));
        }
        self.core.apply(alloc, kind, mentions, verdicts, steps)
    }
}
