ghost use Rattle.std.specs.Prelude.{◌≡◌};
ghost use Rattle.ev_lookups.specs.Keys.{named};
ghost use Rattle.ev_indexes.specs.Indexes.{IsIndexed};
ghost use Rattle.ev_managers.specs.Managers.{AreManagersKept};
ghost use Rattle.ev_state.specs.Known.{serving_in};

use ev_indexes::{State, live_row_of};
use ev_lookups::LiveRow;
use ev_managers::Managers;
use ev_subscription::Subscription;
use ev_types::{Kind, SocketAddress};
use ev_verdicts::Known;
use std::alloc::{AllocError, Global};
use std::marker::Model;

/// What is known before a response: each question of verdicts is one to a manager, or to the subscription. Contracts
/// see the answers.
#[derive(Drop)]
pub(crate) struct Before<'a> {
    managers: &'a Managers,
    subscription: &'a Subscription,
}

impl<'a> Model for Before<'a> {
    ghost use Rattle.ev_managers.specs.Managers.{AreManagersKept};
    ghost use Rattle.ev_state.specs.Known.{BeforeParts};

    ghost Value = { BeforeParts };

    ghost view = { λ b. record { managers = b.managers.now.core.state; subscription = b.subscription.now } };

    ghost invariant = { λ b. AreManagersKept b.managers.now };
}

impl<'a> Before<'a> {
    /// What these know.
    pub(crate) fn new(managers: &'a Managers, subscription: &'a Subscription) -> Before<'a>
        requires kept { AreManagersKept managers.now }
        ensures { result ≡ record {
          managers = managers.now.core.state;
          subscription = subscription.now;
        } }
    {
        Before {
            managers,
            subscription,
        }
    }
}

impl<'a> Known for Before<'a> {
    ghost use Rattle.ev_state.specs.Known.{answers_before};

    ghost answers = { answers_before };

    fn newest(&self, kind: Kind, name: &str) -> Option<LiveRow<'_>> {
        self.managers.core.state.newest(kind, name)
    }

    fn serving(&self, kind: Kind, name: &str) -> Option<LiveRow<'_>> {
        serving(&self.managers.core.state, kind, name)
    }

    fn holders(
        &self,
        alloc: Global,
        address: &SocketAddress,
    ) -> Result<Vec<LiveRow<'_>>, AllocError> {
        self.managers.core.state.holders(alloc, address)
    }

    fn is_watched(&self, kind: Kind, name: &str) -> bool {
        self.managers.is_watched(kind, name)
    }

    fn is_kept(&self, kind: Kind, name: &str, version: &str) -> bool {
        self.subscription.is_kept(kind, name, version)
    }
}

// What is seen of the generation that serves a name of a kind, where one does. It costs a look-up of the name, and
// one of the generation.
fn serving<'a>(known: &'a State, kind: Kind, name: &str) -> Option<LiveRow<'a>>
    requires indexed { IsIndexed known.now }
    ensures { result ≡ serving_in known.now.table.rows (named kind name.now) }
{
    live_row_of(&known.table, known.names.standing_of(kind, name).active)
}
