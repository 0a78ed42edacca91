ghost use Rattle.std.specs.Prelude.{◌≡◌, IfOk};
ghost use Rattle.ev_model.specs.World.{World};
ghost use Rattle.ev_state.specs.States.{ManagesAt};
ghost use Rattle.ev_proxy.specs.Changing.{changes_at};

use ev_snapshot::{Changes, ClusterChange, ListenerChange};
use ev_state::State;
use ev_types::{Gen, Seq};
use std::alloc::{AllocError, Global};

/// What is to be shown of the generations of these numbers, as clusters and as listeners: a number is of one of both.
/// It costs look-ups of each.
pub(crate) fn changes(alloc: Global, state: &State, numbers: &[Gen]) -> Result<Changes, AllocError>
    ghost here: { World }
    requires at { ManagesAt state.now here }
    ensures { IfOk result (λ changes. changes ≡ changes_at here numbers.now) }
{
    let mut clusters = Seq::new(alloc);
    let mut listeners = Seq::new(alloc);
    for number in numbers {
        clusters.push(ClusterChange {
            number: *number,
            served: state.cluster(alloc, *number)?,
        })?;
        listeners.push(ListenerChange {
            number: *number,
            served: state.listener(alloc, *number)?,
        })?;
    }
    Ok(Changes {
        clusters,
        listeners,
    })
}
