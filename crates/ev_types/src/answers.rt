ghost use Rattle.std.specs.Prelude.{◌≡◌};
ghost use Rattle.ev_types.specs.SameAnswers.{answer_same};
ghost use Rattle.ev_types.specs.SameHosts.{host_same};
ghost use Rattle.ev_types.specs.SameWays.{way_same};

use crate::compared::are_same;
use crate::events::Answer;
use crate::hosts::Host;
use crate::ways::Way;

/// Whether the two are the same answer, with the same content. It goes over both once, and takes no memory: a list is
/// compared by its length first, then place by place, and the first difference ends it.
pub fn is_same_answer(one: &Answer, other: &Answer) -> bool
    ensures { result ≡ answer_same one.now other.now }
{
    match (one, other) {
        (Answer::Ignored, Answer::Ignored)
        | (Answer::Done, Answer::Done)
        | (Answer::Unchanged, Answer::Unchanged)
        | (Answer::InUse, Answer::InUse)
        | (Answer::NoListener, Answer::NoListener)
        | (Answer::NoChain, Answer::NoChain)
        | (Answer::NotOpen, Answer::NotOpen) => true,
        (Answer::Moved { requests: ones }, Answer::Moved { requests: others }) => {
            are_same(ones.as_slice(), others.as_slice())
        }
        (
            Answer::Replied {
                requests: ones,
                verdicts: first,
            },
            Answer::Replied {
                requests: others,
                verdicts: second,
            },
        ) => {
            are_same(ones.as_slice(), others.as_slice())
                && are_same(first.as_slice(), second.as_slice())
        }
        (Answer::Version(one), Answer::Version(other)) => one == other,
        (Answer::Reaped(ones), Answer::Reaped(others)) => ones == others,
        (
            Answer::Settled {
                closed: ones,
                moved: first_moved,
                version: first,
            },
            Answer::Settled {
                closed: others,
                moved: second_moved,
                version: second,
            },
        ) => ones == others && first_moved == second_moved && first == second,
        (
            Answer::On {
                listener: one,
                chain: first_chain,
                way: first,
            },
            Answer::On {
                listener: other,
                chain: second_chain,
                way: second,
            },
        ) => one == other && first_chain == second_chain && is_same_way(first, second),
        _ => false,
    }
}

// Whether the two are the same way of a connection, with the same content.
fn is_same_way(one: &Way<Host>, other: &Way<Host>) -> bool
    ensures { result ≡ way_same host_same one.now other.now }
{
    match (one, other) {
        (Way::Undecided, Way::Undecided)
        | (Way::NoRoute, Way::NoRoute)
        | (Way::Redirect, Way::Redirect)
        | (Way::NoCluster, Way::NoCluster)
        | (Way::NoEndpoint, Way::NoEndpoint) => true,
        (Way::Elsewhere { cluster: one }, Way::Elsewhere { cluster: other })
        | (Way::NoSecret { cluster: one }, Way::NoSecret { cluster: other }) => one == other,
        (Way::Local { status: one }, Way::Local { status: other }) => one == other,
        (
            Way::Served { cluster: one, host },
            Way::Served {
                cluster: other,
                host: other_host,
            },
        ) => one == other && host == other_host,
        _ => false,
    }
}
