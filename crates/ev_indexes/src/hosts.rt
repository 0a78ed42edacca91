ghost use Rattle.std.specs.Prelude.{◌≡◌, [], unwrap_or};
ghost use Rattle.std.specs.Option.{option_copied};
ghost use Rattle.ev_model.specs.Warming.{is_checked, rows_in};
ghost use Rattle.ev_types.specs.declared.contents.Kind.TheVariants.{Eds};
ghost use Rattle.ev_lookups.specs.Keys.{named};
ghost use Rattle.ev_indexes.specs.Watched.{watch_in};
ghost use Rattle.ev_indexes.specs.Ready.{assignment_in};
ghost use Rattle.ev_indexes.specs.Ready.{takes_result};

use crate::Watches;
use ev_types::{Assignment, Content, Discovery, Host, Kind, Name, Shared};

/// Whether the hosts of a generation of this content are health checked.
pub(crate) fn is_checked(content: &Content) -> bool
    ensures { result ≡ is_checked content.now }
{
    match content {
        Content::Cluster(cluster) => cluster.get().checked,
        _ => false,
    }
}

/// The hosts of a generation of this content: those given in a cluster, or the value of its service.
pub fn assignment<'a>(watches: &'a Watches, content: &'a Content) -> Option<&'a Shared<Assignment>>
    ensures { unwrap_or (option_copied result) [] ≡ assignment_in watches.now content.now }
{
    let Content::Cluster(cluster) = content else {
        return None;
    };
    match &cluster.get().discovery {
        Discovery::Static(rows) => Some(rows),
        Discovery::Eds { service, .. } => value(watches, service),
        Discovery::Elsewhere => None,
    }
}

// The hosts that are the value of a service.
fn value<'a>(watches: &'a Watches, service: &Name) -> Option<&'a Shared<Assignment>>
    ensures { unwrap_or (option_copied result) [] ≡ rows_in (watch_in watches.now (named Eds service.now)).value }
{
    match &watches.get(Kind::Eds, service)?.value {
        Some(Content::Assignment(rows)) => Some(rows),
        _ => None,
    }
}

/// Whether the hosts of a generation of this content are health checked, and the host is one of them.
pub fn takes_result(watches: &Watches, host: &Host, content: &Content) -> bool
    ensures { result ≡ takes_result watches.now host.now content.now }
{
    if !is_checked(content) {
        return false;
    }
    match assignment(watches, content) {
        Some(rows) => rows.get().has(host),
        None => false,
    }
}
