ghost use Rattle.std.specs.Prelude.{◌≡◌};
ghost use Rattle.ev_ledger.specs.Entries.{began_at, listener_of};

use ev_types::{Gen, Origin};

/// What a connection is open on.
#[derive(Clone, Copy, Debug)]
pub struct On {
    pub listener: Gen,
    /// The cluster that it was forwarded to, if it was to one.
    pub cluster: Option<Gen>,
    /// Where the filter chain began that took it, if one is known to have taken it.
    pub origin: Option<Origin>,
}

/// The listener of a connection.
pub(crate) fn listener_of(on: &On) -> Option<Gen>
    ensures { result ≡ listener_of on.now }
{
    Some(on.listener)
}

/// The generation of a listener where the chain of a connection began, if one is known.
pub(crate) fn began_at(on: &On) -> Option<Gen>
    ensures { result ≡ began_at on.now }
{
    match on.origin {
        Some(origin) => Some(origin.listener),
        None => None,
    }
}
