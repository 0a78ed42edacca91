ghost use Rattle.std.specs.Prelude.{◌≡◌};

use crate::routed::RoutedListener;
use ev_types::{Host, Shared, TryCopy};
use indexmap::Equivalent;
use std::alloc::{AllocError, Global};
use std::hash::{Hash, Hasher};
use std::marker::Model;

/// A listener as the key of its address and port.
#[derive(Drop)]
pub(crate) struct ListenerAddress {
    listener: Shared<RoutedListener>,
}

impl Model for ListenerAddress {
    ghost use Rattle.ev_types.specs.declared.hosts.Host.{Host};

    ghost Value = { Host };

    ghost view = { λ a. a.listener.address };
}

impl ListenerAddress {
    /// The key of this listener's address.
    pub(crate) fn new(listener: Shared<RoutedListener>) -> ListenerAddress
        ensures { result ≡ listener.address }
    {
        ListenerAddress { listener }
    }

    /// The address and port.
    pub(crate) fn host(&self) -> &Host
        ensures { result.now ≡ self.now }
    {
        self.listener.get().address()
    }
}

impl TryCopy for ListenerAddress {
    fn copy(&self, _alloc: Global) -> Result<ListenerAddress, AllocError> {
        Ok(ListenerAddress {
            listener: self.listener.share()?,
        })
    }
}

impl PartialEq for ListenerAddress {
    ghost use Rattle.std.specs.Cmp.{decided, partial_equiv_from_equiv};
    ghost use Rattle.ev_types.specs.SameHosts.{host_same, host_decides};

    ghost eq = { host_same };

    ghost laws = { partial_equiv_from_equiv (decided host_same host_decides) };

    fn eq(&self, other: &ListenerAddress) -> bool {
        self.host() == other.host()
    }
}

impl Eq for ListenerAddress {
    ghost use Rattle.std.specs.Cmp.{decided};
    ghost use Rattle.ev_types.specs.SameHosts.{host_same, host_decides};

    ghost laws = { decided host_same host_decides };
}

impl Hash for ListenerAddress {
    ghost use Rattle.std.proofs.Common.{ap};
    ghost use Rattle.ev_types.specs.SameHosts.{host_hash_input, host_decides};

    ghost hash_input = { host_hash_input };

    ghost respects_eq = { λ a b same. ap host_hash_input ((host_decides a b).0 same) };

    fn hash<H: Hasher>(&self, state: &mut H) {
        self.host().hash(state);
    }
}

impl Equivalent<ListenerAddress> for &Host {
    ghost use Rattle.std.proofs.Common.{ap};
    ghost use Rattle.std.specs.Cmp.{decided};
    ghost use Rattle.ev_types.specs.SameHosts.{host_same, host_hash_input, host_decides};

    ghost equivalent = { λ q k. host_same q.now k };

    ghost respects_hash = { λ q k h. ap host_hash_input ((host_decides q.now k).0 h) };

    ghost respects_eq = { λ q x y. (decided host_same host_decides).congr q.now x y };

    fn equivalent(&self, key: &ListenerAddress) -> bool {
        **self == *key.host()
    }
}
