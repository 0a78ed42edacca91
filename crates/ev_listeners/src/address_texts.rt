ghost use Rattle.std.specs.Prelude.{◌≡◌};
ghost use Rattle.ev_types.specs.SameHosts.{host_same};

use crate::addresses::ListenerAddress;
use ev_types::Host;
use indexmap::Equivalent;
use std::hash::{Hash, Hasher};
use std::marker::Model;

/// An address and a port by which listeners are looked up. It takes no memory.
#[derive(Drop)]
pub(crate) struct AddressText<'a> {
    address: &'a str,
    port: u16,
}

impl<'a> Model for AddressText<'a> {
    ghost use Rattle.ev_types.specs.declared.hosts.Host.{Host};

    ghost Value = { Host };

    ghost view = { λ a. record { address = a.address.now; port = a.port } };
}

impl<'a> AddressText<'a> {
    /// The key of this address and port.
    pub(crate) fn new(address: &'a str, port: u16) -> AddressText<'a>
        ensures { result ≡ record { address = address.now; port = port } }
    {
        AddressText { address, port }
    }

    // Whether a host has this address and port.
    fn is(&self, host: &Host) -> bool
        ensures { result ≡ host_same self.now host.now }
    {
        self.address == host.address.as_str() && self.port == host.port
    }
}

impl<'a> PartialEq for AddressText<'a> {
    ghost use Rattle.std.specs.Cmp.{decided, partial_equiv_from_equiv};
    ghost use Rattle.ev_types.specs.SameHosts.{host_same, host_decides};

    ghost eq = { host_same };

    ghost laws = { partial_equiv_from_equiv (decided host_same host_decides) };

    fn eq(&self, other: &AddressText<'a>) -> bool {
        self.address == other.address && self.port == other.port
    }
}

impl<'a> Eq for AddressText<'a> {
    ghost use Rattle.std.specs.Cmp.{decided};
    ghost use Rattle.ev_types.specs.SameHosts.{host_same, host_decides};

    ghost laws = { decided host_same host_decides };
}

impl<'a> Hash for AddressText<'a> {
    ghost use Rattle.std.proofs.Common.{ap};
    ghost use Rattle.ev_types.specs.SameHosts.{host_hash_input, host_decides};

    ghost hash_input = { host_hash_input };

    ghost respects_eq = { λ a b same. ap host_hash_input ((host_decides a b).0 same) };

    fn hash<H: Hasher>(&self, state: &mut H) {
        self.address.hash(state);
        self.port.hash(state);
    }
}

impl<'a> Equivalent<ListenerAddress> for &AddressText<'a> {
    ghost use Rattle.std.proofs.Common.{ap};
    ghost use Rattle.std.specs.Cmp.{decided};
    ghost use Rattle.ev_types.specs.SameHosts.{host_same, host_hash_input, host_decides};

    ghost equivalent = { λ q k. host_same q.now k };

    ghost respects_hash = { λ q k h. ap host_hash_input ((host_decides q.now k).0 h) };

    ghost respects_eq = { λ q x y. (decided host_same host_decides).congr q.now x y };

    fn equivalent(&self, key: &ListenerAddress) -> bool {
        self.is(key.host())
    }
}
