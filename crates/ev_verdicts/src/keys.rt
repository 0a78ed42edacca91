ghost use Rattle.std.specs.Prelude.{◌≡◌};

use ev_types::SocketAddress;
use std::hash::{Hash, Hasher};
use std::marker::Model;

/// Where a listener listens, as a key.
#[derive(Drop)]
pub(crate) struct AddressKey<'a> {
    address: &'a SocketAddress,
}

impl<'a> Model for AddressKey<'a> {
    ghost use Rattle.ev_types.specs.declared.hosts.SocketAddress.{SocketAddress};

    ghost Value = { SocketAddress };

    ghost view = { λ k. k.address.now };
}

impl<'a> AddressKey<'a> {
    /// The key of this address.
    pub(crate) fn new(address: &'a SocketAddress) -> AddressKey<'a>
        ensures { result ≡ address.now }
    {
        AddressKey { address }
    }

    /// Where it listens.
    pub(crate) fn socket(&self) -> &'a SocketAddress
        ensures { result.now ≡ self.now }
    {
        self.address
    }
}

impl<'a> PartialEq for AddressKey<'a> {
    ghost use Rattle.std.specs.Cmp.{decided, partial_equiv_from_equiv};
    ghost use Rattle.ev_types.specs.SameHosts.{socket_same, socket_decides};

    ghost eq = { socket_same };

    ghost laws = { partial_equiv_from_equiv (decided socket_same socket_decides) };

    fn eq(&self, other: &AddressKey<'a>) -> bool {
        self.socket() == other.socket()
    }
}

impl<'a> Eq for AddressKey<'a> {
    ghost use Rattle.std.specs.Cmp.{decided};
    ghost use Rattle.ev_types.specs.SameHosts.{socket_same, socket_decides};

    ghost laws = { decided socket_same socket_decides };
}

impl<'a> Hash for AddressKey<'a> {
    ghost use Rattle.std.proofs.Common.{ap};
    ghost use Rattle.ev_types.specs.SameHosts.{socket_hash_input, socket_decides};

    ghost hash_input = { socket_hash_input };

    ghost respects_eq = { λ a b same. ap socket_hash_input ((socket_decides a b).0 same) };

    fn hash<H: Hasher>(&self, state: &mut H) {
        self.socket().hash(state);
    }
}
