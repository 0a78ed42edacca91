ghost use Rattle.std.specs.Prelude.{◌≡◌, fold};
ghost use Rattle.ev_chains.specs.Keys.{port_same, name_same, port_hash_input, name_hash_input};

use ev_types::Seq;
use std::hash::{Hash, Hasher};

/// One of the keys by which a chain takes connections: its port, and one of its server names in lower case.
#[derive(Drop)]
pub(crate) struct ChainKey {
    pub port: Option<u16>,
    pub name: Option<Seq<u8>>,
}

// Whether two ports are the same, or none is there on both sides.
pub(crate) fn same_port(a: Option<u16>, b: Option<u16>) -> bool
    ensures { result ≡ port_same a b }
{
    match (a, b) {
        (None, None) => true,
        (Some(a), Some(b)) => a == b,
        _ => false,
    }
}

// The same of names.
fn same_name(a: &Option<Seq<u8>>, b: &Option<Seq<u8>>) -> bool
    ensures { result ≡ name_same a.now b.now }
{
    match (a, b) {
        (None, None) => true,
        (Some(a), Some(b)) => a.as_slice() == b.as_slice(),
        _ => false,
    }
}

// Feeds a port, where there is one.
fn hash_port<H: Hasher>(port: Option<u16>, state: &mut H)
    ensures { state.new ≡ fold H.write state.old (port_hash_input port) }
{
    match port {
        Some(port) => port.hash(state),
        None => {}
    }
}

// Feeds a name, where there is one.
fn hash_name<H: Hasher>(name: &Option<Seq<u8>>, state: &mut H)
    ensures { state.new ≡ fold H.write state.old (name_hash_input name.now) }
{
    match name {
        Some(name) => u8::hash_slice(name.as_slice(), state),
        None => {}
    }
}

impl PartialEq for ChainKey {
    ghost use Rattle.std.specs.Cmp.{decided, partial_equiv_from_equiv};
    ghost use Rattle.ev_chains.specs.Keys.{key_same, key_decides};

    ghost eq = { key_same };

    ghost laws = { partial_equiv_from_equiv (decided key_same key_decides) };

    fn eq(&self, other: &ChainKey) -> bool {
        same_port(self.port, other.port) && same_name(&self.name, &other.name)
    }
}

impl Eq for ChainKey {
    ghost use Rattle.std.specs.Cmp.{decided};
    ghost use Rattle.ev_chains.specs.Keys.{key_same, key_decides};

    ghost laws = { decided key_same key_decides };
}

impl Hash for ChainKey {
    ghost use Rattle.std.proofs.Common.{ap};
    ghost use Rattle.ev_chains.specs.Keys.{key_hash_input, key_decides};

    ghost hash_input = { key_hash_input };

    ghost respects_eq = { λ a b same. ap key_hash_input ((key_decides a b).0 same) };

    fn hash<H: Hasher>(&self, state: &mut H) {
        hash_port(self.port, state);
        hash_name(&self.name, state);
    }
}
