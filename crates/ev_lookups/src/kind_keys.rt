ghost use Rattle.std.specs.Prelude.{◌≡◌};
ghost use Rattle.ev_lookups.specs.Keys.{key_same, named};

use ev_types::{Kind, Name};
use indexmap::Equivalent;
use std::hash::{Hash, Hasher};
use std::marker::Model;

/// A name of a kind, as a key of tables: two kinds may have one name.
#[derive(Drop)]
pub struct Key {
    pub kind: Kind,
    pub name: Name,
}

impl PartialEq for Key {
    ghost use Rattle.std.specs.Cmp.{decided, partial_equiv_from_equiv};
    ghost use Rattle.ev_lookups.specs.Keys.{key_same, key_decides};

    ghost eq = { key_same };

    ghost laws = { partial_equiv_from_equiv (decided key_same key_decides) };

    fn eq(&self, other: &Key) -> bool {
        self.kind.is(other.kind) && self.name == other.name
    }
}

impl Eq for Key {
    ghost use Rattle.std.specs.Cmp.{decided};
    ghost use Rattle.ev_lookups.specs.Keys.{key_same, key_decides};

    ghost laws = { decided key_same key_decides };
}

impl Hash for Key {
    ghost use Rattle.std.proofs.Common.{ap};
    ghost use Rattle.ev_lookups.specs.Keys.{key_hash_input, key_decides};

    ghost hash_input = { key_hash_input };

    ghost respects_eq = { λ a b same. ap key_hash_input ((key_decides a b).0 same) };

    fn hash<H: Hasher>(&self, state: &mut H) {
        self.name.hash(state);
    }
}

/// A text of a kind as a key, among names of kinds: it represents the name of the same kind
/// and bytes, and there may be none.
#[derive(Drop)]
pub struct KeyText<'a> {
    kind: Kind,
    name: &'a str,
}

impl<'a> Model for KeyText<'a> {
    ghost use Rattle.ev_lookups.specs.declared.kind_keys.Key.{Key};
    ghost use Rattle.ev_lookups.specs.Keys.{named};

    ghost Value = { Key };

    ghost view = { λ k. named k.kind k.name.now };
}

impl<'a> KeyText<'a> {
    /// The key of this text of a kind.
    pub fn new(kind: Kind, name: &'a str) -> KeyText<'a>
        ensures { result ≡ named kind name.now }
    {
        KeyText { kind, name }
    }

    // Whether it represents this name of a kind.
    fn is(&self, key: &Key) -> bool
        ensures { result ≡ key_same self.now key.now }
    {
        self.kind.is(key.kind) && self.name == key.name.as_str()
    }

    // The text.
    fn text(&self) -> &'a str
        ensures { result.now ≡ self.now.name }
    {
        self.name
    }
}

impl<'a> PartialEq for KeyText<'a> {
    ghost use Rattle.std.specs.Cmp.{decided, partial_equiv_from_equiv};
    ghost use Rattle.ev_lookups.specs.Keys.{key_same, key_decides};

    ghost eq = { key_same };

    ghost laws = { partial_equiv_from_equiv (decided key_same key_decides) };

    fn eq(&self, other: &KeyText<'a>) -> bool {
        self.kind.is(other.kind) && self.text() == other.text()
    }
}

impl<'a> Eq for KeyText<'a> {
    ghost use Rattle.std.specs.Cmp.{decided};
    ghost use Rattle.ev_lookups.specs.Keys.{key_same, key_decides};

    ghost laws = { decided key_same key_decides };
}

impl<'a> Hash for KeyText<'a> {
    ghost use Rattle.std.proofs.Common.{ap};
    ghost use Rattle.ev_lookups.specs.Keys.{key_hash_input, key_decides};

    ghost hash_input = { key_hash_input };

    ghost respects_eq = { λ a b same. ap key_hash_input ((key_decides a b).0 same) };

    fn hash<H: Hasher>(&self, state: &mut H) {
        self.text().hash(state);
    }
}

impl<'a> Equivalent<Key> for &KeyText<'a> {
    ghost use Rattle.std.specs.Cmp.{decided};
    ghost use Rattle.std.proofs.Common.{ap};
    ghost use Rattle.ev_lookups.specs.Keys.{key_same, key_decides, key_hash_input};

    ghost equivalent = { λ q. key_same q.now };

    ghost respects_hash = { λ q k h. ap key_hash_input ((key_decides q.now k).0 h) };

    ghost respects_eq = { λ q. (decided key_same key_decides).congr q.now };

    fn equivalent(&self, key: &Key) -> bool {
        self.is(key)
    }
}
