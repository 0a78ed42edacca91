ghost use Rattle.std.specs.Prelude.{◌≡◌, IfOk};
ghost use Rattle.ev_lookups.specs.Keys.{named};
ghost use Rattle.ev_subscription.specs.Held.{key_order, kind_place};

use ev_types::{Kind, Name, Shared};
use std::alloc::{AllocError, Global};
use std::cmp::Ordering;
use std::collections::btree_map::Comparable;
use std::marker::Model;

/// A name of a kind as a key; keys compare by their kinds, then by the bytes of their names. Copies share the name.
#[derive(Drop)]
pub(crate) struct VersionKey {
    kind: Kind,
    name: Shared<Name>,
}

impl Model for VersionKey {
    ghost use Rattle.ev_lookups.specs.declared.kind_keys.Key.{Key};
    ghost use Rattle.ev_lookups.specs.Keys.{named};

    ghost Value = { Key };

    ghost view = { λ k. named k.kind k.name };
}

impl VersionKey {
    /// The key of this name of a kind.
    pub(crate) fn new(alloc: Global, kind: Kind, name: Name) -> Result<VersionKey, AllocError>
        ensures { IfOk result (λ key. key ≡ named kind name) }
    {
        Ok(VersionKey {
            kind,
            name: Shared::new(alloc, name)?,
        })
    }

    /// The kind.
    pub(crate) fn kind(&self) -> Kind
        ensures { result ≡ self.now.kind }
    {
        self.kind
    }

    /// The name.
    pub(crate) fn name(&self) -> &Name
        ensures { result.now ≡ self.now.name }
    {
        self.name.get()
    }
}

impl Clone for VersionKey {
    ghost use Rattle.std.specs.Prelude.{◌≡◌};

    ghost is_clone = { λ key copied. copied ≡ key };

    // A copy shares the name.
    fn clone(&self) -> Result<VersionKey, AllocError> {
        Ok(VersionKey {
            kind: self.kind,
            name: self.name.share()?,
        })
    }
}

impl PartialEq for VersionKey {
    ghost use Rattle.std.specs.Cmp.{decided, partial_equiv_from_equiv};
    ghost use Rattle.ev_lookups.specs.Keys.{key_same, key_decides};

    ghost eq = { key_same };

    ghost laws = { partial_equiv_from_equiv (decided key_same key_decides) };

    fn eq(&self, other: &VersionKey) -> bool {
        self.kind().is(other.kind()) && *self.name() == *other.name()
    }
}

impl Eq for VersionKey {
    ghost use Rattle.std.specs.Cmp.{decided};
    ghost use Rattle.ev_lookups.specs.Keys.{key_same, key_decides};

    ghost laws = { decided key_same key_decides };
}

impl PartialOrd for VersionKey {
    ghost use Rattle.std.specs.Prelude.{Some};
    ghost use Rattle.ev_subscription.specs.Held.{key_order};
    ghost use Rattle.ev_subscription.specs.KeyOrder.{keys_partial};

    ghost partial_cmp = { λ a b. Some (key_order a b) };

    ghost laws = { keys_partial };

    fn partial_cmp(&self, other: &VersionKey) -> Option<Ordering> {
        Some(self.cmp(other))
    }
}

impl Ord for VersionKey {
    ghost use Rattle.std.proofs.Common.{refl};
    ghost use Rattle.ev_subscription.specs.Held.{key_order};
    ghost use Rattle.ev_subscription.specs.KeyOrder.{keys_tie, keys_total};

    ghost cmp = { key_order };

    ghost total = { keys_total };

    ghost matches_partial_cmp = { λ a b. refl };

    ghost matches_eq = { keys_tie };

    fn cmp(&self, other: &VersionKey) -> Ordering {
        order(
            self.kind(),
            self.name().as_str(),
            other.kind(),
            other.name().as_str(),
        )
    }
}

/// A text of a kind, looked for among keys: it represents the name of the same bytes, and there may be none.
#[derive(Drop)]
pub(crate) struct VersionText<'a> {
    kind: Kind,
    name: &'a str,
}

impl<'a> Model for VersionText<'a> {
    ghost use Rattle.ev_lookups.specs.declared.kind_keys.Key.{Key};
    ghost use Rattle.ev_lookups.specs.Keys.{named};

    ghost Value = { Key };

    ghost view = { λ k. named k.kind k.name.now };
}

impl<'a> VersionText<'a> {
    /// This text of a kind.
    pub(crate) fn new(kind: Kind, name: &'a str) -> VersionText<'a>
        ensures { result ≡ named kind name.now }
    {
        VersionText { kind, name }
    }

    // How it compares with a key.
    fn order(&self, key: &VersionKey) -> Ordering
        ensures { result ≡ key_order self.now key.now }
    {
        order(self.kind, self.name, key.kind(), key.name().as_str())
    }
}

impl<'a> Comparable<VersionKey> for &VersionText<'a> {
    ghost use Rattle.std.specs.BTreeMap.Comparable.{le_lt_trans};
    ghost use Rattle.ev_subscription.specs.Held.{key_order};
    ghost use Rattle.ev_subscription.specs.KeyOrder.{keys_total};

    ghost compare = { λ q k. key_order q.now k };

    ghost respects_cmp = { λ q. keys_total.congr q.now };

    ghost below_greater = { λ q. le_lt_trans keys_total q.now };

    fn compare(&self, key: &VersionKey) -> Ordering {
        self.order(key)
    }
}

// How two names of kinds compare.
fn order(kind: Kind, name: &str, other_kind: Kind, other_name: &str) -> Ordering
    ensures { result ≡ key_order (named kind name.now) (named other_kind other_name.now) }
{
    match place(kind).cmp(&place(other_kind)) {
        Ordering::Equal => name.cmp(other_name),
        order => order,
    }
}

// The place of a kind among the kinds.
fn place(kind: Kind) -> u8
    ensures { result ≡ kind_place kind }
{
    match kind {
        Kind::Cds => 0,
        Kind::Eds => 1,
        Kind::Lds => 2,
        Kind::Rds => 3,
        Kind::Sds => 4,
        Kind::Ecds => 5,
    }
}
