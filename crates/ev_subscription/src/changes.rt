ghost use Rattle.std.specs.Prelude.{◌≡◌, ◌++◌, ◌∷◌, [], ℕ, List, IfOk, OnOk};
ghost use Rattle.std.specs.Str.{bytes_eq};
ghost use Rattle.indexmap.specs.IndexSet.{contains};
ghost use Rattle.ev_model.specs.Requests.{other_than};
ghost use Rattle.ev_model.specs.Verdicts.{is_among};
ghost use Rattle.ev_lookups.specs.Mentions.{Puts};
ghost use Rattle.ev_subscription.specs.Sets.{names_outside};

use ev_keys::Keys;
use ev_lookups::NameKey;
use ev_types::{Kind, Name, Seq, TryCopy};
use indexmap::IndexSet;
use std::alloc::{AllocError, Global};

type NameSet<'a> = IndexSet<NameKey<'a>, Keys>;

/// The names of a kind that are watched, in the order of their bytes.
#[derive(Drop)]
pub struct WatchedNames {
    pub kind: Kind,
    pub names: Seq<Name>,
}

/// The names of a kind that began to be watched, and those that ceased to be, each in the order of their bytes.
#[derive(Drop)]
pub struct NameChange {
    pub kind: Kind,
    pub begun: Seq<Name>,
    pub ended: Seq<Name>,
}

impl NameChange {
    /// What changed of a kind from the names that were watched before to those that are watched after. Each name is
    /// found by a look-up, and both keep their order. It is out of memory where a list or table has no room.
    pub fn between(
        alloc: Global,
        kind: Kind,
        before: &Seq<Name>,
        after: &Seq<Name>,
    ) -> Result<NameChange, AllocError>
        ensures kind { IfOk result (λ change. change.kind ≡ kind) }
        ensures begun { IfOk result (λ change. change.begun ≡ other_than before.now after.now) }
        ensures ended { IfOk result (λ change. change.ended ≡ other_than after.now before.now) }
    {
        Ok(NameChange {
            kind,
            begun: other_than(alloc, before.as_slice(), after.as_slice())?,
            ended: other_than(alloc, after.as_slice(), before.as_slice())?,
        })
    }
}

// Those names that aren't among the others, in their order.
fn other_than(alloc: Global, others: &[Name], names: &[Name]) -> Result<Seq<Name>, AllocError>
    ensures { IfOk result (λ left. left ≡ other_than others.now names.now) }
{
    let others = set_of(alloc, others)?;
    let left = outside(alloc, &others, names)?;
    Ok(Seq::from_vec(left))
}

// The set of these names.
fn set_of<'a>(alloc: Global, names: &'a [Name]) -> Result<NameSet<'a>, AllocError>
    ensures { IfOk result (λ set. (name : List ℕ) → contains bytes_eq set name ≡ is_among name names.now) }
{
    let mut set = IndexSet::with_hasher(alloc, Keys::of(names));
    for name in names {
        insert(&mut set, name.as_str())?;
    }
    Ok(set)
}

// Puts the name into the set.
fn insert<'a>(set: &mut NameSet<'a>, name: &'a str) -> Result<(), AllocError>
    ensures { OnOk result (Puts set.old set.new name.now) }
{
    let Ok(_) = set.insert(NameKey::new(name)) else {
        return Err(AllocError);
    };
    Ok(())
}

// Those names that aren't in the set, in their order.
fn outside(alloc: Global, set: &NameSet<'_>, names: &[Name]) -> Result<Vec<Name>, AllocError>
    ensures { IfOk result (λ left. left.items ≡ names_outside set.now names.now) }
{
    let mut left = Vec::new(alloc);
    for name in names {
        push_outside(alloc, set, name, &mut left)?;
    }
    Ok(left)
}

// Adds a name to the others, where it isn't in the set.
fn push_outside(
    alloc: Global,
    set: &NameSet<'_>,
    name: &Name,
    left: &mut Vec<Name>,
) -> Result<(), AllocError>
    ensures { OnOk result (left.new.items ≡ left.old.items ++ names_outside set.now (name.now ∷ [])) }
{
    if !set.contains(&NameKey::new(name.as_str())) {
        left.push(name.copy(alloc)?)?;
    }
    Ok(())
}
