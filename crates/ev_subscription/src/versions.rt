ghost use Rattle.std.specs.Prelude.{◌≡◌, ◌++◌, [], ◌∷◌, IfOk, OnOk, OnErr};
ghost use Rattle.std.specs.Map.{lookup};
ghost use Rattle.std.specs.BTreeMap.{insert_entry, is_at, IsOrdered};
ghost use Rattle.std.specs.Option.{option_copied};
ghost use Rattle.ev_lookups.specs.Keys.{named};
ghost use Rattle.ev_model.specs.Versions.{is_bounded, is_kept, renewed, versions_of, without_version};
ghost use Rattle.ev_subscription.specs.Held.{key_order, versions_in};

use crate::keys::{VersionKey, VersionText};
use ev_types::{Kind, Name, Seq, Shared, Text, TryCopy};
use std::alloc::{AllocError, Global};
use std::collections::BTreeMap;

/// What is held of a resource: its version, and whether its life is bounded. Copies share the version.
#[derive(Drop)]
pub(crate) struct Held {
    pub(crate) version: Shared<Text>,
    pub(crate) bounded: bool,
}

impl Clone for Held {
    ghost use Rattle.std.specs.Prelude.{◌≡◌};

    ghost is_clone = { λ held copied. copied ≡ held };

    // A copy shares the version.
    fn clone(&self) -> Result<Held, AllocError> {
        Ok(Held {
            version: self.version.share()?,
            bounded: self.bounded,
        })
    }
}

/// By kind and name what is held, in this order.
pub(crate) type Versions = BTreeMap<VersionKey, Held>;

/// Holds this under the key, in place of what was held. Out of memory, all is as before.
pub(crate) fn hold(versions: &mut Versions, key: VersionKey, held: Held) -> Result<(), AllocError>
    ensures entries { OnOk result (versions.new.entries ≡ insert_entry key_order versions.old.entries key held) }
    ensures err { OnErr result (versions.new.entries ≡ versions.old.entries) }
    ensures ordered { IsOrdered key_order versions.old }
{
    // They are in the order of their keys.
    let _ = versions.len();
    let Ok(_) = versions.insert(key, held) else {
        return Err(AllocError);
    };
    Ok(())
}

/// Forgets what is held of the name. It takes no memory.
pub(crate) fn forget(versions: &mut Versions, kind: Kind, name: &str)
    ensures { versions_in versions.new.entries ≡ without_version kind name.now (versions_in versions.old.entries) }
{
    // They are in the order of their keys.
    let _ = versions.len();
    let _ = versions.remove(&VersionText::new(kind, name));
}

/// Whether this version is held of the name.
pub(crate) fn is_kept(versions: &Versions, kind: Kind, name: &str, version: &str) -> bool
    ensures { result ≡ is_kept (versions_in versions.now.entries) kind name.now version.now }
{
    match find(versions, kind, name) {
        Some(held) => held.version.get().as_str() == version,
        None => false,
    }
}

/// Whether the life of the resource of this name is bounded.
pub(crate) fn is_bounded(versions: &Versions, kind: Kind, name: &str) -> bool
    ensures { result ≡ is_bounded (versions_in versions.now.entries) kind name.now }
{
    match find(versions, kind, name) {
        Some(held) => held.bounded,
        None => false,
    }
}

// What is held of the name, where something is.
fn find<'a>(versions: &'a Versions, kind: Kind, name: &str) -> Option<&'a Held>
    ensures held { option_copied result ≡ lookup (is_at (key_order (named kind name.now))) versions.now.entries }
    ensures ordered { IsOrdered key_order versions.now }
{
    // They are in the order of their keys.
    let _ = versions.len();
    versions.get(&VersionText::new(kind, name))
}

/// Bounds the life of the resource of this name, where it is held. It takes no memory.
pub(crate) fn bound(versions: &mut Versions, kind: Kind, name: &str)
    ensures { versions_in versions.new.entries ≡ renewed kind name.now (versions_in versions.old.entries) }
{
    // They are in the order of their keys.
    let _ = versions.len();
    if let Some(held) = versions.get_mut(&VersionText::new(kind, name)) {
        held.bounded = true;
    }
}

/// Each name of a kind with its version, in the order of the names. It goes over all versions.
pub(crate) fn list(
    alloc: Global,
    versions: &Versions,
    kind: Kind,
) -> Result<Seq<(Name, Text)>, AllocError>
    ensures { IfOk result (λ list. list ≡ versions_of kind (versions_in versions.now.entries)) }
{
    let mut list = Vec::new(alloc);
    for (key, held) in versions {
        push_of(alloc, kind, key, held, &mut list)?;
    }
    Ok(Seq::from_vec(list))
}

// Puts a name with its version to the others, where it is of the kind.
fn push_of(
    alloc: Global,
    kind: Kind,
    key: &VersionKey,
    held: &Held,
    list: &mut Vec<(Name, Text)>,
) -> Result<(), AllocError>
    ensures { OnOk result (list.new.items ≡ list.old.items
        ++ versions_of kind (versions_in ((key.now, held.now) ∷ []))) }
{
    if key.kind().is(kind) {
        let name = key.name().copy(alloc)?;
        list.push((name, held.version.get().copy(alloc)?))?;
    }
    Ok(())
}
