ghost use Rattle.std.specs.Prelude.{◌≡◌, [], Decides, IsSome, OnOk, OnErr};
ghost use Rattle.std.specs.Map.{lookup};
ghost use Rattle.ev_lookups.specs.Keys.{key_same, named};
ghost use Rattle.ev_indexes.specs.Kept.{Sets};
ghost use Rattle.ev_indexes.specs.Standings.{nobody, standing_in};

use ev_keys::Keys;
use ev_lookups::{Key, KeyText};
use ev_types::{Gen, Kind, Name};
use indexmap::IndexMap;
use std::alloc::{AllocError, Global};
use std::marker::Model;

/// Which generations of a name are live: at most one serves and at most one warms.
#[derive(Clone, Copy, Debug, PartialEq, Eq)]
pub struct Standing {
    pub active: Option<Gen>,
    pub warming: Option<Gen>,
}

/// By kind and name which generations are live. A name of which none is live has no entry.
#[derive(Drop)]
pub struct Names {
    names: IndexMap<Key, Standing, Keys>,
}

impl Model for Names {
    ghost use Rattle.ev_indexes.specs.Kept.{HasNoDefault};
    ghost use Rattle.ev_indexes.specs.Standings.{NamesKept, nobody};

    ghost Value = { NamesKept };

    ghost view = { λ n. n.names.entries };

    ghost invariant = { λ n. HasNoDefault nobody n.names.entries };
}

impl Names {
    /// No name. Names are hashed by these keys. It takes no memory.
    pub fn new(alloc: Global, keys: Keys) -> Names
        ensures { result ≡ [] }
    {
        Names {
            names: IndexMap::with_hasher(alloc, keys),
        }
    }

    /// Which generations of the name of a kind are live.
    pub fn standing(&self, kind: Kind, name: &Name) -> Standing
        ensures { result ≡ standing_in self.now (named kind name.now) }
    {
        self.standing_of(kind, name.as_str())
    }

    /// The same for a text, of which none is live where it is no name.
    pub fn standing_of(&self, kind: Kind, text: &str) -> Standing
        ensures { result ≡ standing_in self.now (named kind text.now) }
    {
        match self.names.get(&KeyText::new(kind, text)) {
            Some(standing) => *standing,
            None => Standing {
                active: None,
                warming: None,
            },
        }
    }

    /// These generations of the name are live. Out of memory, all stays as it was.
    pub fn enter(&mut self, kind: Kind, name: Name, standing: Standing) -> Result<(), AllocError>
        ensures ok { OnOk result (Sets nobody self.old self.new (named kind name) standing) }
        ensures err { OnErr result (self.new ≡ self.old) }
    {
        let key = Key { kind, name };
        if is_nobody(&standing) {
            self.names.swap_remove(&key);
            return Ok(());
        }
        let Ok(_) = self.names.insert(key, standing) else {
            return Err(AllocError);
        };
        Ok(())
    }

    /// These generations of a name are live, of which some were before. It takes no memory.
    pub fn set(&mut self, kind: Kind, name: &Name, standing: Standing)
        requires { IsSome (lookup (key_same (named kind name.now)) self.old) }
        ensures { Sets nobody self.old self.new (named kind name.now) standing }
    {
        let key = key(kind, name);
        if is_nobody(&standing) {
            self.names.swap_remove(&key);
            return;
        }
        let Some(place) = self.names.get_mut(&key) else {
            unreachable!()
        };
        *place = standing;
    }
}

/// The key of a name of a kind.
pub(crate) fn key(kind: Kind, name: &Name) -> KeyText<'_>
    ensures { result ≡ named kind name.now }
{
    KeyText::new(kind, name.as_str())
}

// Whether no generation is live.
fn is_nobody(standing: &Standing) -> bool
    ensures { Decides result (standing.now ≡ nobody) }
{
    standing.active.is_none() && standing.warming.is_none()
}
