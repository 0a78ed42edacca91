ghost use Rattle.std.specs.Prelude.{◌≡◌, ◌<◌, ◌++◌, ◌∷◌, [], length, slice_get, option_map, true, false, OnOk, IfSome, IfNone};
ghost use Rattle.std.specs.List.{list_any};
ghost use Rattle.serde_json.specs.View.{view};
ghost use Rattle.ev_expand.specs.Keys.{key_same};
ghost use Rattle.ev_expand.specs.Guarding.{Guarded, place_in};
ghost use Rattle.ev_expand.specs.Numbers.{found_shown, guarded_as, guarded_so_far};

use crate::keys::Key;
use ev_keys::Keys;
use ev_trees::KeptTree;
use indexmap::IndexMap;
use serde_json::Value;
use std::alloc::{AllocError, Global};

/// What is guarded so far: each key once, in the order of first appearance, and what is kept of its first item. A key
/// is found by a look-up; its place, from 0, is one below its number.
#[derive(Drop)]
pub struct Numbers {
    /// By key what is kept of its first item, as its text.
    pub firsts: IndexMap<Key, KeptTree, Keys>,
}

impl Numbers {
    /// Nothing is guarded. It takes no memory, and hashes by these keys.
    pub fn new(alloc: Global, keys: Keys) -> Numbers
        ensures { guarded_so_far result ≡ [] }
    {
        Numbers {
            firsts: IndexMap::with_hasher(alloc, keys),
        }
    }

    /// How many keys there are.
    pub fn len(&self) -> usize
        ensures { result ≡ length (guarded_so_far self.now) }
    {
        self.firsts.len()
    }

    /// The key at a place, and what is kept of its first item.
    pub fn get(&self, place: usize) -> Option<(&Key, &KeptTree)>
        ensures { option_map found_shown result ≡ slice_get (guarded_so_far self.now) place }
    {
        self.firsts.get_index(place)
    }

    /// The place of a key, where it has one.
    pub(crate) fn find(&self, key: &Key) -> Option<usize>
        ensures some { IfSome result (λ place. place ≡ place_in (guarded_so_far self.now) key.now) }
        ensures within { IfSome result (λ place. place < length (guarded_so_far self.now)) }
        ensures found { IfSome result (λ _. list_any (λ g. key_same key.now g.key) (guarded_so_far self.now) ≡ true) }
        ensures none { IfNone result (list_any (λ g. key_same key.now g.key) (guarded_so_far self.now) ≡ false) }
    {
        self.firsts.get_index_of(key)
    }

    /// Appends a key that has no place yet to the others, with what is kept of its first item.
    pub(crate) fn push(&mut self, alloc: Global, key: Key, own: &Value) -> Result<(), AllocError>
        requires { list_any (λ g. key_same key g.key) (guarded_so_far self.old) ≡ false }
        ensures { OnOk result (guarded_so_far self.new ≡ guarded_so_far self.old ++ guarded_as key (view own.now) ∷ []) }
    {
        let kept = KeptTree::of(alloc, own)?;
        let Ok(_) = self.firsts.insert(key, kept) else {
            return Err(AllocError);
        };
        Ok(())
    }
}
