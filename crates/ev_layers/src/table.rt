ghost use Rattle.std.specs.Prelude.{◌≡◌, ◌++◌, ◌∷◌, [], None, Some, IfOk, OnOk};
ghost use Rattle.std.specs.Option.{option_copied};
ghost use Rattle.indexmap.specs.IndexMap.{get, hasher_of};
ghost use Rattle.ev_layers.specs.Layers.{HasOverBase, HaveSame, LooksBelow, LooksOver, SetsAt, SetsEntry, SetsNew, entry_at, entry_by, entry_in, found, found_by, is_short};

use ev_keys::Keys;
use ev_types::{Seq, Shared, TryCopy};
use indexmap::{Equivalent, IndexMap};
use std::alloc::{AllocError, Global};
use std::hash::Hash;
use std::sync::Arc;

/// What is another entry of a table than below, or none.
pub(crate) type Layer<K, V> = IndexMap<K, Option<V>, Keys>;

/// A table in layers. Over a base lie layers of what is another entry since, or none, the newest first; many snapshots
/// share them. What changes now lies over all. The base and each layer are at least four times as long as the one over
/// them: so there are few, and a copy, which shares them, costs as much as there are.
#[derive(Drop)]
pub struct Table<K: Eq + Hash, V> {
    pub(crate) base: Arc<IndexMap<K, V, Keys>>,
    pub(crate) layers: Seq<Shared<Layer<K, V>>>,
    pub(crate) over: Layer<K, V>,
}

impl<K: Eq + Hash + TryCopy + Drop, V: TryCopy + Drop> Table<K, V> {
    /// A table without entries, which hashes by these keys.
    pub fn new(alloc: Global, keys: Keys) -> Result<Table<K, V>, AllocError>
        ensures { IfOk result (λ table. (key : K) → found K.eq table key ≡ None) }
    {
        Ok(Table {
            base: Arc::new(alloc, IndexMap::with_hasher(alloc, keys))?,
            layers: Seq::new(alloc),
            over: IndexMap::with_hasher(alloc, keys),
        })
    }

    /// The keys by which it hashes.
    pub fn keys(&self) -> Keys
        ensures { result ≡ hasher_of self.now.over }
    {
        *self.over.hasher()
    }

    /// What it has under a key, by a look-up in each layer at most.
    pub fn get<Q: Equivalent<K> + Copy>(&self, key: Q) -> Option<&V>
        ensures { option_copied result ≡ found_by (Q.equivalent key) self.now }
    {
        match self.entry(key) {
            Some(Some(value)) => Some(value),
            Some(None) => None,
            None => self.base.get(key),
        }
    }

    // What lies over the base under a key.
    fn entry<Q: Equivalent<K> + Copy>(&self, key: Q) -> Option<&Option<V>>
        ensures { option_copied result ≡ entry_by (Q.equivalent key) self.now }
    {
        match self.over.get(key) {
            Some(entry) => Some(entry),
            None => entry_in(self.layers.as_slice(), key),
        }
    }

    /// Has this under a key from now on, or nothing.
    pub fn set(&mut self, key: K, value: Option<V>) -> Result<(), AllocError>
        ensures { OnOk result (SetsEntry K.eq key value self.old self.new) }
    {
        put(&mut self.over, key, value)
    }

    /// The same table, with the base and the layers shared.
    pub fn copy(&self, alloc: Global) -> Result<Table<K, V>, AllocError>
        ensures { IfOk result (λ table. (key : K) → found K.eq table key ≡ found K.eq self.now key) }
    {
        Ok(Table {
            base: Arc::try_clone(&self.base)?,
            layers: self.layers.copy(alloc)?,
            over: copy_of(alloc, &self.over)?,
        })
    }

    /// Makes a layer of what lies over all layers, so that copies share it. Under each key it has the same, also out of
    /// memory.
    pub fn settle(&mut self, alloc: Global) -> Result<(), AllocError>
        ensures { (key : K) → found K.eq self.new key ≡ found K.eq self.old key }
    {
        if self.over.len() == 0 {
            return Ok(());
        }
        *self = self.settled(alloc)?;
        Ok(())
    }

    // The same table, with nothing over its layers.
    fn settled(&self, alloc: Global) -> Result<Table<K, V>, AllocError>
        ensures { IfOk result (λ table. (key : K) → found K.eq table key ≡ found K.eq self.now key) }
    {
        let (top, layers) = joined(alloc, &self.over, self.layers.as_slice())?;
        if layers.len() == 0 && is_short(self.base.len(), top.len()) {
            return self.rebased(alloc, &top);
        }
        self.layered(alloc, top, layers)
    }

    // The table with this in a base of its own, and nothing over it.
    fn rebased(&self, alloc: Global, top: &Layer<K, V>) -> Result<Table<K, V>, AllocError>
        ensures { IfOk result (HasOverBase K.eq (get K.eq top.now) self.now) }
    {
        let mut base = copy_of(alloc, &*self.base)?;
        put_over(alloc, &mut base, top)?;
        Ok(Table {
            base: Arc::new(alloc, base)?,
            layers: Seq::new(alloc),
            over: IndexMap::with_hasher(alloc, self.keys()),
        })
    }

    // The table of these layers over the same base.
    fn layered(
        &self,
        alloc: Global,
        top: Layer<K, V>,
        layers: Seq<Shared<Layer<K, V>>>,
    ) -> Result<Table<K, V>, AllocError>
        ensures { IfOk result (HasOverBase K.eq (entry_at K.eq (top ∷ layers)) self.now) }
    {
        let mut layers = layers;
        layers.insert(0, Shared::new(alloc, top)?)?;
        Ok(Table {
            base: Arc::try_clone(&self.base)?,
            layers,
            over: IndexMap::with_hasher(alloc, self.keys()),
        })
    }
}

// What the first of these layers that has a key has under it.
fn entry_in<'a, K: Eq + Hash, V, Q: Equivalent<K> + Copy>(
    layers: &'a [Shared<Layer<K, V>>],
    key: Q,
) -> Option<&'a Option<V>>
    ensures { option_copied result ≡ entry_in (Q.equivalent key) layers.now }
{
    for layer in layers {
        if let Some(entry) = layer.get().get(key) {
            return Some(entry);
        }
    }
    None
}

// What goes over these layers, copied and joined with those that are too short for it, and the layers that are left.
fn joined<K: Eq + Hash + TryCopy + Drop, V: TryCopy + Drop>(
    alloc: Global,
    over: &Layer<K, V>,
    layers: &[Shared<Layer<K, V>>],
) -> Result<(Layer<K, V>, Seq<Shared<Layer<K, V>>>), AllocError>
    ensures { IfOk result (λ new. HaveSame K.eq (over.now ∷ layers.now) (new.0 ∷ new.1)) }
{
    let mut top = copy_of(alloc, over)?;
    let mut left = Seq::new(alloc);
    for layer in layers {
        join_or_leave(alloc, &mut top, &mut left, layer)?;
    }
    Ok((top, left))
}

// Joins a layer with what goes over it, where no newer one is left and it is too short, or else leaves it.
fn join_or_leave<K: Eq + Hash + TryCopy + Drop, V: TryCopy + Drop>(
    alloc: Global,
    top: &mut Layer<K, V>,
    left: &mut Seq<Shared<Layer<K, V>>>,
    layer: &Shared<Layer<K, V>>,
) -> Result<(), AllocError>
    ensures { OnOk result (HaveSame K.eq (top.old ∷ left.old ++ layer.now ∷ []) (top.new ∷ left.new)) }
{
    if left.len() == 0 && is_short(layer.get().len(), top.len()) {
        put_below(alloc, top, layer.get())?;
        return Ok(());
    }
    left.push(layer.share()?)?;
    Ok(())
}

// Whether what is so long isn't four times as long as what goes over it.
#[tactic(auto, using(crate::proofs::LengthLemmas::below_four_times))]
fn is_short(length: usize, over: usize) -> bool
    ensures { result ≡ is_short length over }
{
    length / 4 < over
}

// Puts a value in place of that of its key.
fn put<K: Eq + Hash + Drop, V: Drop>(
    map: &mut IndexMap<K, V, Keys>,
    key: K,
    value: V,
) -> Result<(), AllocError>
    ensures { OnOk result (SetsAt K.eq key (Some value) (get K.eq map.old) (get K.eq map.new)) }
{
    let Ok(_) = map.insert(key, value) else {
        return Err(AllocError);
    };
    Ok(())
}

// Puts a value in place of that of its key, or removes the key.
fn put_or_remove<K: Eq + Hash + Drop, V: Drop>(
    map: &mut IndexMap<K, V, Keys>,
    key: K,
    value: Option<V>,
) -> Result<(), AllocError>
    ensures { OnOk result (SetsAt K.eq key value (get K.eq map.old) (get K.eq map.new)) }
{
    match value {
        Some(value) => put(map, key, value),
        None => {
            map.swap_remove(&key);
            Ok(())
        }
    }
}

// A map with the same under each key, in memory of its own. It hashes by the same keys.
fn copy_of<K: Eq + Hash + TryCopy + Drop, V: TryCopy + Drop>(
    alloc: Global,
    map: &IndexMap<K, V, Keys>,
) -> Result<IndexMap<K, V, Keys>, AllocError>
    ensures { IfOk result (λ copied. (key : K) → get K.eq copied key ≡ get K.eq map.now key) }
{
    let mut copied = IndexMap::with_hasher(alloc, *map.hasher());
    put_below(alloc, &mut copied, map)?;
    Ok(copied)
}

// Puts what an older map has into one, but under its keys.
fn put_below<K: Eq + Hash + TryCopy + Drop, V: TryCopy + Drop>(
    alloc: Global,
    map: &mut IndexMap<K, V, Keys>,
    older: &IndexMap<K, V, Keys>,
) -> Result<(), AllocError>
    ensures { OnOk result (LooksBelow (get K.eq older.now) (get K.eq map.old) (get K.eq map.new)) }
{
    for (key, value) in older {
        put_new(alloc, map, key, value)?;
    }
    Ok(())
}

// Puts a copy of a value under its key, where there is none.
fn put_new<K: Eq + Hash + TryCopy + Drop, V: TryCopy + Drop>(
    alloc: Global,
    map: &mut IndexMap<K, V, Keys>,
    key: &K,
    value: &V,
) -> Result<(), AllocError>
    ensures { OnOk result (SetsNew K.eq key.now value.now (get K.eq map.old) (get K.eq map.new)) }
{
    if map.contains_key(key) {
        return Ok(());
    }
    put(map, key.copy(alloc)?, value.copy(alloc)?)?;
    Ok(())
}

// Puts what lies over a base into it.
fn put_over<K: Eq + Hash + TryCopy + Drop, V: TryCopy + Drop>(
    alloc: Global,
    base: &mut IndexMap<K, V, Keys>,
    over: &Layer<K, V>,
) -> Result<(), AllocError>
    ensures { OnOk result (LooksOver (get K.eq over.now) (get K.eq base.old) (get K.eq base.new)) }
{
    for (key, value) in over {
        put_copy_or_remove(alloc, base, key, value)?;
    }
    Ok(())
}

// Puts a copy of a value in place of that of its key, or removes the key.
fn put_copy_or_remove<K: Eq + Hash + TryCopy + Drop, V: TryCopy + Drop>(
    alloc: Global,
    map: &mut IndexMap<K, V, Keys>,
    key: &K,
    value: &Option<V>,
) -> Result<(), AllocError>
    ensures { OnOk result (SetsAt K.eq key.now value.now (get K.eq map.old) (get K.eq map.new)) }
{
    put_or_remove(map, key.copy(alloc)?, value.copy(alloc)?)?;
    Ok(())
}
