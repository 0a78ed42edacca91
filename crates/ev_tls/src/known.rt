ghost use Rattle.std.specs.Prelude.{◌≡◌, ◌∷◌, [], ℕ, List, map, take, false, true, None, option_map, IfOk, OnOk};
ghost use Rattle.serde_json.specs.View.{view};
ghost use Rattle.ev_lookups.specs.Mentions.{Puts};
ghost use Rattle.ev_trees.specs.Kept.{kept_shown};
ghost use Rattle.ev_tls.specs.declared.awaited.Awaited.{Awaited};
ghost use Rattle.ev_tls.specs.declared.awaited.Awaited.TheVariants.{Endpoints};
ghost use Rattle.ev_tls.specs.Awaited.{services_of};
ghost use Rattle.ev_tls.specs.Known.{are_told, has_told, first_told, first_untold, next_of, AddsAll, Adds, AreNamesOf, PutsValue, TakesValues, shown_value};
ghost use Rattle.ev_tls.specs.Told.{value_shown};

use crate::awaited::Awaited;
use ev_expand::Key;
use ev_keys::Keys;
use ev_trees::KeptTree;
use ev_types::{Discovery, Name, TryCopy};
use indexmap::{IndexMap, IndexSet};
use serde_json::Value;
use std::alloc::{AllocError, Global};

/// What has come: each name is found by a look-up.
#[derive(Drop)]
pub(crate) struct Told {
    pub secrets: IndexSet<Name, Keys>,
    pub endpoints: IndexSet<Name, Keys>,
}

impl Told {
    /// Nothing has come. It takes no memory.
    pub(crate) fn new(alloc: Global, keys: Keys) -> Told
        ensures { (awaited : Awaited) → has_told result awaited ≡ false }
    {
        Told {
            secrets: IndexSet::with_hasher(alloc, keys),
            endpoints: IndexSet::with_hasher(alloc, keys),
        }
    }

    /// This has come too.
    pub(crate) fn add(&mut self, awaited: Awaited) -> Result<(), AllocError>
        ensures { OnOk result (Adds self.old self.new awaited) }
    {
        match awaited {
            Awaited::Secret(name) => insert(&mut self.secrets, name),
            Awaited::Endpoints(name) => insert(&mut self.endpoints, name),
        }
    }

    /// All of these have come too.
    pub(crate) fn add_all(&mut self, all: Vec<Awaited>) -> Result<(), AllocError>
        ensures { OnOk result (AddsAll self.old self.new all.items) }
    {
        for awaited in all {
            self.add(awaited)?;
        }
        Ok(())
    }

    /// How many of these secrets, from the first on, have come. As many as have passed need no look-up.
    pub(crate) fn first_told(&self, secrets: &[Name], passed: usize) -> usize
        ensures { are_told self.now (take passed secrets.now) ≡ true → result ≡ first_told self.now secrets.now }
    {
        for index in passed..secrets.len() {
            if !self.secrets.contains(&secrets[index]) {
                return index;
            }
        }
        secrets.len()
    }

    /// The first of what the clusters of a key wait for that hasn't come, where this many of its secrets, from the
    /// first on, have come.
    pub(crate) fn next_of(
        &self,
        alloc: Global,
        key: &Key,
        passed: usize,
    ) -> Result<Option<Awaited>, AllocError>
        ensures { passed ≡ first_told self.now key.now.names → IfOk result (λ next. next ≡ next_of self.now key.now) }
    {
        match key.names.as_slice().get(passed) {
            Some(name) => Ok(Some(Awaited::Secret(name.copy(alloc)?))),
            None => self.next_service(alloc, &key.cluster.discovery),
        }
    }

    // The endpoints that a cluster asks for, where they haven't come.
    fn next_service(
        &self,
        alloc: Global,
        discovery: &Discovery,
    ) -> Result<Option<Awaited>, AllocError>
        ensures { IfOk result (λ next. next ≡ first_untold self.now (map Endpoints (services_of discovery.now))) }
    {
        match discovery {
            Discovery::Eds { service, .. } => self.next_endpoints(alloc, service),
            Discovery::Static(_) => Ok(None),
            Discovery::Elsewhere => Ok(None),
        }
    }

    // The endpoints of this name, where they haven't come.
    fn next_endpoints(&self, alloc: Global, service: &Name) -> Result<Option<Awaited>, AllocError>
        ensures { IfOk result (λ next. next ≡ first_untold self.now (Endpoints service.now ∷ [])) }
    {
        if self.endpoints.contains(service) {
            return Ok(None);
        }
        Ok(Some(Awaited::Endpoints(service.copy(alloc)?)))
    }
}

// Puts a name into a set.
fn insert(names: &mut IndexSet<Name, Keys>, name: Name) -> Result<(), AllocError>
    ensures { OnOk result (Puts names.old names.new name) }
{
    let Ok(_) = names.insert(name) else {
        return Err(AllocError);
    };
    Ok(())
}

/// The values of names of endpoints, each kept as its text.
#[derive(Drop)]
pub(crate) struct Values {
    pub by_name: IndexMap<Name, KeptTree, Keys>,
}

impl Values {
    /// No value. It takes no memory.
    pub(crate) fn new(alloc: Global, keys: Keys) -> Values
        ensures { (name : List ℕ) → shown_value result name ≡ None }
    {
        Values {
            by_name: IndexMap::with_hasher(alloc, keys),
        }
    }

    /// The last value of a name.
    pub(crate) fn get(&self, name: &Name) -> Option<&KeptTree>
        ensures { option_map (λ v. kept_shown v.now) result ≡ shown_value self.now name.now }
    {
        self.by_name.get(name)
    }

    /// Takes these values, each in place of the one before, and returns which names they are of.
    pub(crate) fn take_all(
        &mut self,
        alloc: Global,
        values: Vec<(Name, Value)>,
    ) -> Result<IndexSet<Name, Keys>, AllocError>
        ensures values { OnOk result (TakesValues (map value_shown values.items) self.old self.new) }
        ensures names { IfOk result (AreNamesOf (map value_shown values.items)) }
    {
        let mut names = IndexSet::with_hasher(alloc, *self.by_name.hasher());
        for (name, value) in values {
            insert(&mut names, name.copy(alloc)?)?;
            self.put(alloc, name, value)?;
        }
        Ok(names)
    }

    // Takes a value in place of the one before.
    fn put(&mut self, alloc: Global, name: Name, value: Value) -> Result<(), AllocError>
        ensures { OnOk result (PutsValue name (view value) self.old self.new) }
    {
        let kept = KeptTree::of(alloc, &value)?;
        let Ok(_) = self.by_name.insert(name, kept) else {
            return Err(AllocError);
        };
        Ok(())
    }
}
