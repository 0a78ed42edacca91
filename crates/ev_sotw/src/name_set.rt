ghost use Rattle.std.specs.Prelude.{◌≡◌, [], map, IfOk, OnOk, OnErr};
ghost use Rattle.serde_json.specs.Data.{string};
ghost use Rattle.serde_json.specs.View.{view};
ghost use Rattle.ev_model.specs.Verdicts.{is_among};
ghost use Rattle.ev_model.specs.Requests.{other_than};
ghost use Rattle.ev_sotw.specs.Names.{IsInOrder, PutsOther, with_name, with_names, without_name};

use ev_types::Name;
use serde_json::{Value, json};
use std::alloc::{AllocError, Global};
use std::collections::BTreeSet;
use std::marker::Model;

/// A set of names, seen as a list: in the order of their bytes, each once.
#[derive(Drop)]
pub struct NameSet {
    names: BTreeSet<String>,
}

impl Model for NameSet {
    ghost use Rattle.std.specs.Prelude.{ℕ, List, map};
    ghost use Rattle.std.specs.String.{string_bytes};
    ghost use Rattle.ev_sotw.specs.Names.{IsInOrder};

    ghost Value = { List (List ℕ) };

    ghost view = { λ s. map string_bytes s.names.keys };

    ghost invariant = { λ s. IsInOrder (map string_bytes s.names.keys) };
}

impl NameSet {
    /// The set without names. It takes no memory.
    pub fn new(alloc: Global) -> NameSet
        ensures { result ≡ [] }
    {
        NameSet {
            names: BTreeSet::new(alloc),
        }
    }

    /// Adds a name to the others.
    ///
    /// # Errors
    /// `AllocError` where there is no memory for it; the names stay as they were then.
    pub fn insert(&mut self, alloc: Global, name: &str) -> Result<(), AllocError>
        ensures ok { OnOk result (self.new ≡ with_name name.now self.old) }
        ensures err { OnErr result (self.new ≡ self.old) }
    {
        self.names.insert(String::from_str(alloc, name)?)?;
        Ok(())
    }

    /// Adds names to the others.
    ///
    /// # Errors
    /// `AllocError` where there is no memory for them all; some may be there then.
    pub fn insert_all(&mut self, alloc: Global, names: &[Name]) -> Result<(), AllocError>
        ensures { OnOk result (self.new ≡ with_names names.now self.old) }
    {
        self.keeps_order();
        for name in names {
            self.insert(alloc, name.as_str())?;
        }
        Ok(())
    }

    /// Takes a name away, where it is there.
    pub fn remove(&mut self, name: &str)
        ensures { self.new ≡ without_name name.now self.old }
    {
        self.names.remove(name);
    }

    /// Takes names away, those that are there.
    pub fn remove_all(&mut self, names: &[Name])
        ensures { self.new ≡ other_than names.now self.old }
    {
        for name in names {
            self.remove(name.as_str());
        }
    }

    /// What every set keeps: its names are in order. It does nothing.
    pub fn keeps_order(&self)
        ensures { IsInOrder self.now }
    {
        let _ = &self.names;
    }

    /// Whether a name is there.
    pub fn contains(&self, name: &str) -> bool
        ensures { result ≡ is_among name.now self.now }
    {
        self.names.contains(name)
    }

    /// The names as JSON texts, in order.
    ///
    /// # Errors
    /// `AllocError` where there is no memory for them.
    pub fn values(&self, alloc: Global) -> Result<Vec<Value>, AllocError>
        ensures { IfOk result (λ values. map view values.items ≡ map string self.now) }
    {
        let mut values = Vec::new(alloc);
        for name in &self.names {
            values.push(json!(in alloc; name.as_str())?)?;
        }
        Ok(values)
    }

    /// Those names that aren't among the others, as JSON texts, in order.
    ///
    /// # Errors
    /// `AllocError` where there is no memory for them.
    pub fn values_without(&self, alloc: Global, others: &NameSet) -> Result<Vec<Value>, AllocError>
        ensures { IfOk result (λ values. map view values.items ≡ map string (other_than others.now self.now)) }
    {
        let mut values = Vec::new(alloc);
        for name in &self.names {
            others.push_other(alloc, name.as_str(), &mut values)?;
        }
        Ok(values)
    }

    // Appends a name to the values, where it isn't in the set.
    fn push_other(
        &self,
        alloc: Global,
        name: &str,
        values: &mut Vec<Value>,
    ) -> Result<(), AllocError>
        ensures { OnOk result (PutsOther self.now name.now values.old.items values.new.items) }
    {
        if !self.contains(name) {
            values.push(json!(in alloc; name)?)?;
        }
        Ok(())
    }
}
