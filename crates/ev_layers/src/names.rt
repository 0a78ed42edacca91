ghost use Rattle.std.specs.Prelude.{◌≡◌, ℕ, Bool, List};

use ev_types::{Gen, Shared, TryCopy};
use indexmap::Equivalent;
use std::alloc::{AllocError, Global};
use std::hash::{Hash, Hasher};
use std::marker::Model;

/// A cluster or a listener of a picture: the generation of a number, under a name.
pub trait Row: Drop {
    ghost number_of: { Self → ℕ };

    ghost name_of: { Self → List ℕ };

    ghost same: { Self → Self → Bool };

    /// The number of its generation.
    fn number(&self) -> Gen
        ensures { result ≡ number_of self.now };

    /// Its name.
    fn name(&self) -> &str
        ensures { result.now ≡ name_of self.now };

    /// Whether it is the same as another.
    fn is_same(&self, other: &Self) -> bool
        ensures { result ≡ same self.now other.now };
}

/// A row as the key of its name.
#[derive(Drop)]
pub(crate) struct NameOf<T: Row> {
    row: Shared<T>,
}

impl<T: Row> Model for NameOf<T> {
    ghost use Rattle.std.specs.Prelude.{List, ℕ};

    ghost Value = { List ℕ };

    ghost view = { λ n. T.name_of n.row };
}

impl<T: Row> NameOf<T> {
    /// The key of this row's name.
    pub(crate) fn new(row: Shared<T>) -> NameOf<T>
        ensures { result ≡ T.name_of row }
    {
        NameOf { row }
    }

    /// The name.
    pub(crate) fn as_str(&self) -> &str
        ensures { result.now ≡ self.now }
    {
        self.row.get().name()
    }
}

impl<T: Row> TryCopy for NameOf<T> {
    fn copy(&self, _alloc: Global) -> Result<NameOf<T>, AllocError> {
        Ok(NameOf {
            row: self.row.share()?,
        })
    }
}

impl<T: Row> PartialEq for NameOf<T> {
    ghost use Rattle.std.specs.Str.{bytes_eq};
    ghost use Rattle.std.specs.Cmp.Rules.{comparing};
    ghost use Rattle.std.proofs.Common.{rules};

    ghost eq = { bytes_eq };

    ghost laws = { Prim.search (comparing, rules) };

    fn eq(&self, other: &NameOf<T>) -> bool {
        self.as_str() == other.as_str()
    }
}

impl<T: Row> Eq for NameOf<T> {
    ghost use Rattle.std.specs.Cmp.Rules.{comparing};
    ghost use Rattle.std.proofs.Common.{rules};

    ghost laws = { Prim.search (comparing, rules) };
}

impl<T: Row> Hash for NameOf<T> {
    ghost use Rattle.std.specs.Cmp.Rules.{hashing};
    ghost use Rattle.std.specs.Hash as fed;
    ghost use Rattle.std.proofs.Common.{rules};

    ghost hash_input = { fed.str };

    ghost respects_eq = { Prim.search (hashing, rules) };

    fn hash<H: Hasher>(&self, state: &mut H) {
        self.as_str().hash(state);
    }
}

impl<T: Row> Equivalent<NameOf<T>> for &str {
    ghost use Rattle.std.specs.Str.{bytes_eq};
    ghost use Rattle.std.specs.Cmp.Lexicographic.{bytes_decides, nat_list_eq_equiv};
    ghost use Rattle.std.specs.Hash as fed;
    ghost use Rattle.std.proofs.Common.{ap};

    ghost equivalent = { λ q k. bytes_eq q.now k };

    ghost respects_hash = { λ q k h. ap fed.str ((bytes_decides q.now k).0 h) };

    ghost respects_eq = { λ q x y. nat_list_eq_equiv.congr q.now x y };

    fn equivalent(&self, key: &NameOf<T>) -> bool {
        *self == key.as_str()
    }
}
