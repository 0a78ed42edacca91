ghost use Rattle.std.specs.Prelude.{◌≡◌, ◌∷◌, ◌++◌, []};
ghost use Rattle.std.specs.Str.{bytes_eq, str_to_ascii_lowercase};

use crate::host_texts::{DomainText, hash_lower};
use crate::texts::{is_lower, same_lower};
use indexmap::Equivalent;
use std::hash::{Hash, Hasher};
use std::marker::Model;

/// The end of a host text by which a suffix form is looked up.
/// It is seen as that form, with its ASCII letters as lower case, and takes no memory.
#[derive(Drop)]
pub struct SuffixText<'a> {
    tail: &'a [u8],
}

impl<'a> Model for SuffixText<'a> {
    ghost use Rattle.std.specs.Prelude.{List, ℕ, ◌∷◌};
    ghost use Rattle.std.specs.Str.{str_to_ascii_lowercase};

    ghost Value = { List ℕ };

    ghost view = { λ s. 42 ∷ str_to_ascii_lowercase s.tail.now };
}

impl<'a> SuffixText<'a> {
    /// The suffix form of this end.
    pub fn new(tail: &'a [u8]) -> SuffixText<'a>
        ensures { result ≡ 42 ∷ str_to_ascii_lowercase tail.now }
    {
        SuffixText { tail }
    }

    /// Whether the form is this text.
    pub fn is(&self, text: &[u8]) -> bool
        ensures { result ≡ bytes_eq self.now text.now }
    {
        let tail = self.tail;
        if text.is_empty() {
            return false;
        }
        let (_, rest) = text.split_at(1);
        text[0] == b'*' && is_lower(tail, rest)
    }
}

impl<'a> PartialEq for SuffixText<'a> {
    ghost use Rattle.std.specs.Str.{bytes_eq};
    ghost use Rattle.std.specs.Cmp.Rules.{comparing};
    ghost use Rattle.std.proofs.Common.{rules};

    ghost eq = { bytes_eq };

    ghost laws = { Prim.search (comparing, rules) };

    fn eq(&self, other: &SuffixText<'a>) -> bool {
        same_lower(self.tail, other.tail)
    }
}

impl<'a> Eq for SuffixText<'a> {
    ghost use Rattle.std.specs.Cmp.Rules.{comparing};
    ghost use Rattle.std.proofs.Common.{rules};

    ghost laws = { Prim.search (comparing, rules) };
}

impl<'a> Hash for SuffixText<'a> {
    ghost use Rattle.std.specs.Prelude.{flat_map};
    ghost use Rattle.std.specs.Hash as fed;
    ghost use Rattle.std.specs.Cmp.Lexicographic.{bytes_decides};
    ghost use Rattle.std.proofs.Common.{ap};

    ghost hash_input = { flat_map fed.u8 };

    ghost respects_eq = { λ a b same. ap (flat_map fed.u8) ((bytes_decides a b).0 same) };

    fn hash<H: Hasher>(&self, state: &mut H) {
        state.write_u8(b'*');
        hash_lower(self.tail, state);
    }
}

impl<'a> Equivalent<DomainText> for &SuffixText<'a> {
    ghost use Rattle.std.specs.Prelude.{flat_map};
    ghost use Rattle.std.specs.Str.{bytes_eq};
    ghost use Rattle.std.specs.Cmp.Lexicographic.{bytes_decides, nat_list_eq_equiv};
    ghost use Rattle.std.specs.Hash as fed;
    ghost use Rattle.std.proofs.Common.{ap};

    ghost equivalent = { λ q k. bytes_eq q.now k };

    ghost respects_hash = { λ q k h. ap (flat_map fed.u8) ((bytes_decides q.now k).0 h) };

    ghost respects_eq = { λ q x y. nat_list_eq_equiv.congr q.now x y };

    fn equivalent(&self, key: &DomainText) -> bool {
        self.is(key.as_bytes())
    }
}

/// The beginning of a host text by which a prefix form is looked up.
/// It is seen as that form, with its ASCII letters as lower case, and takes no memory.
#[derive(Drop)]
pub(crate) struct PrefixText<'a> {
    head: &'a [u8],
}

impl<'a> Model for PrefixText<'a> {
    ghost use Rattle.std.specs.Prelude.{List, ℕ, [], ◌∷◌, ◌++◌};
    ghost use Rattle.std.specs.Str.{str_to_ascii_lowercase};

    ghost Value = { List ℕ };

    ghost view = { λ s. str_to_ascii_lowercase s.head.now ++ 42 ∷ [] };
}

impl<'a> PrefixText<'a> {
    /// The prefix form of this beginning.
    pub(crate) fn new(head: &'a [u8]) -> PrefixText<'a>
        ensures { result ≡ str_to_ascii_lowercase head.now ++ 42 ∷ [] }
    {
        PrefixText { head }
    }

    // Whether the form is this domain.
    #[tactic(auto, using(crate::proofs::Stars::same_ended))]
    fn is(&self, domain: &DomainText) -> bool
        ensures { result ≡ bytes_eq self.now domain.now }
    {
        let head = self.head;
        let text = domain.as_bytes();
        if text.is_empty() {
            return false;
        }
        let last = text.len() - 1;
        let (front, _) = text.split_at(last);
        text[last] == b'*' && is_lower(head, front)
    }
}

impl<'a> PartialEq for PrefixText<'a> {
    ghost use Rattle.std.specs.Str.{bytes_eq};
    ghost use Rattle.std.specs.Cmp.Rules.{comparing};
    ghost use Rattle.std.proofs.Common.{rules};

    ghost eq = { bytes_eq };

    ghost laws = { Prim.search (comparing, rules) };

    #[tactic(auto, using(crate::proofs::Stars::same_before))]
    fn eq(&self, other: &PrefixText<'a>) -> bool {
        same_lower(self.head, other.head)
    }
}

impl<'a> Eq for PrefixText<'a> {
    ghost use Rattle.std.specs.Cmp.Rules.{comparing};
    ghost use Rattle.std.proofs.Common.{rules};

    ghost laws = { Prim.search (comparing, rules) };
}

impl<'a> Hash for PrefixText<'a> {
    ghost use Rattle.std.specs.Prelude.{flat_map};
    ghost use Rattle.std.specs.Hash as fed;
    ghost use Rattle.std.specs.Cmp.Lexicographic.{bytes_decides};
    ghost use Rattle.std.proofs.Common.{ap};

    ghost hash_input = { flat_map fed.u8 };

    ghost respects_eq = { λ a b same. ap (flat_map fed.u8) ((bytes_decides a b).0 same) };

    fn hash<H: Hasher>(&self, state: &mut H) {
        hash_lower(self.head, state);
        state.write_u8(b'*');
    }
}

impl<'a> Equivalent<DomainText> for &PrefixText<'a> {
    ghost use Rattle.std.specs.Prelude.{flat_map};
    ghost use Rattle.std.specs.Str.{bytes_eq};
    ghost use Rattle.std.specs.Cmp.Lexicographic.{bytes_decides, nat_list_eq_equiv};
    ghost use Rattle.std.specs.Hash as fed;
    ghost use Rattle.std.proofs.Common.{ap};

    ghost equivalent = { λ q k. bytes_eq q.now k };

    ghost respects_hash = { λ q k h. ap (flat_map fed.u8) ((bytes_decides q.now k).0 h) };

    ghost respects_eq = { λ q x y. nat_list_eq_equiv.congr q.now x y };

    fn equivalent(&self, key: &DomainText) -> bool {
        self.is(key)
    }
}
