ghost use Rattle.std.specs.Prelude.{◌≡◌, fold, flat_map};
ghost use Rattle.std.specs.Hash as fed;
ghost use Rattle.std.specs.Str.{bytes_eq, str_to_ascii_lowercase};

use crate::texts::{is_lower, same_lower};
use ev_types::{Shared, Text};
use indexmap::Equivalent;
use std::hash::{Hash, Hasher};
use std::marker::Model;

/// A domain as the key of its text, which has its ASCII letters as lower case.
#[derive(Drop)]
pub(crate) struct DomainText {
    text: Shared<Text>,
}

impl Model for DomainText {
    ghost use Rattle.std.specs.Prelude.{List, ℕ};

    ghost Value = { List ℕ };

    ghost view = { λ d. d.text };
}

impl DomainText {
    /// The key of this text.
    pub(crate) fn new(text: Shared<Text>) -> DomainText
        ensures { result ≡ text }
    {
        DomainText { text }
    }

    /// The bytes of the text.
    pub(crate) fn as_bytes(&self) -> &[u8]
        ensures { result.now ≡ self.now }
    {
        self.text.get().as_str().as_bytes()
    }
}

impl PartialEq for DomainText {
    ghost use Rattle.std.specs.Str.{bytes_eq};
    ghost use Rattle.std.specs.Cmp.Rules.{comparing};
    ghost use Rattle.std.proofs.Common.{rules};

    ghost eq = { bytes_eq };

    ghost laws = { Prim.search (comparing, rules) };

    fn eq(&self, other: &DomainText) -> bool {
        self.as_bytes() == other.as_bytes()
    }
}

impl Eq for DomainText {
    ghost use Rattle.std.specs.Cmp.Rules.{comparing};
    ghost use Rattle.std.proofs.Common.{rules};

    ghost laws = { Prim.search (comparing, rules) };
}

impl Hash for DomainText {
    ghost use Rattle.std.specs.Prelude.{flat_map};
    ghost use Rattle.std.specs.Hash as fed;
    ghost use Rattle.std.specs.Cmp.Lexicographic.{bytes_decides};
    ghost use Rattle.std.proofs.Common.{ap};

    ghost hash_input = { flat_map fed.u8 };

    ghost respects_eq = { λ a b same. ap (flat_map fed.u8) ((bytes_decides a b).0 same) };

    fn hash<H: Hasher>(&self, state: &mut H) {
        u8::hash_slice(self.as_bytes(), state);
    }
}

/// A host text by which a domain is looked up. It is seen with its ASCII letters as lower case, and takes no memory.
#[derive(Drop)]
pub(crate) struct HostText<'a> {
    text: &'a [u8],
}

impl<'a> Model for HostText<'a> {
    ghost use Rattle.std.specs.Prelude.{List, ℕ};
    ghost use Rattle.std.specs.Str.{str_to_ascii_lowercase};

    ghost Value = { List ℕ };

    ghost view = { λ h. str_to_ascii_lowercase h.text.now };
}

impl<'a> HostText<'a> {
    /// The key of this host.
    pub(crate) fn new(text: &'a [u8]) -> HostText<'a>
        ensures { result ≡ str_to_ascii_lowercase text.now }
    {
        HostText { text }
    }

    // Whether the host is this domain.
    fn is(&self, domain: &DomainText) -> bool
        ensures { result ≡ bytes_eq self.now domain.now }
    {
        is_lower(self.text, domain.as_bytes())
    }
}

impl<'a> PartialEq for HostText<'a> {
    ghost use Rattle.std.specs.Str.{bytes_eq};
    ghost use Rattle.std.specs.Cmp.Rules.{comparing};
    ghost use Rattle.std.proofs.Common.{rules};

    ghost eq = { bytes_eq };

    ghost laws = { Prim.search (comparing, rules) };

    fn eq(&self, other: &HostText<'a>) -> bool {
        same_lower(self.text, other.text)
    }
}

impl<'a> Eq for HostText<'a> {
    ghost use Rattle.std.specs.Cmp.Rules.{comparing};
    ghost use Rattle.std.proofs.Common.{rules};

    ghost laws = { Prim.search (comparing, rules) };
}

impl<'a> Hash for HostText<'a> {
    ghost use Rattle.std.specs.Prelude.{flat_map};
    ghost use Rattle.std.specs.Hash as fed;
    ghost use Rattle.std.specs.Cmp.Lexicographic.{bytes_decides};
    ghost use Rattle.std.proofs.Common.{ap};

    ghost hash_input = { flat_map fed.u8 };

    ghost respects_eq = { λ a b same. ap (flat_map fed.u8) ((bytes_decides a b).0 same) };

    fn hash<H: Hasher>(&self, state: &mut H) {
        hash_lower(self.text, state);
    }
}

/// Feeds the bytes, ASCII letters as lower case.
pub(crate) fn hash_lower<H: Hasher>(bytes: &[u8], state: &mut H)
    ensures { state.new ≡ fold H.write state.old (flat_map fed.u8 (str_to_ascii_lowercase bytes.now)) }
{
    for byte in bytes {
        state.write_u8(byte.to_ascii_lowercase());
    }
}

impl<'a> Equivalent<DomainText> for &HostText<'a> {
    ghost use Rattle.std.specs.Prelude.{flat_map};
    ghost use Rattle.std.specs.Str.{bytes_eq};
    ghost use Rattle.std.specs.Cmp.Lexicographic.{bytes_decides, nat_list_eq_equiv};
    ghost use Rattle.std.specs.Hash as fed;
    ghost use Rattle.std.proofs.Common.{ap};

    ghost equivalent = { λ q k. bytes_eq q.now k };

    ghost respects_hash = { λ q k h. ap (flat_map fed.u8) ((bytes_decides q.now k).0 h) };

    ghost respects_eq = { λ q x y. nat_list_eq_equiv.congr q.now x y };

    fn equivalent(&self, key: &DomainText) -> bool {
        self.is(key)
    }
}
