ghost use Rattle.std.specs.Prelude.{◌≡◌, ℕ, ◌↔◌, ◌<◌, ◌⊎◌, List, length, IfOk, IsErrOf};
ghost use Rattle.std.specs.String.{string_bytes};
ghost use Rattle.ev_types.specs.Texts.{IsName};

use crate::{MAX_NAME_LENGTH, TryCopy};
use std::alloc::{AllocError, Global};
use std::hash::{Hash, Hasher};
use std::marker::Model;

/// Text of any length, seen as its bytes.
#[derive(Drop)]
pub struct Text {
    text: String,
}

impl Model for Text {
    ghost Value = { List ℕ };

    ghost view = { λ t. string_bytes t.text };
}

impl Text {
    /// A text with these bytes.
    pub fn new(alloc: Global, text: &str) -> Result<Text, AllocError>
        ensures bytes { IfOk result (λ made. made ≡ text.now) }
    {
        Ok(Text {
            text: String::from_str(alloc, text)?,
        })
    }

    /// The text of a string. It takes no memory.
    pub fn from_string(text: String) -> Text
        ensures bytes { result ≡ string_bytes text }
    {
        Text { text }
    }

    /// The text itself.
    pub fn as_str(&self) -> &str
        ensures bytes { result.now ≡ self.now }
    {
        self.text.as_str()
    }
}

impl TryCopy for Text {
    fn copy(&self, alloc: Global) -> Result<Text, AllocError> {
        Text::new(alloc, self.as_str())
    }
}

/// Why a text isn't a name.
#[derive(Clone, Copy, Debug, PartialEq, Eq)]
pub enum NameError {
    /// The text is empty or has more than 512 bytes.
    Length,
    /// There was no memory for it.
    OutOfMemory,
}

/// The name of a resource, or an address: a text of 1 to 512 bytes.
#[derive(Drop)]
pub struct Name {
    text: String,
}

impl Model for Name {
    ghost Value = { List ℕ };

    ghost view = { λ n. string_bytes n.text };

    ghost invariant = { λ n. IsName (string_bytes n.text) };
}

impl Name {
    /// The name with these bytes. `Length` comes exactly where there are none or more than 512.
    pub fn new(alloc: Global, text: &str) -> Result<Name, NameError>
        ensures bytes { IfOk result (λ name. name ≡ text.now) }
        ensures named { IfOk result (λ _. IsName text.now) }
        ensures length { IsErrOf result NameError.Length
            ↔ ((length text.now ≡ 0) ⊎ (MAX_NAME_LENGTH < length text.now)) }
    {
        if text.is_empty() || text.len() > MAX_NAME_LENGTH {
            return Err(NameError::Length);
        }
        match String::from_str(alloc, text) {
            Ok(text) => Ok(Name { text }),
            Err(_) => Err(NameError::OutOfMemory),
        }
    }

    /// The text of the name.
    pub fn as_str(&self) -> &str
        ensures bytes { result.now ≡ self.now }
        ensures named { IsName self.now }
    {
        self.text.as_str()
    }
}

impl TryCopy for Name {
    fn copy(&self, alloc: Global) -> Result<Name, AllocError> {
        Ok(Name {
            text: String::from_str(alloc, self.text.as_str())?,
        })
    }
}

impl PartialEq for Name {
    ghost use Rattle.std.specs.Str.{bytes_eq};
    ghost use Rattle.std.specs.Cmp.Rules.{comparing};
    ghost use Rattle.std.proofs.Common.{rules};

    ghost eq = { bytes_eq };

    ghost laws = { Prim.search (comparing, rules) };

    fn eq(&self, other: &Name) -> bool {
        self.as_str() == other.as_str()
    }
}

impl Eq for Name {
    ghost use Rattle.std.specs.Cmp.Rules.{comparing};
    ghost use Rattle.std.proofs.Common.{rules};

    ghost laws = { Prim.search (comparing, rules) };
}

impl Hash for Name {
    ghost use Rattle.std.specs.Cmp.Rules.{hashing};
    ghost use Rattle.std.specs.Hash as fed;
    ghost use Rattle.std.proofs.Common.{rules};

    ghost hash_input = { fed.str };

    ghost respects_eq = { Prim.search (hashing, rules) };

    fn hash<H: Hasher>(&self, state: &mut H) {
        self.as_str().hash(state);
    }
}

impl PartialEq for Text {
    ghost use Rattle.std.specs.Str.{bytes_eq};
    ghost use Rattle.std.specs.Cmp.Rules.{comparing};
    ghost use Rattle.std.proofs.Common.{rules};

    ghost eq = { bytes_eq };

    ghost laws = { Prim.search (comparing, rules) };

    fn eq(&self, other: &Text) -> bool {
        self.as_str() == other.as_str()
    }
}

impl Eq for Text {
    ghost use Rattle.std.specs.Cmp.Rules.{comparing};
    ghost use Rattle.std.proofs.Common.{rules};

    ghost laws = { Prim.search (comparing, rules) };
}
