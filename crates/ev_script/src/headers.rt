ghost use Rattle.std.specs.Prelude.{◌≡◌, [], OnOk, OnErr, IfOk, map};
ghost use Rattle.std.specs.Str.{str_to_ascii_lowercase};
ghost use Rattle.serde_json.specs.View.{view, members_view};
ghost use Rattle.ev_script.specs.Headers.{is_member_of_ask, with_header, headers_with, headers_of};

use ev_types::{Seq, Text};
use serde_json::{Map, Value};
use std::alloc::{AllocError, Global};
use std::cmp::Ordering;
use std::collections::BTreeMap;
use std::marker::Model;

/// The name of a header, its ASCII letters in lower case, as a key: names are in the order of their bytes.
#[derive(Drop)]
pub(crate) struct HeaderName {
    text: Text,
}

impl Model for HeaderName {
    ghost use Rattle.std.specs.Prelude.{List, ℕ};

    ghost Value = { List ℕ };

    ghost view = { λ n. n.text };
}

impl HeaderName {
    // The name that a text writes.
    fn new(alloc: Global, text: &str) -> Result<HeaderName, AllocError>
        ensures { IfOk result (λ name. name ≡ str_to_ascii_lowercase text.now) }
    {
        let mut lower = String::from_str(alloc, text)?;
        lower.make_ascii_lowercase();
        Ok(HeaderName {
            text: Text::from_string(lower),
        })
    }

    fn as_str(&self) -> &str
        ensures { result.now ≡ self.now }
    {
        self.text.as_str()
    }

    fn into_text(self) -> Text
        ensures { result ≡ self }
    {
        self.text
    }
}

impl PartialEq for HeaderName {
    ghost use Rattle.std.specs.Str.{bytes_eq};
    ghost use Rattle.std.specs.Cmp.Rules.{comparing};
    ghost use Rattle.std.proofs.Common.{rules};

    ghost eq = { bytes_eq };

    ghost laws = { Prim.search (comparing, rules) };

    fn eq(&self, other: &HeaderName) -> bool {
        self.as_str() == other.as_str()
    }
}

impl Eq for HeaderName {
    ghost use Rattle.std.specs.Cmp.Rules.{comparing};
    ghost use Rattle.std.proofs.Common.{rules};

    ghost laws = { Prim.search (comparing, rules) };
}

impl PartialOrd for HeaderName {
    ghost use Rattle.std.specs.Prelude.{Some};
    ghost use Rattle.std.specs.Cmp.Lexicographic.{texts_po};
    ghost use Rattle.ev_script.specs.Headers.{name_order};

    ghost partial_cmp = { λ a b. Some (name_order a b) };

    ghost laws = { texts_po };

    fn partial_cmp(&self, other: &HeaderName) -> Option<Ordering> {
        Some(self.cmp(other))
    }
}

impl Ord for HeaderName {
    ghost use Rattle.std.proofs.Common.{refl};
    ghost use Rattle.std.specs.Cmp.Lexicographic.{nat_list_cmp_total, texts_ties};
    ghost use Rattle.ev_script.specs.Headers.{name_order};

    ghost cmp = { name_order };

    ghost total = { nat_list_cmp_total };

    ghost matches_partial_cmp = { λ a b. refl };

    ghost matches_eq = { texts_ties };

    fn cmp(&self, other: &HeaderName) -> Ordering {
        self.as_str().cmp(other.as_str())
    }
}

// Headers by their names, in order, each name once.
type HeaderMap = BTreeMap<HeaderName, Text>;

// The headers that an object's members are, or none: `tree` is another value, or a member is no text.
pub(crate) fn headers_of(
    alloc: Global,
    tree: &Value,
) -> Result<Option<Seq<(Text, Text)>>, AllocError>
    ensures { IfOk result (λ headers. headers ≡ headers_of (view tree.now)) }
{
    match tree.as_object() {
        Some(members) => headers_in(alloc, members),
        None => Ok(None),
    }
}

// The headers that members are, of which the last of a name counts.
fn headers_in(
    alloc: Global,
    members: &Map<String, Value>,
) -> Result<Option<Seq<(Text, Text)>>, AllocError>
    ensures { IfOk result (λ headers. headers ≡ headers_with [] (members_view members.now.entries)) }
{
    let mut headers = BTreeMap::new(alloc);
    for (name, value) in members.iter() {
        match value.as_str() {
            Some(text) => add(alloc, &mut headers, name.as_str(), text)?,
            None => return Ok(None),
        }
    }
    Ok(Some(listed(alloc, headers)?))
}

// One header more.
fn add(alloc: Global, headers: &mut HeaderMap, name: &str, text: &str) -> Result<(), AllocError>
    ensures { OnOk result (headers.new.entries
        ≡ with_header (str_to_ascii_lowercase name.now) text.now headers.old.entries) }
{
    let name = HeaderName::new(alloc, name)?;
    if is_member_of_ask(name.as_str()) {
        return Ok(());
    }
    let Ok(_) = headers.insert(name, Text::new(alloc, text)?) else {
        return Err(AllocError);
    };
    Ok(())
}

// Whether a member of the line says this, and no header.
fn is_member_of_ask(name: &str) -> bool
    ensures { result ≡ is_member_of_ask name.now }
{
    name == ":authority" || name == ":path"
}

// Headers as a list, in the order of their names.
fn listed(alloc: Global, headers: HeaderMap) -> Result<Seq<(Text, Text)>, AllocError>
    ensures { IfOk result (λ list. list ≡ headers.entries) }
{
    let mut list = Vec::with_capacity(alloc, headers.len())?;
    for (name, text) in headers {
        list.push((name.into_text(), text))?;
    }
    Ok(Seq::from_vec(list))
}
