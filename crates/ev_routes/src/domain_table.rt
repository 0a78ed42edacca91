ghost use Rattle.std.specs.Prelude.{◌≡◌, ◌≤◌, ◌<◌, ◌-◌, true, false, [], ◌∷◌, ◌++◌, length, codes, IfOk, OnOk};
ghost use Rattle.std.specs.Option.{option_copied};
ghost use Rattle.std.specs.Str.{bytes_eq, str_to_ascii_lowercase};
ghost use Rattle.indexmap.specs.IndexMap.{get};
ghost use Rattle.ev_model.specs.Paths.{begins_with};
ghost use Rattle.ev_model.specs.Choice.{by_prefix, by_suffix, domain_for, has_prefix, has_suffix, is_prefix_form, is_suffix_form};
ghost use Rattle.ev_routes.specs.Domains.{GainsLength, GainsText, KeepsLengths, find_beside, has_length, pattern_for};

use crate::domains::{Domain, is_prefix_form, is_suffix_form};
use crate::host_texts::{DomainText, HostText};
use crate::lengths::Lengths;
use crate::star_texts::{PrefixText, SuffixText};
use crate::texts::begins_lower;
use ev_keys::Keys;
use ev_types::Seq;
use indexmap::IndexMap;
use std::alloc::{AllocError, Global};
use std::marker::Model;

/// The domains of a listener, in order, with a table by text and the lengths of those with a star. Contracts see the
/// domains.
#[derive(Drop)]
pub(crate) struct Domains {
    list: Seq<Domain>,
    by_text: IndexMap<DomainText, Domain, Keys>,
    /// How many bytes the suffix forms have beside the star.
    suffixes: Lengths,
    /// How many bytes the prefix forms have beside the star.
    prefixes: Lengths,
}

impl Model for Domains {
    ghost use Rattle.std.specs.Prelude.{List};
    ghost use Rattle.std.specs.Str.{bytes_eq};
    ghost use Rattle.indexmap.specs.IndexMap.{get};
    ghost use Rattle.ev_model.specs.Choice.{HostDomain};
    ghost use Rattle.ev_routes.specs.Domains.{AreListed};

    ghost Value = { List HostDomain };

    ghost view = { λ d. d.list };

    ghost invariant = { λ d. AreListed d.list (get bytes_eq d.by_text) d.suffixes d.prefixes };
}

impl Domains {
    /// No domain. Its table hashes by these keys. It takes no memory.
    pub(crate) fn new(alloc: Global, keys: Keys) -> Domains
        ensures { result ≡ [] }
    {
        Domains {
            list: Seq::new(alloc),
            by_text: IndexMap::with_hasher(alloc, keys),
            suffixes: Lengths::new(alloc),
            prefixes: Lengths::new(alloc),
        }
    }

    /// The domains with one more at the end. The table keeps the first of a text.
    pub(crate) fn with(self, domain: Domain) -> Result<Domains, AllocError>
        ensures { IfOk result (λ domains. domains ≡ self ++ domain ∷ []) }
    {
        let mut list = self.list;
        let mut by_text = self.by_text;
        let mut suffixes = self.suffixes;
        let mut prefixes = self.prefixes;
        enter_domain(&mut by_text, &mut suffixes, &mut prefixes, &domain)?;
        list.push(domain)?;
        Ok(Domains {
            list,
            by_text,
            suffixes,
            prefixes,
        })
    }

    /// The domain that a host goes by: itself, else by the longest suffix, else by the longest prefix, else `*`.
    pub(crate) fn find(&self, host: &[u8]) -> Option<&Domain>
        ensures { option_copied result ≡ domain_for self.now (str_to_ascii_lowercase host.now) }
    {
        let _ = &self.list;
        match self.by_text.get(&HostText::new(host)) {
            Some(domain) => Some(domain),
            None => self.pattern_for(host),
        }
    }

    // The domain that a host goes by which is none of these:
    // by the longest suffix, else by the longest prefix, else `*`.
    fn pattern_for(&self, host: &[u8]) -> Option<&Domain>
        ensures { option_copied result ≡ pattern_for self.now (str_to_ascii_lowercase host.now) }
    {
        let _ = &self.list;
        if let Some(domain) = self.suffix_for(host) {
            return Some(domain);
        }
        if let Some(domain) = self.prefix_for(host) {
            return Some(domain);
        }
        self.by_text.get(&HostText::new(b"*"))
    }

    // The longest suffix form whose suffix the host has.
    fn suffix_for(&self, host: &[u8]) -> Option<&Domain>
        ensures { option_copied result ≡ by_suffix self.now (str_to_ascii_lowercase host.now) }
    {
        for beside in (1..host.len()).rev() {
            if let Some(domain) = self.suffix_of(host, beside) {
                return Some(domain);
            }
        }
        None
    }

    // The first suffix form of this many bytes whose suffix the host has.
    fn suffix_of(&self, host: &[u8], beside: usize) -> Option<&Domain>
        requires some { 1 ≤ beside }
        requires fewer { beside < length host.now }
        ensures { option_copied result ≡ find_beside beside (has_suffix (str_to_ascii_lowercase host.now)) self.now }
    {
        let _ = &self.list;
        if !self.suffixes.has(beside) {
            return None;
        }
        let (_, tail) = host.split_at(host.len() - beside);
        self.by_text.get(&SuffixText::new(tail))
    }

    // The longest prefix form whose prefix the host has.
    fn prefix_for(&self, host: &[u8]) -> Option<&Domain>
        ensures { option_copied result ≡ by_prefix self.now (str_to_ascii_lowercase host.now) }
    {
        if begins_lower(host, b"*") {
            return None;
        }
        for beside in (1..host.len()).rev() {
            if let Some(domain) = self.prefix_of(host, beside) {
                return Some(domain);
            }
        }
        None
    }

    // The first prefix form of this many bytes whose prefix the host has.
    fn prefix_of(&self, host: &[u8], beside: usize) -> Option<&Domain>
        requires some { 1 ≤ beside }
        requires fewer { beside < length host.now }
        requires starless { begins_with (str_to_ascii_lowercase host.now) (codes "*") ≡ false }
        ensures { option_copied result ≡ find_beside beside (has_prefix (str_to_ascii_lowercase host.now)) self.now }
    {
        let _ = &self.list;
        if !self.prefixes.has(beside) {
            return None;
        }
        let (head, _) = host.split_at(beside);
        self.by_text.get(&PrefixText::new(head))
    }
}

// Enters a domain into the tables beside the list.
fn enter_domain(
    by_text: &mut IndexMap<DomainText, Domain, Keys>,
    suffixes: &mut Lengths,
    prefixes: &mut Lengths,
    domain: &Domain,
) -> Result<(), AllocError>
    ensures text { OnOk result (GainsText domain.now (get bytes_eq by_text.old) (get bytes_eq by_text.new)) }
    ensures suffixes { OnOk result (GainsLength is_suffix_form domain.now.domain suffixes.old suffixes.new) }
    ensures prefixes { OnOk result (GainsLength is_prefix_form domain.now.domain prefixes.old prefixes.new) }
{
    enter_text(by_text, domain)?;
    let text = domain.text();
    enter_form(suffixes, is_suffix_form(text), text.len())?;
    enter_form(prefixes, is_prefix_form(text), text.len())?;
    Ok(())
}

// Enters how many bytes a domain has beside its star, where it is of the form.
fn enter_form(lengths: &mut Lengths, is_form: bool, count: usize) -> Result<(), AllocError>
    ensures there { OnOk result (is_form ≡ true → has_length (count - 1) lengths.new ≡ true) }
    ensures keeps { OnOk result (KeepsLengths lengths.old lengths.new) }
{
    if !is_form {
        return Ok(());
    }
    lengths.enter(count.saturating_sub(1))
}

// Enters a domain into the table by text, where it is the first of its text.
fn enter_text(
    table: &mut IndexMap<DomainText, Domain, Keys>,
    domain: &Domain,
) -> Result<(), AllocError>
    ensures { OnOk result (GainsText domain.now (get bytes_eq table.old) (get bytes_eq table.new)) }
{
    let text = domain.key()?;
    if table.contains_key(&text) {
        return Ok(());
    }
    let Ok(_) = table.insert(text, domain.share()?) else {
        return Err(AllocError);
    };
    Ok(())
}
