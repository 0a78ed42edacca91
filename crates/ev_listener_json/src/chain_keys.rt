ghost use Rattle.std.specs.Prelude.{◌≡◌, ◌<◌, ◌∷◌, IfOk, map, option_to_list};
ghost use Rattle.ev_listener_json.specs.ChainKeys.{number_key, text_key, port_key, range_key, or_bare, keys_by};

use ev_keys::Keys;
use ev_types::{CidrRange, FilterChain, FilterChainMatch, Ip, Text};
use std::alloc::{AllocError, Global};
use std::hash::{DefaultHasher, Hash, Hasher};
use std::marker::Model;

/// A criterion by which filter chains are found.
#[derive(Clone, Copy)]
pub(crate) enum Criterion {
    Port,
    Range,
    Name,
    Protocol,
    DirectSource,
    SourceRange,
    SourcePort,
}

/// A value that a filter chain asks for by a criterion, or that it asks for none, as a key.
/// Contracts see what it is made of: a mark, a prefix length, bits, and a text. It takes no memory.
#[derive(Drop)]
pub(crate) struct ChainKey<'a> {
    mark: u8,
    length: u8,
    bits: u128,
    text: &'a str,
}

impl<'a> Model for ChainKey<'a> {
    ghost use Rattle.std.specs.Prelude.{List, ℕ, ◌∷◌};

    ghost Value = { List ℕ };

    ghost view = { λ k. k.mark ∷ k.length ∷ k.bits ∷ k.text.now };
}

impl<'a> ChainKey<'a> {
    /// The same key once more.
    pub(crate) fn again(&self) -> ChainKey<'a>
        ensures { result ≡ self.now }
    {
        ChainKey {
            mark: self.mark,
            length: self.length,
            bits: self.bits,
            text: self.text,
        }
    }

    // The key of a mark and a text.
    fn of_text(mark: u8, text: &'a str) -> ChainKey<'a>
        ensures { result ≡ text_key mark text.now }
    {
        ChainKey {
            mark,
            length: 0,
            bits: 0,
            text,
        }
    }

    // The key of a mark, a prefix length and bits.
    fn of_number(mark: u8, length: u8, bits: u128) -> ChainKey<'a>
        ensures { result ≡ number_key mark length bits }
    {
        ChainKey {
            mark,
            length,
            bits,
            text: "",
        }
    }

    // The key of a port, under a mark.
    fn of_port(mark: u8, port: u16) -> ChainKey<'a>
        ensures { result ≡ port_key mark port }
    {
        ChainKey::of_number(mark, 0, port as u128)
    }

    // The key of a range, under a mark for IPv4 and the next one for IPv6.
    fn of_range(mark: u8, range: CidrRange) -> ChainKey<'a>
        requires { mark < 255 }
        ensures { result ≡ range_key mark range }
    {
        match range.prefix {
            Ip::V4(bits) => ChainKey::of_number(mark, range.prefix_len, bits as u128),
            Ip::V6(bits) => ChainKey::of_number(mark + 1, range.prefix_len, bits),
        }
    }
}

impl<'a> PartialEq for ChainKey<'a> {
    ghost use Rattle.std.specs.Str.{bytes_eq};
    ghost use Rattle.std.specs.Cmp.Rules.{comparing};
    ghost use Rattle.std.proofs.Common.{rules};

    ghost eq = { bytes_eq };

    ghost laws = { Prim.search (comparing, rules) };

    fn eq(&self, other: &ChainKey<'a>) -> bool {
        self.mark == other.mark
            && self.length == other.length
            && self.bits == other.bits
            && self.text == other.text
    }
}

impl<'a> Eq for ChainKey<'a> {
    ghost use Rattle.std.specs.Cmp.Rules.{comparing};
    ghost use Rattle.std.proofs.Common.{rules};

    ghost laws = { Prim.search (comparing, rules) };
}

impl<'a> Hash for ChainKey<'a> {
    ghost use Rattle.std.specs.Cmp.Lexicographic.{bytes_decides};
    ghost use Rattle.std.proofs.Common.{ap};
    ghost use Rattle.ev_listener_json.specs.ChainKeys.{key_hash_input};

    ghost hash_input = { key_hash_input };

    ghost respects_eq = { λ a b same. ap key_hash_input ((bytes_decides a b).0 same) };

    fn hash<H: Hasher>(&self, state: &mut H) {
        state.write_u8(self.mark);
        state.write_u8(self.length);
        state.write_u128(self.bits);
        u8::hash_slice(self.text.as_bytes(), state);
    }
}

/// What a table of these chains' keys hashes by: it is made of all that they ask for,
/// so that no chain can be made to meet others there.
pub(crate) fn hash_keys_of(chains: &[FilterChain]) -> Keys {
    let mut fed = DefaultHasher::new();
    for chain in chains {
        feed(&mut fed, chain.criteria.get());
    }
    Keys::after(fed)
}

// Feeds a hasher with what a filter chain asks for.
fn feed(fed: &mut DefaultHasher, asked: &FilterChainMatch) {
    feed_ranges(fed, asked.prefix_ranges.as_slice());
    feed_texts(fed, asked.server_names.as_slice());
    feed_texts(fed, asked.application_protocols.as_slice());
    feed_ranges(fed, asked.direct_source_prefix_ranges.as_slice());
    feed_ranges(fed, asked.source_prefix_ranges.as_slice());
}

// Feeds a hasher with ranges.
fn feed_ranges(fed: &mut DefaultHasher, ranges: &[CidrRange]) {
    for range in ranges {
        ChainKey::of_range(3, *range).hash(fed);
    }
}

// Feeds a hasher with texts.
fn feed_texts(fed: &mut DefaultHasher, texts: &[Text]) {
    for text in texts {
        ChainKey::of_text(6, text.as_str()).hash(fed);
    }
}

/// The keys of what a filter chain asks for by a criterion.
pub(crate) fn keys_by<'a>(
    alloc: Global,
    criterion: Criterion,
    asked: &'a FilterChainMatch,
) -> Result<Vec<ChainKey<'a>>, AllocError>
    ensures { IfOk result (λ keys. keys.items ≡ keys_by criterion asked.now) }
{
    match criterion {
        Criterion::Port => port_key_of(alloc, asked.destination_port),
        Criterion::Range => range_keys(alloc, 2, 3, asked.prefix_ranges.as_slice()),
        Criterion::Name => text_keys(alloc, 5, 6, asked.server_names.as_slice()),
        Criterion::Protocol => text_keys(alloc, 7, 8, asked.application_protocols.as_slice()),
        Criterion::DirectSource => {
            range_keys(alloc, 9, 10, asked.direct_source_prefix_ranges.as_slice())
        }
        Criterion::SourceRange => range_keys(alloc, 12, 13, asked.source_prefix_ranges.as_slice()),
        Criterion::SourcePort => port_keys(alloc, 15, 16, asked.source_ports.as_slice()),
    }
}

// The key of a port that is asked for, if one is.
fn port_key_of<'a>(alloc: Global, port: Option<u16>) -> Result<Vec<ChainKey<'a>>, AllocError>
    ensures { IfOk result (λ keys. keys.items ≡ or_bare 0 (map (port_key 1) (option_to_list port))) }
{
    let mut keys = Vec::new(alloc);
    if let Some(port) = port {
        keys.push(ChainKey::of_port(1, port))?;
    }
    or_bare(0, keys)
}

// The keys of ports, under a mark, or under another where there are none.
fn port_keys<'a>(
    alloc: Global,
    bare: u8,
    mark: u8,
    ports: &[u16],
) -> Result<Vec<ChainKey<'a>>, AllocError>
    ensures { IfOk result (λ keys. keys.items ≡ or_bare bare (map (port_key mark) ports.now)) }
{
    let mut keys = Vec::new(alloc);
    for port in ports {
        keys.push(ChainKey::of_port(mark, *port))?;
    }
    or_bare(bare, keys)
}

// The keys of ranges, under two marks, or under another where there are none.
fn range_keys<'a>(
    alloc: Global,
    bare: u8,
    mark: u8,
    ranges: &[CidrRange],
) -> Result<Vec<ChainKey<'a>>, AllocError>
    requires { mark < 255 }
    ensures { IfOk result (λ keys. keys.items ≡ or_bare bare (map (range_key mark) ranges.now)) }
{
    let mut keys = Vec::new(alloc);
    for range in ranges {
        keys.push(ChainKey::of_range(mark, *range))?;
    }
    or_bare(bare, keys)
}

// The keys of texts, under a mark, or under another where there are none.
fn text_keys<'a>(
    alloc: Global,
    bare: u8,
    mark: u8,
    texts: &'a [Text],
) -> Result<Vec<ChainKey<'a>>, AllocError>
    ensures { IfOk result (λ keys. keys.items ≡ or_bare bare (map (text_key mark) texts.now)) }
{
    let mut keys = Vec::new(alloc);
    for text in texts {
        keys.push(ChainKey::of_text(mark, text.as_str()))?;
    }
    or_bare(bare, keys)
}

// These keys, or where there is none the one of asking for nothing.
fn or_bare<'a>(mark: u8, keys: Vec<ChainKey<'a>>) -> Result<Vec<ChainKey<'a>>, AllocError>
    ensures { IfOk result (λ all. all.items ≡ or_bare mark keys.entry.items) }
{
    let mut keys = keys;
    if keys.len() == 0 {
        keys.push(ChainKey::of_text(mark, ""))?;
    }
    Ok(keys)
}
