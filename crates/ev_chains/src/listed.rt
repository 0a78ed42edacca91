ghost use Rattle.std.specs.Prelude.{◌≡◌, ◌<◌, ◌∷◌, [], length, map, find, option_map, nat_eq, Some, None, true, false, if◌then◌else◌, IfOk, OnOk};
ghost use Rattle.std.specs.Option.{option_copied};
ghost use Rattle.std.specs.List.{list_any};
ghost use Rattle.std.specs.Str.{str_to_ascii_lowercase};
ghost use Rattle.indexmap.specs.IndexSet.{contains};
ghost use Rattle.ev_chains.specs.Sets.{Gains};
ghost use Rattle.ev_chains.specs.Rows.{keys_of, has_key, has_clash, match_of, row_has, has_port, asked_port, chosen};
ghost use Rattle.ev_chains.specs.Listed.{has_any, PutsUnder, number_in, number_for, number_under, number_at_dot, number_wild, number_other, wild_key, is_chain, named_keys, key_with, any_named};

use crate::keys::ChainKey;
use crate::matches::ChainMatch;
use crate::rows::{Chain, Row};
use ev_keys::Keys;
use ev_types::{Gen, Seq, Text};
use indexmap::{IndexMap, IndexSet};
use std::alloc::{AllocError, Global};
use std::marker::Model;

/// The places of chains in a list, by their keys.
type Places = IndexMap<ChainKey, usize, Keys>;

/// Chains of a listener with a table by key, seen by contracts as the chains.
#[derive(Drop)]
pub(crate) struct Listed {
    rows: Vec<Row>,
    places: Places,
    ports: IndexSet<u16>,
    clash: bool,
}

impl Model for Listed {
    ghost use Rattle.std.specs.Prelude.{List};
    ghost use Rattle.ev_chains.specs.declared.rows.Row as declared;
    ghost use Rattle.ev_chains.specs.Listed.{AreListed};

    ghost Value = { List declared.Row };

    ghost view = { λ l. l.rows.items };

    ghost invariant = { λ l. AreListed l.rows.items l.places l.ports l.clash };
}

impl Listed {
    /// No chain, in a table of these keys. It takes no memory.
    pub(crate) fn new(alloc: Global, keys: Keys) -> Listed
        ensures { result ≡ [] }
    {
        Listed {
            rows: Vec::new(alloc),
            places: IndexMap::with_hasher(alloc, keys),
            ports: IndexSet::new(alloc),
            clash: false,
        }
    }

    /// The list of these chains, with a table of these keys.
    pub(crate) fn of(alloc: Global, keys: Keys, rows: Vec<Row>) -> Result<Listed, AllocError>
        ensures { IfOk result (λ listed. listed ≡ rows.items) }
    {
        let mut places = IndexMap::with_hasher(alloc, keys);
        let mut ports = IndexSet::new(alloc);
        let mut clash = false;
        for place in (0..rows.len()).rev() {
            let row = &rows[place];
            clash = has_any(alloc, &places, &row.chain.matches)? | clash;
            put_keys(alloc, &mut places, &row.chain.matches, place)?;
            put_port(&mut ports, row)?;
        }
        Ok(Listed {
            rows,
            places,
            ports,
            clash,
        })
    }

    /// The keys of its table.
    pub(crate) fn keys(&self) -> Keys {
        *self.places.hasher()
    }

    /// The chains in order.
    pub(crate) fn rows(&self) -> &[Row]
        ensures { result.now ≡ self.now }
    {
        self.rows.as_slice()
    }

    /// Whether two of the chains take the same connections.
    pub(crate) fn has_clash(&self) -> bool
        ensures { result ≡ has_clash (map match_of self.now) }
    {
        let _ = &self.rows;
        self.clash
    }

    // The first chain with a key.
    fn find(&self, key: &ChainKey) -> Option<&Row>
        ensures { option_copied result ≡ find (row_has key.now) self.now }
    {
        match self.places.get(key) {
            Some(place) => Some(&self.rows[*place]),
            None => None,
        }
    }

    // The number of the first chain with a key.
    fn number_under(&self, key: &ChainKey) -> Option<Gen>
        ensures { result ≡ number_under key.now self.now }
    {
        match self.find(key) {
            Some(row) => Some(row.number),
            None => None,
        }
    }

    /// The number of the chain that equals this one, where there is one.
    /// No two of the chains take the same connections.
    pub(crate) fn number_of(&self, alloc: Global, chain: &Chain) -> Result<Option<Gen>, AllocError>
        requires { has_clash (map match_of self.now) ≡ false }
        ensures { IfOk result (λ number. number ≡ number_for chain.now self.now) }
    {
        let key = first_key(alloc, &chain.matches)?;
        match self.find(&key) {
            Some(row) => Ok(if_same(row, chain)),
            None => Ok(None),
        }
    }

    /// The number of the chain that takes a connection to this server and port:
    /// of those with the port, or with none where no chain has it, the one with this server name,
    /// else the one with the longest form `*.x` of it, else the one for any.
    pub(crate) fn choose(
        &self,
        alloc: Global,
        server: &str,
        port: u16,
    ) -> Result<Option<Gen>, AllocError>
        ensures { IfOk result (λ number. number ≡ number_in (chosen server.now port self.now)) }
    {
        let port = self.asked_port(port);
        let name = lower(alloc, server)?;
        let key = ChainKey {
            port,
            name: Some(lower(alloc, server)?),
        };
        match self.number_under(&key) {
            Some(number) => Ok(Some(number)),
            None => {
                let other = self.choose_other(alloc, port, name.as_slice())?;
                Ok(other)
            }
        }
    }

    // The number of the chain with the longest form `*.x` of a name, else of the one for any.
    fn choose_other(
        &self,
        alloc: Global,
        port: Option<u16>,
        name: &[u8],
    ) -> Result<Option<Gen>, AllocError>
        ensures { IfOk result (λ number. number ≡ number_other port name.now self.now) }
    {
        match self.choose_wild(alloc, port, name)? {
            Some(number) => Ok(Some(number)),
            None => Ok(self.number_under(&ChainKey { port, name: None })),
        }
    }

    // The number of the chain with the longest form `*.x` of a name.
    fn choose_wild(
        &self,
        alloc: Global,
        port: Option<u16>,
        name: &[u8],
    ) -> Result<Option<Gen>, AllocError>
        ensures { IfOk result (λ number. number ≡ number_wild port name.now self.now) }
    {
        for place in 1..name.len() {
            if let Some(number) = self.number_at_dot(alloc, port, name, place)? {
                return Ok(Some(number));
            }
        }
        Ok(None)
    }

    // The number of the chain with the form `*.x` of a name at a place of it, where that is a dot.
    fn number_at_dot(
        &self,
        alloc: Global,
        port: Option<u16>,
        name: &[u8],
        place: usize,
    ) -> Result<Option<Gen>, AllocError>
        requires { place < length name.now }
        ensures { IfOk result (λ number. number ≡ number_at_dot port name.now place self.now) }
    {
        if name[place] != b'.' {
            return Ok(None);
        }
        Ok(self.number_under(&wild_key(alloc, port, name, place)?))
    }

    // The port that is looked for: this one where a chain has it, and otherwise none.
    fn asked_port(&self, port: u16) -> Option<u16>
        ensures { result ≡ asked_port port self.now }
    {
        if self.has_port(port) {
            Some(port)
        } else {
            None
        }
    }

    // Whether a chain has a port.
    fn has_port(&self, port: u16) -> bool
        ensures { result ≡ list_any (has_port port) self.now }
    {
        let _ = &self.rows;
        self.ports.contains(&port)
    }
}

// The key of a port with a name, or with none.
fn key_with(alloc: Global, port: Option<u16>, name: Option<&str>) -> Result<ChainKey, AllocError>
    ensures { IfOk result (λ key. key ≡ key_with port (option_map (λ n. n.now) name.entry)) }
{
    let name = match name {
        Some(name) => Some(lower(alloc, name)?),
        None => None,
    };
    Ok(ChainKey { port, name })
}

// The key of a port with the form `*.x` of a name at a place of it.
fn wild_key(
    alloc: Global,
    port: Option<u16>,
    name: &[u8],
    place: usize,
) -> Result<ChainKey, AllocError>
    requires { place < length name.now }
    ensures { IfOk result (λ key. key ≡ wild_key port name.now place) }
{
    let (_, suffix) = name.split_at(place);
    let mut bytes = Vec::new(alloc);
    bytes.push(b'*')?;
    bytes.extend_from_slice(suffix)?;
    Ok(ChainKey {
        port,
        name: Some(Seq::from_vec(bytes)),
    })
}

// One of the keys of a match.
fn first_key(alloc: Global, matches: &ChainMatch) -> Result<ChainKey, AllocError>
    ensures { IfOk result (λ key. has_key key matches.now ≡ true) }
{
    if matches.names.len() == 0 {
        return key_with(alloc, matches.port, None);
    }
    key_with(
        alloc,
        matches.port,
        Some(matches.names.as_slice()[0].as_str()),
    )
}

// The number of a row, where its chain equals this one.
fn if_same(row: &Row, chain: &Chain) -> Option<Gen>
    ensures { result ≡ (if is_chain chain.now row.now then Some row.now.number else None) }
{
    if row.chain == *chain {
        Some(row.number)
    } else {
        None
    }
}

// A text with its ASCII letters as lower case.
fn lower(alloc: Global, text: &str) -> Result<Seq<u8>, AllocError>
    ensures { IfOk result (λ lower. lower ≡ str_to_ascii_lowercase text.now) }
{
    let bytes = text
        .as_bytes()
        .iter()
        .map(|byte| byte.to_ascii_lowercase())
        .collect(alloc)?;
    Ok(Seq::from_vec(bytes))
}

// Puts a place under each key of a match.
fn put_keys(
    alloc: Global,
    places: &mut Places,
    matches: &ChainMatch,
    place: usize,
) -> Result<(), AllocError>
    ensures { OnOk result (PutsUnder (keys_of matches.now) place places.old places.new) }
{
    if matches.names.len() == 0 {
        return put_key(places, key_with(alloc, matches.port, None)?, place);
    }
    put_names(alloc, places, matches.port, matches.names.as_slice(), place)?;
    Ok(())
}

// Puts a place under a port with each of these names.
fn put_names(
    alloc: Global,
    places: &mut Places,
    port: Option<u16>,
    names: &[Text],
    place: usize,
) -> Result<(), AllocError>
    ensures { OnOk result (PutsUnder (named_keys port names.now) place places.old places.new) }
{
    for name in names {
        put_key(places, key_with(alloc, port, Some(name.as_str()))?, place)?;
    }
    Ok(())
}

// Puts a place under a key.
fn put_key(places: &mut Places, key: ChainKey, place: usize) -> Result<(), AllocError>
    ensures { OnOk result (PutsUnder (key ∷ []) place places.old places.new) }
{
    let Ok(_) = places.insert(key, place) else {
        return Err(AllocError);
    };
    Ok(())
}

// Whether a table has one of the keys of a match.
fn has_any(alloc: Global, places: &Places, matches: &ChainMatch) -> Result<bool, AllocError>
    ensures { IfOk result (λ has. has ≡ has_any places.now matches.now) }
{
    if matches.names.len() == 0 {
        return Ok(places.contains_key(&key_with(alloc, matches.port, None)?));
    }
    let has = any_named(alloc, places, matches.port, matches.names.as_slice())?;
    Ok(has)
}

// Whether a table has a port with one of these names.
fn any_named(
    alloc: Global,
    places: &Places,
    port: Option<u16>,
    names: &[Text],
) -> Result<bool, AllocError>
    ensures { IfOk result (λ has. has ≡ any_named places.now (named_keys port names.now)) }
{
    let mut has = false;
    for name in names {
        has = has | places.contains_key(&key_with(alloc, port, Some(name.as_str()))?);
    }
    Ok(has)
}

// Adds the port of a chain, where it has one, to others.
fn put_port(ports: &mut IndexSet<u16>, row: &Row) -> Result<(), AllocError>
    ensures { OnOk result (Gains (contains nat_eq) (λ port. has_port port row.now) ports.old ports.new) }
{
    match row.chain.matches.port {
        Some(port) => insert_port(ports, port),
        None => Ok(()),
    }
}

// Adds a port to others.
fn insert_port(ports: &mut IndexSet<u16>, port: u16) -> Result<(), AllocError>
    ensures { OnOk result (Gains (contains nat_eq) (nat_eq port) ports.old ports.new) }
{
    let Ok(_) = ports.insert(port) else {
        return Err(AllocError);
    };
    Ok(())
}
