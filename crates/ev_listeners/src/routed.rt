ghost use Rattle.std.specs.Prelude.{◌≡◌, IfOk};
ghost use Rattle.std.specs.Option.{option_copied};
ghost use Rattle.ev_model.specs.Picture.{listens_same};

use crate::earlier::Earlier;
use crate::routed_chain::RoutedChain;
use ev_keys::Keys;
use ev_layers::Row;
use ev_model::{ServedChain, ServedListener};
use ev_types::{Gen, Host, Name, Seq, TryCopy};
use std::alloc::{AllocError, Global};
use std::marker::Model;

/// A listener of a picture, with the tables of its chains. Contracts see the listener.
#[derive(Drop)]
pub struct RoutedListener {
    number: Gen,
    name: Name,
    address: Host,
    takes_every_address: bool,
    udp: bool,
    restores: bool,
    hands_over: bool,
    filter_chains: Seq<RoutedChain>,
    default_filter_chain: Option<RoutedChain>,
}

impl Model for RoutedListener {
    ghost use Rattle.ev_model.specs.declared.pictures.ServedListener.{ServedListener};

    ghost Value = { ServedListener };

    ghost view = { λ l. record {
      number = l.number;
      name = l.name;
      address = l.address;
      takes_every_address = l.takes_every_address;
      udp = l.udp;
      restores = l.restores;
      hands_over = l.hands_over;
      filter_chains = l.filter_chains;
      default_filter_chain = l.default_filter_chain;
    } };
}

impl RoutedListener {
    /// A copy of this listener. Its routes and what its chains ask for are shared. So are the tables of each chain that
    /// the listener before has where it began, or else in the same place. New ones hash by these keys.
    pub fn new(
        alloc: Global,
        keys: Keys,
        listener: &ServedListener,
        before: Option<&RoutedListener>,
    ) -> Result<RoutedListener, AllocError>
        ensures { IfOk result (λ routed. routed ≡ listener.now) }
    {
        let name = listener.name.copy(alloc)?;
        let address = listener.address.copy(alloc)?;
        let earlier = Earlier::new(alloc, keys, listener.number, before)?;
        let filter_chains = chains_of(alloc, keys, listener.filter_chains.as_slice(), &earlier)?;
        let default_filter_chain = default_of(alloc, keys, &listener.default_filter_chain, before)?;
        Ok(RoutedListener {
            number: listener.number,
            name,
            address,
            takes_every_address: listener.takes_every_address,
            udp: listener.udp,
            restores: listener.restores,
            hands_over: listener.hands_over,
            filter_chains,
            default_filter_chain,
        })
    }

    /// Its address and port.
    pub(crate) fn address(&self) -> &Host
        ensures { result.now ≡ self.now.address }
    {
        &self.address
    }

    /// Whether its address represents every address of its port.
    pub(crate) fn takes_every_address(&self) -> bool
        ensures { result ≡ self.now.takes_every_address }
    {
        self.takes_every_address
    }

    /// Whether it listens by UDP.
    pub(crate) fn is_udp(&self) -> bool
        ensures { result ≡ self.now.udp }
    {
        self.udp
    }

    /// Whether a redirected connection is taken as one to the address that it was meant for.
    pub fn restores(&self) -> bool
        ensures { result ≡ self.now.restores }
    {
        self.restores
    }

    /// Whether it hands such a connection over to the listener at that address.
    pub fn hands_over(&self) -> bool
        ensures { result ≡ self.now.hands_over }
    {
        self.hands_over
    }

    // Whether both have the same address and the same marks.
    fn listens_as(&self, other: &RoutedListener) -> bool
        ensures { result ≡ listens_same self.now other.now }
    {
        self.address == other.address
            && self.takes_every_address == other.takes_every_address
            && self.udp == other.udp
            && self.restores == other.restores
            && self.hands_over == other.hands_over
    }

    /// Its filter chains.
    pub fn filter_chains(&self) -> &[RoutedChain]
        ensures { result.now ≡ self.now.filter_chains }
    {
        self.filter_chains.as_slice()
    }

    /// The chain that takes what no other chain does, if there is one.
    pub fn default_filter_chain(&self) -> Option<&RoutedChain>
        ensures { option_copied result ≡ self.now.default_filter_chain }
    {
        self.default_filter_chain.as_ref()
    }
}

// The chains with their tables.
fn chains_of(
    alloc: Global,
    keys: Keys,
    chains: &[ServedChain],
    earlier: &Earlier<'_>,
) -> Result<Seq<RoutedChain>, AllocError>
    ensures { IfOk result (λ routed. routed ≡ chains.now) }
{
    let mut routed = Seq::new(alloc);
    for place in 0..chains.len() {
        let chain = &chains[place];
        let before = earlier.chain_for(chain, place);
        let next = RoutedChain::new(alloc, keys, chain, before, last_of(routed.as_slice()))?;
        routed.push(next)?;
    }
    Ok(routed)
}

// The last of these chains.
fn last_of(chains: &[RoutedChain]) -> Option<&RoutedChain> {
    chains.last()
}

// The default chain with its tables.
fn default_of(
    alloc: Global,
    keys: Keys,
    chain: &Option<ServedChain>,
    before: Option<&RoutedListener>,
) -> Result<Option<RoutedChain>, AllocError>
    ensures { IfOk result (λ routed. routed ≡ chain.now) }
{
    match chain {
        Some(chain) => Ok(Some(RoutedChain::new(
            alloc,
            keys,
            chain,
            default_before(before),
            None,
        )?)),
        None => Ok(None),
    }
}

// The default chain of a listener.
fn default_before(before: Option<&RoutedListener>) -> Option<&RoutedChain> {
    match before {
        Some(before) => before.default_filter_chain(),
        None => None,
    }
}

impl Row for RoutedListener {
    ghost use Rattle.ev_model.specs.Picture.{served_listener_same};
    ghost use Rattle.ev_model.specs.declared.pictures.ServedListener.{ServedListener};

    ghost number_of = { λ (l : ServedListener). l.number };

    ghost name_of = { λ (l : ServedListener). l.name };

    ghost same = { served_listener_same };

    fn number(&self) -> Gen {
        self.number
    }

    fn name(&self) -> &str {
        self.name.as_str()
    }

    fn is_same(&self, other: &RoutedListener) -> bool {
        self.listens_as(other)
            && self.number == other.number
            && self.name == other.name
            && self.filter_chains == other.filter_chains
            && self.default_filter_chain == other.default_filter_chain
    }
}
