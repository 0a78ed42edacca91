use crate::matches::ChainMatch;
use ev_types::{Gen, Serve, Shared, Text};

/// Where a listener listens.
#[derive(Drop)]
pub struct Listening {
    pub address: Text,
    pub port: u16,
}

impl PartialEq for Listening {
    ghost use Rattle.std.specs.Cmp.{decided, partial_equiv_from_equiv};
    ghost use Rattle.ev_chains.specs.Rows.{listening_same, listening_decides};

    ghost eq = { listening_same };

    ghost laws = { partial_equiv_from_equiv (decided listening_same listening_decides) };

    fn eq(&self, other: &Listening) -> bool {
        self.address == other.address && self.port == other.port
    }
}

/// A filter chain of a listener: where the listener listens, which connections the chain takes, and what it serves.
#[derive(Drop)]
pub struct Chain {
    pub listening: Shared<Listening>,
    pub matches: ChainMatch,
    pub serve: Serve,
}

impl PartialEq for Chain {
    ghost use Rattle.std.specs.Cmp.{decided, partial_equiv_from_equiv};
    ghost use Rattle.ev_chains.specs.Rows.{chain_same, chain_decides};

    ghost eq = { chain_same };

    ghost laws = { partial_equiv_from_equiv (decided chain_same chain_decides) };

    fn eq(&self, other: &Chain) -> bool {
        self.listening == other.listening
            && self.matches == other.matches
            && self.serve == other.serve
    }
}

/// A chain that serves, under its number.
#[derive(Drop)]
pub struct Row {
    pub number: Gen,
    pub chain: Chain,
}
