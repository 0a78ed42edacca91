ghost use Rattle.std.specs.Prelude.{◌≡◌, ◌<◌, length, IfOk};
ghost use Rattle.ev_types.specs.declared.limits.TheConstants.{ROW_LIMIT};
ghost use Rattle.ev_types.specs.SameHosts.{place_of};

use crate::host_index::HostIndex;
use crate::{Name, ROW_LIMIT, Seq, Shared, TryCopy};
use std::alloc::{AllocError, Global};
use std::hash::{Hash, Hasher};
use std::marker::Model;

/// Where a host listens: an address, which is a text, and a port.
#[derive(Drop)]
pub struct Host {
    pub address: Name,
    pub port: u16,
}

impl TryCopy for Host {
    fn copy(&self, alloc: Global) -> Result<Host, AllocError> {
        Ok(Host {
            address: self.address.copy(alloc)?,
            port: self.port,
        })
    }
}

impl PartialEq for Host {
    ghost use Rattle.std.specs.Cmp.{decided, partial_equiv_from_equiv};
    ghost use Rattle.ev_types.specs.SameHosts.{host_same, host_decides};

    ghost eq = { host_same };

    ghost laws = { partial_equiv_from_equiv (decided host_same host_decides) };

    fn eq(&self, other: &Host) -> bool {
        self.address == other.address && self.port == other.port
    }
}

impl Eq for Host {
    ghost use Rattle.std.specs.Cmp.{decided};
    ghost use Rattle.ev_types.specs.SameHosts.{host_same, host_decides};

    ghost laws = { decided host_same host_decides };
}

impl Hash for Host {
    ghost use Rattle.std.proofs.Common.{ap};
    ghost use Rattle.ev_types.specs.SameHosts.{host_hash_input, host_decides};

    ghost hash_input = { host_hash_input };

    ghost respects_eq = { λ a b same. ap host_hash_input ((host_decides a b).0 same) };

    fn hash<H: Hasher>(&self, state: &mut H) {
        self.address.hash(state);
        self.port.hash(state);
    }
}

/// Where a listener listens: by TCP for connections, or by UDP for datagrams.
/// The same address by both is two. Source: Envoy's `SocketAddress`.
#[derive(Drop)]
pub struct SocketAddress {
    pub host: Host,
    /// Whether by UDP.
    pub udp: bool,
}

impl TryCopy for SocketAddress {
    fn copy(&self, alloc: Global) -> Result<SocketAddress, AllocError> {
        Ok(SocketAddress {
            host: self.host.copy(alloc)?,
            udp: self.udp,
        })
    }
}

impl PartialEq for SocketAddress {
    ghost use Rattle.std.specs.Cmp.{decided, partial_equiv_from_equiv};
    ghost use Rattle.ev_types.specs.SameHosts.{socket_same, socket_decides};

    ghost eq = { socket_same };

    ghost laws = { partial_equiv_from_equiv (decided socket_same socket_decides) };

    fn eq(&self, other: &SocketAddress) -> bool {
        self.host == other.host && self.udp == other.udp
    }
}

impl Eq for SocketAddress {
    ghost use Rattle.std.specs.Cmp.{decided};
    ghost use Rattle.ev_types.specs.SameHosts.{socket_same, socket_decides};

    ghost laws = { decided socket_same socket_decides };
}

impl Hash for SocketAddress {
    ghost use Rattle.std.proofs.Common.{ap};
    ghost use Rattle.ev_types.specs.SameHosts.{socket_hash_input, socket_decides};

    ghost hash_input = { socket_hash_input };

    ghost respects_eq = { λ a b same. ap socket_hash_input ((socket_decides a b).0 same) };

    fn hash<H: Hasher>(&self, state: &mut H) {
        self.host.hash(state);
        self.udp.hash(state);
    }
}

/// One host of an assignment. Its weight is at least 1; the lower a priority, the earlier it is chosen.
#[derive(Drop)]
pub struct HostRow {
    pub host: Host,
    pub weight: u32,
    pub priority: u8,
    /// Whether its health status lets it be chosen: unknown, healthy and degraded hosts are usable.
    pub usable: bool,
}

impl Model for HostRow {
    ghost use Rattle.std.specs.Prelude.{◌≤◌};
    ghost use Rattle.ev_types.specs.Hosts.{HostRowParts};

    ghost Value = { HostRowParts };

    ghost view = { λ r. record { host = r.host; weight = r.weight; priority = r.priority; usable = r.usable } };

    ghost invariant = { λ r. 1 ≤ r.weight };
}

impl PartialEq for HostRow {
    ghost use Rattle.std.specs.Cmp.{decided, partial_equiv_from_equiv};
    ghost use Rattle.ev_types.specs.SameHosts.{host_row_same, host_row_decides};

    ghost eq = { host_row_same };

    ghost laws = { partial_equiv_from_equiv (decided host_row_same host_row_decides) };

    fn eq(&self, other: &HostRow) -> bool {
        self.host == other.host
            && self.weight == other.weight
            && self.priority == other.priority
            && self.usable == other.usable
    }
}

impl Eq for HostRow {
    ghost use Rattle.std.specs.Cmp.{decided};
    ghost use Rattle.ev_types.specs.SameHosts.{host_row_same, host_row_decides};

    ghost laws = { decided host_row_same host_row_decides };
}

// The most rows of an assignment that are walked as fast as an index is asked.
const WALKED_ROWS: usize = 16;

/// The hosts of a cluster, in order, a repeated one too. There are fewer than `ROW_LIMIT`.
/// Where single hosts are looked up in them, as for a health result, an index finds one without a walk over all;
/// copies share it. Lists that are only read, as those of served clusters, have none, and short lists neither.
#[derive(Drop)]
pub struct Assignment {
    rows: Seq<HostRow>,
    index: Option<Shared<HostIndex>>,
}

impl Model for Assignment {
    ghost use Rattle.std.specs.Prelude.{List, length, ◌<◌, IfSome};
    ghost use Rattle.ev_types.specs.Hosts.{HostRowParts};
    ghost use Rattle.ev_types.specs.SameHosts.{ArePlacesIn};
    ghost use Rattle.ev_types.specs.declared.limits.TheConstants.{ROW_LIMIT};

    ghost Value = { List HostRowParts };

    ghost view = { λ a. a.rows };

    ghost invariant = { λ a. (length a.rows < ROW_LIMIT) × IfSome a.index (ArePlacesIn a.rows) };
}

impl Assignment {
    ghost use Rattle.std.specs.Prelude.{◌≡◌, ◌<◌, length};
    ghost use Rattle.ev_types.specs.SameHosts.{has_host, place_of, NeedsHosts};

    /// The assignment of these rows, without an index. It takes no memory.
    pub fn new(rows: Seq<HostRow>) -> Assignment
        requires { length rows < ROW_LIMIT }
        ensures rows { result ≡ rows }
    {
        Assignment { rows, index: None }
    }

    /// The assignment of these rows, with an index of their hosts if there are more than a few.
    pub fn indexed(alloc: Global, rows: Seq<HostRow>) -> Result<Assignment, AllocError>
        requires { length rows < ROW_LIMIT }
        ensures rows { IfOk result (λ assignment. assignment ≡ rows) }
    {
        if rows.len() <= WALKED_ROWS {
            return Ok(Assignment::new(rows));
        }
        let index = Shared::new(alloc, HostIndex::of(alloc, rows.as_slice())?)?;
        Ok(Assignment {
            rows,
            index: Some(index),
        })
    }

    /// Its rows in order.
    pub fn rows(&self) -> &[HostRow]
        ensures rows { result.now ≡ self.now }
        ensures few { length self.now < ROW_LIMIT }
    {
        self.rows.as_slice()
    }

    /// Whether a host is among its rows: by a look-up where there is an index, else by a walk.
    #[tactic(auto, using(crate::proofs::HostLemmas::place_tells))]
    pub fn has(&self, host: &Host) -> bool
        ensures { result ≡ has_host host.now self.now }
    {
        self.place_of(host).is_some()
    }

    /// The place of a host's first row: by a look-up where there is an index, else by a walk.
    /// Two hosts have one place only where they are equal.
    pub fn place_of(&self, host: &Host) -> Option<u32>
        ensures { result ≡ place_of host.now self.now }
    {
        match &self.index {
            Some(index) => index.get().place_of(host),
            None => walk_to(self.rows.as_slice(), host),
        }
    }

    /// How many different hosts the index has, or 0 where there is none. Fewer hosts can't be all that are in the rows.
    pub fn count_indexed(&self) -> usize
        ensures { NeedsHosts self.now result }
    {
        match &self.index {
            Some(index) => index.get().len(),
            None => 0,
        }
    }
}

// The place of a host's first row.
fn walk_to(rows: &[HostRow], host: &Host) -> Option<u32>
    requires few { length rows.now < ROW_LIMIT }
    ensures { result ≡ place_of host.now rows.now }
{
    for place in 0..rows.len() {
        let row = &rows[place];
        if row.host == *host {
            return Some(place as u32);
        }
    }
    None
}

impl PartialEq for Assignment {
    ghost use Rattle.std.specs.Cmp.{decided, partial_equiv_from_equiv};
    ghost use Rattle.ev_types.specs.SameHosts.{rows_same, rows_decide};

    ghost eq = { rows_same };

    ghost laws = { partial_equiv_from_equiv (decided rows_same rows_decide) };

    fn eq(&self, other: &Assignment) -> bool {
        self.rows == other.rows
    }
}

impl Eq for Assignment {
    ghost use Rattle.std.specs.Cmp.{decided};
    ghost use Rattle.ev_types.specs.SameHosts.{rows_same, rows_decide};

    ghost laws = { decided rows_same rows_decide };
}
