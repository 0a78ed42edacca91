ghost use Rattle.std.specs.Prelude.{◌≡◌, [], nat_eq, ◌&&◌, ◌||◌, not, false, None, Some, IfOk, unwrap_or, is_some, length, OnOk, OnErr};
ghost use Rattle.std.specs.List.{list_all};
ghost use Rattle.ev_types.specs.Hosts.{HostRowParts};
ghost use Rattle.ev_indexes.specs.Results.{hosts_among, result_among, results_of, NotesAmong, ForgetsAmong, TrimsAmong, HasHosts, Keeps, KeepsAmong, is_eligible_among};

use ev_keys::Keys;
use ev_types::{Assignment, Gen, Host, HostRow, TryCopy};
use indexmap::IndexMap;
use std::alloc::{AllocError, Global};
use std::marker::Model;

type Hosts = IndexMap<Host, bool, Keys>;

/// The last health result of each host for each generation; a generation without a result has no entry.
/// Contracts see the results as a list of lists, by number and by host, and look them up by `result_among`.
#[derive(Drop)]
pub(crate) struct Results {
    // By these a map of hosts hashes. Generations' numbers are allocated, and need none.
    keys: Keys,
    results: IndexMap<u32, Hosts>,
}

impl Model for Results {
    ghost use Rattle.ev_indexes.specs.Results.{HostResults, HasNoEmpty, results_of};

    ghost Value = { HostResults };

    ghost view = { λ e. results_of e.results.entries };

    ghost invariant = { λ e. HasNoEmpty (results_of e.results.entries) };
}

impl Results {
    /// No result. Hosts are hashed by these keys. It takes no memory.
    pub(crate) fn new(alloc: Global, keys: Keys) -> Results
        ensures { result ≡ [] }
    {
        Results {
            keys,
            results: IndexMap::new(alloc),
        }
    }

    /// Keeps a result of a host for a generation in place of an earlier one. Out of memory, all stays as it was.
    pub(crate) fn note(
        &mut self,
        alloc: Global,
        number: Gen,
        host: &Host,
        healthy: bool,
    ) -> Result<(), AllocError>
        ensures ok { OnOk result (NotesAmong self.old self.new number host.now healthy) }
        ensures err { OnErr result (self.new ≡ self.old) }
    {
        let host = host.copy(alloc)?;
        let at = number.number();
        if let Some(hosts) = self.results.get_mut(&at) {
            return put(hosts, host, healthy);
        }
        let mut hosts = IndexMap::with_hasher(alloc, self.keys);
        put(&mut hosts, host, healthy)?;
        put_hosts(&mut self.results, at, hosts)
    }

    /// The last result of a host for a generation.
    pub(crate) fn result(&self, number: Gen, host: &Host) -> Option<bool>
        ensures { result ≡ result_among self.now number host.now }
    {
        match self.results.get(&number.number()) {
            Some(hosts) => hosts.get(host).copied(),
            None => None,
        }
    }

    // How many hosts have a result for the generation.
    fn count(&self, number: Gen) -> usize
        ensures { result ≡ length (hosts_among self.now number) }
    {
        match self.results.get(&number.number()) {
            Some(hosts) => hosts.len(),
            None => 0,
        }
    }

    /// Whether each of these hosts has a result for the generation.
    /// As long as it has fewer results than the index of the hosts has hosts, no host is looked at.
    pub(crate) fn first_round_done(&self, number: Gen, rows: &Assignment) -> bool
        ensures { result ≡ list_all (λ (row : HostRowParts). is_some (result_among self.now number row.host)) rows.now }
    {
        if self.count(number) < rows.count_indexed() {
            return false;
        }
        rows.rows()
            .iter()
            .all(|row| self.result(number, &row.host).is_some())
    }

    /// Whether a host may be chosen for the generation, where its hosts are health checked or not.
    pub(crate) fn eligible(&self, number: Gen, checked: bool, row: &HostRow) -> bool
        ensures { result ≡ is_eligible_among self.now number checked row.now }
    {
        row.usable && (!checked || self.result(number, &row.host).unwrap_or(false))
    }

    /// ForgetsAmong the results of a generation. It takes no memory.
    pub(crate) fn forget(&mut self, number: Gen)
        ensures { ForgetsAmong self.old self.new number }
    {
        self.results.swap_remove(&number.number());
    }

    /// ForgetsAmong the results of a generation for hosts that aren't among these rows.
    /// Out of memory, all stays as it was.
    pub(crate) fn trim(
        &mut self,
        alloc: Global,
        number: Gen,
        rows: &Assignment,
    ) -> Result<(), AllocError>
        ensures ok { OnOk result (TrimsAmong self.old self.new number rows.now) }
        ensures err { OnErr result (self.new ≡ self.old) }
    {
        let at = number.number();
        let Some(hosts) = self.results.get(&at) else {
            return Ok(());
        };
        let kept = standing(alloc, hosts, rows.rows())?;
        if kept.is_empty() {
            self.results.swap_remove(&at);
            return Ok(());
        }
        put_hosts(&mut self.results, at, kept)
    }
}

// The results of the hosts that are among these rows.
fn standing(alloc: Global, hosts: &Hosts, rows: &[HostRow]) -> Result<Hosts, AllocError>
    ensures { IfOk result (λ kept. KeepsAmong hosts.now kept rows.now) }
{
    let mut kept = IndexMap::with_hasher(alloc, *hosts.hasher());
    for row in rows {
        if let Some(healthy) = hosts.get(&row.host) {
            put(&mut kept, row.host.copy(alloc)?, *healthy)?;
        }
    }
    Ok(kept)
}

// The results of a generation in place of earlier ones. Out of memory, all stays as it was.
fn put_hosts(
    results: &mut IndexMap<u32, Hosts>,
    number: u32,
    hosts: Hosts,
) -> Result<(), AllocError>
    ensures ok { OnOk result (HasHosts results.old results.new number hosts) }
    ensures err { OnErr result (results.new.entries ≡ results.old.entries) }
{
    let Ok(_) = results.insert(number, hosts) else {
        return Err(AllocError);
    };
    Ok(())
}

// Keeps one more result. Out of memory, all stays as it was.
fn put(hosts: &mut Hosts, host: Host, healthy: bool) -> Result<(), AllocError>
    ensures ok { OnOk result (Keeps hosts.old hosts.new host healthy) }
    ensures err { OnErr result (hosts.new.entries ≡ hosts.old.entries) }
{
    let Ok(_) = hosts.insert(host, healthy) else {
        return Err(AllocError);
    };
    Ok(())
}
