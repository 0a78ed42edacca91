ghost use Rattle.std.specs.Prelude.{◌≡◌, [], true, map, is_some, IfOk, OnOk, OnErr};
ghost use Rattle.std.specs.List.{list_all};
ghost use Rattle.ev_types.specs.Hosts.{HostRowParts};
ghost use Rattle.ev_indexes.specs.KeptEndpoints.{result_in, marked_in, chosen_in, is_eligible, Notes, Forgets, Trims, SameMarked, Unmarks, MayMark};

use crate::marked::{MarkedRows, are_many, note_mark};
use crate::results::Results;
use ev_hosts::{ChosenHosts, Marks};
use ev_keys::Keys;
use ev_types::{Assignment, Gen, Host, HostRow, Shared, TryCopy};
use indexmap::IndexMap;
use std::alloc::{AllocError, Global};
use std::marker::Model;

/// The last health result of each host for each generation, looked up by `result_in`;
/// a generation without a result has no entry. Of some generations the rows of their assignment are kept with a mark
/// for each, whether its host may be chosen (`marked_in`).
#[derive(Drop)]
pub struct Endpoints {
    results: Results,
    marked: IndexMap<u32, MarkedRows>,
}

impl Model for Endpoints {
    ghost use Rattle.ev_indexes.specs.KeptEndpoints.{ResultsKept};
    ghost use Rattle.ev_indexes.specs.Marked.{AreMarked, rows_marked};

    ghost Value = { ResultsKept };

    ghost view = { λ e. record { hosts = e.results; marked = rows_marked e.marked.entries } };

    ghost invariant = { λ e. AreMarked e.results e.marked.entries };
}

impl Endpoints {
    /// No result. Hosts are hashed by these keys. It takes no memory.
    pub fn new(alloc: Global, keys: Keys) -> Endpoints
        ensures { result ≡ record { hosts = []; marked = [] } }
    {
        Endpoints {
            results: Results::new(alloc, keys),
            marked: IndexMap::new(alloc),
        }
    }

    /// Keeps a result of a host for a generation in place of an earlier one. Out of memory, all stays as it was.
    pub fn note(
        &mut self,
        alloc: Global,
        number: Gen,
        host: &Host,
        healthy: bool,
    ) -> Result<(), AllocError>
        ensures ok { OnOk result (Notes self.old self.new number host.now healthy) }
        ensures marked { OnOk result (SameMarked self.old self.new) }
        ensures err { OnErr result (self.new ≡ self.old) }
    {
        self.results.note(alloc, number, host, healthy)?;
        note_mark(&mut self.marked, number, host, healthy);
        Ok(())
    }

    /// The last result of a host for a generation.
    pub fn result(&self, number: Gen, host: &Host) -> Option<bool>
        ensures { result ≡ result_in self.now number host.now }
    {
        self.results.result(number, host)
    }

    /// Whether each of these hosts has a result for the generation.
    /// As long as it has fewer results than the index of the hosts has hosts, no host is looked at.
    pub fn first_round_done(&self, number: Gen, rows: &Assignment) -> bool
        ensures { result ≡ list_all (λ (row : HostRowParts). is_some (result_in self.now number row.host)) rows.now }
    {
        self.results.first_round_done(number, rows)
    }

    /// Whether a host may be chosen for the generation, where its hosts are health checked or not.
    pub fn eligible(&self, number: Gen, checked: bool, row: &HostRow) -> bool
        ensures { result ≡ is_eligible self.now number checked row.now }
    {
        self.results.eligible(number, checked, row)
    }

    /// Marks which hosts of these rows, the assignment of a generation whose hosts are health checked,
    /// may be chosen, where the generation has no marked rows yet and there are many rows, each of another host.
    /// From then on a result of a host changes one mark. Out of memory, all stays as it was.
    pub fn mark(
        &mut self,
        alloc: Global,
        number: Gen,
        rows: &Shared<Assignment>,
    ) -> Result<(), AllocError>
        ensures results { self.new.hosts ≡ self.old.hosts }
        ensures ok { OnOk result (MayMark self.old self.new number rows.now) }
        ensures err { OnErr result (self.new ≡ self.old) }
    {
        if self.marked.contains_key(&number.number()) || !are_many(rows.get()) {
            return Ok(());
        }
        let marks = self.marks_of(alloc, number, true, rows.get())?;
        let rows = rows.share()?;
        let Ok(_) = self
            .marked
            .insert(number.number(), MarkedRows { rows, marks })
        else {
            return Err(AllocError);
        };
        Ok(())
    }

    /// Which hosts of these rows may be chosen for the generation,
    /// where its hosts are health checked or not: a mark for each row.
    pub fn marks_of(
        &self,
        alloc: Global,
        number: Gen,
        checked: bool,
        rows: &Assignment,
    ) -> Result<Marks, AllocError>
        ensures { IfOk result (λ marks. marks ≡ map (is_eligible self.now number checked) rows.now) }
    {
        let mut marks = Marks::new(alloc);
        for row in rows.rows() {
            marks.push(self.eligible(number, checked, row))?;
        }
        Ok(marks)
    }

    /// The hosts that may be chosen of the rows that are marked for the generation,
    /// where there are some. They share the rows.
    pub fn chosen(&self, alloc: Global, number: Gen) -> Result<Option<ChosenHosts>, AllocError>
        ensures { IfOk result (λ chosen. chosen ≡ chosen_in self.now number) }
    {
        let Some(marked) = self.marked.get(&number.number()) else {
            return Ok(None);
        };
        let rows = marked.rows.share()?;
        let marks = marked.marks.copy(alloc)?;
        Ok(Some(ChosenHosts::new(rows, marks)))
    }

    /// Forgets the results of a generation, and its marks. It takes no memory.
    pub fn forget(&mut self, number: Gen)
        ensures results { Forgets self.old self.new number }
        ensures marked { Unmarks self.old self.new number }
    {
        self.results.forget(number);
        self.marked.swap_remove(&number.number());
    }

    /// Forgets the results of a generation for hosts that aren't among these rows, and its marks.
    /// Out of memory, all stays as it was.
    pub fn trim(&mut self, alloc: Global, number: Gen, rows: &Assignment) -> Result<(), AllocError>
        ensures ok { OnOk result (Trims self.old self.new number rows.now) }
        ensures marked { OnOk result (Unmarks self.old self.new number) }
        ensures err { OnErr result (self.new ≡ self.old) }
    {
        self.results.trim(alloc, number, rows)?;
        self.marked.swap_remove(&number.number());
        Ok(())
    }
}
