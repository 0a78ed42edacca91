ghost use Rattle.std.specs.Prelude.{◌≡◌, ◌+◌, ◌↔◌, IsTrue, Contains};
ghost use Rattle.ev_io.specs.Outside.{raised};

/// The calls of something over memory: which are to fail, how many there were, and how many failed.
#[derive(Drop)]
pub(crate) struct Calls {
    pub(crate) fails: Vec<u64>,
    pub(crate) made: u64,
    pub(crate) faults: u64,
}

impl Calls {
    pub(crate) fn new(fails: Vec<u64>) -> Calls
        ensures { result ≡ record { fails = fails; made = 0; faults = 0 } }
    {
        Calls {
            fails,
            made: 0,
            faults: 0,
        }
    }

    /// Counts a call, and says whether it is one that is to fail.
    pub(crate) fn begin(&mut self) -> bool
        ensures named { IsTrue result ↔ Contains self.old.fails.items (self.old.made + 1) }
        ensures counted { self.new ≡ record self.old { made = raised self.old.made } }
    {
        let before = self.made;
        self.made = before.saturating_add(1);
        self.fails
            .iter()
            .any(|number| *number > before && *number - before == 1)
    }

    /// Counts a fault.
    pub(crate) fn fail(&mut self)
        ensures { self.new ≡ record self.old { faults = raised self.old.faults } }
    {
        self.faults = self.faults.saturating_add(1);
    }
}
