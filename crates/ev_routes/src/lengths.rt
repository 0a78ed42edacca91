ghost use Rattle.std.specs.Prelude.{◌≡◌, [], true, OnOk};
ghost use Rattle.ev_routes.specs.Domains.{KeepsLengths, has_length};

use ev_types::Seq;
use std::alloc::{AllocError, Global};
use std::marker::Model;

/// Which lengths are there: at each place, whether that length is.
#[derive(Drop)]
pub(crate) struct Lengths {
    there: Seq<bool>,
}

impl Model for Lengths {
    ghost use Rattle.std.specs.Prelude.{Bool, List};

    ghost Value = { List Bool };

    ghost view = { λ l. l.there };
}

impl Lengths {
    /// No length. It takes no memory.
    pub(crate) fn new(alloc: Global) -> Lengths
        ensures { result ≡ [] }
    {
        Lengths {
            there: Seq::new(alloc),
        }
    }

    /// Whether the length is there.
    pub(crate) fn has(&self, length: usize) -> bool
        ensures { result ≡ has_length length self.now }
    {
        if self.there.len() <= length {
            return false;
        }
        self.there.as_slice()[length]
    }

    /// Enters a length.
    pub(crate) fn enter(&mut self, length: usize) -> Result<(), AllocError>
        ensures there { OnOk result (has_length length self.new ≡ true) }
        ensures keeps { OnOk result (KeepsLengths self.old self.new) }
    {
        while self.there.len() <= length {
            self.there.push(false)?;
        }
        self.there.set(length, true);
        Ok(())
    }
}
