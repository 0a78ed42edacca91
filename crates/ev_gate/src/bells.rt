//! Where seats sleep while they wait: each at a bell of its own, so that the end of a turn wakes the one that is next.
use std::array;
use std::sync::Wait;
use std::sync::atomic::{AtomicU64, Ordering};

// More than there are seats: no two that wait have tickets with the same bell.
const BELLS: usize = 32;

// What a bell shows: whether somebody sleeps at it.
const SILENT: u64 = 0;

const SOMEBODY_SLEEPS: u64 = 1;

/// A bell for each of this many tickets in a row. A ring or a sleep that is lost does no harm but
/// to time: who wakes looks again.
#[derive(Drop)]
pub(crate) struct Bells {
    bells: [AtomicU64; BELLS],
}

impl Bells {
    /// Nobody sleeps.
    pub(crate) fn new() -> Bells {
        Bells {
            bells: array::from_fn(|_| AtomicU64::new(SILENT)),
        }
    }

    /// Says that the ticket's seat will sleep. Who looks once more after this is not overheard.
    pub(crate) fn announce(&self, ticket: u64) {
        self.bell(ticket).store(SOMEBODY_SLEEPS, Ordering::SeqCst);
    }

    /// Sleeps until the ticket's bell rings, unless it has since it was announced.
    pub(crate) fn sleep<R: Wait>(&self, rt: &R, ticket: u64) {
        self.bell(ticket).park(rt, SOMEBODY_SLEEPS as u32);
    }

    /// Wakes the ticket's seat, if it sleeps.
    pub(crate) fn ring(&self, ticket: u64) {
        let bell = self.bell(ticket);
        if bell.swap(SILENT, Ordering::SeqCst) != SILENT {
            bell.wake_all();
        }
    }

    fn bell(&self, ticket: u64) -> &AtomicU64 {
        &self.bells[(ticket % BELLS as u64) as usize]
    }
}
