ghost use Rattle.std.specs.Prelude.{◌≡◌, ℕ, ◌<◌, ◌≤◌, ◌⊎◌, Bool, IsTrue, List, length, take, Option, Ok, OnOk, OnErr, IfOk};
ghost use Rattle.std.specs.Io.KnownBytes.{prepend_known, append_known, IsAtEnd};
ghost use Rattle.ev_io.specs.Outside.{Rose, AppendsPrefix};

/// A read or a write that failed. It says no more: the count of faults shows that it happened.
#[derive(Clone, Copy, Debug, PartialEq, Eq)]
pub struct Failed;

/// What bytes are read from. Each implementation may say which bytes are left, and then goes on
/// saying it; what isn't known stays unknown.
pub trait Source {
    // the bytes not yet given, where they are known
    ghost left: { Self → Option (List ℕ) };

    // whether it gave its end: a read with a buffer that isn't empty gave no byte
    ghost ended: { Self → Bool };

    // how many faults there were; a counter that stops at its last value
    ghost faults: { Self → ℕ };

    /// Puts the next bytes at the beginning of `buf` and says how many. 0 for a buffer that isn't
    /// empty is the end of input.
    ///
    /// # Errors
    /// `Failed` where the outside failed: nothing was taken, and the count rose; `buf` is
    /// unspecified then. An `Ok` leaves the count as it was, so the count shows whether any call failed.
    fn read(&mut self, buf: &mut [u8]) -> Result<usize, Failed>
        ensures bound { IfOk result (λ n. n ≤ length buf.new) }
        ensures bytes { IfOk result (λ n. left self.old ≡ prepend_known (take n buf.new) (left self.new)) }
        ensures end { IfOk result (λ n. n ≡ 0 → 0 < length buf.new → IsAtEnd (left self.new)) }
        ensures ended { IfOk result (λ n. n ≡ 0 → 0 < length buf.new → IsTrue (ended self.new)) }
        ensures goes_on { (ended self.new ≡ ended self.old) ⊎ ((result ≡ Ok 0) × IsTrue (ended self.new)) }
        ensures unchanged { OnErr result (left self.new ≡ left self.old) }
        ensures failed { OnErr result (Rose (faults self.old) (faults self.new)) }
        ensures same_count { OnOk result (faults self.new ≡ faults self.old) }
        ensures count { faults self.old ≤ faults self.new };
}

/// What bytes are written to. Each implementation may say which bytes were written, and then goes
/// on saying it; what isn't known stays unknown.
pub trait Sink {
    // the bytes written so far, where they are known
    ghost written: { Self → Option (List ℕ) };

    // how many faults there were; a counter that stops at its last value
    ghost faults: { Self → ℕ };

    /// Appends the first bytes of `bytes` and says how many: at least one where there is one.
    ///
    /// # Errors
    /// `Failed` where the outside failed: nothing was appended, and the count rose. An `Ok` leaves
    /// the count as it was, so the count shows whether any call failed.
    fn write(&mut self, bytes: &[u8]) -> Result<usize, Failed>
        ensures bound { IfOk result (λ n. n ≤ length bytes.now) }
        ensures some { IfOk result (λ n. 0 < length bytes.now → 0 < n) }
        ensures bytes { IfOk result (λ n. written self.new ≡ append_known (written self.old) (take n bytes.now)) }
        ensures unchanged { OnErr result (written self.new ≡ written self.old) }
        ensures failed { OnErr result (Rose (faults self.old) (faults self.new)) }
        ensures same_count { OnOk result (faults self.new ≡ faults self.old) }
        ensures count { faults self.old ≤ faults self.new };
}

/// Writes all of `bytes`, in as many calls as it takes.
///
/// # Errors
/// `Failed` where one of the sink's calls failed: its count rose. What was appended before is a
/// prefix of `bytes`. After an `Ok` the count is as before.
#[tactic(auto, using(crate::proofs::Known::appended_more))]
pub fn write_all<K: Sink>(sink: &mut K, bytes: &[u8]) -> Result<(), Failed>
    ensures whole { OnOk result (K.written sink.new ≡ append_known (K.written sink.old) bytes.now) }
    ensures prefix { OnErr result (AppendsPrefix (K.written sink.old) (K.written sink.new) bytes.now) }
    ensures failed { OnErr result (Rose (K.faults sink.old) (K.faults sink.new)) }
    ensures same_count { OnOk result (K.faults sink.new ≡ K.faults sink.old) }
    ensures count { K.faults sink.old ≤ K.faults sink.new }
{
    let mut done = 0;
    while done < bytes.len() {
        done += sink.write(&bytes[done..])?;
    }
    Ok(())
}
