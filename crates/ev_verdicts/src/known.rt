ghost use Rattle.std.specs.Prelude.{◌≡◌, IfOk};
ghost use Rattle.ev_verdicts.specs.Known.{Answers};

use ev_lookups::LiveRow;
use ev_types::{Kind, SocketAddress};
use std::alloc::{AllocError, Global};

/// What is known before a response, asked by look-ups: which generations are live,
/// which names they depend on, and which versions are kept.
/// Who implements it keeps tables, so that no question costs a walk over all generations.
pub trait Known {
    // the answers to all questions
    ghost answers: { Self → Answers };

    /// The newest live generation of a kind and name.
    fn newest(&self, kind: Kind, name: &str) -> Option<LiveRow<'_>>
        ensures { result ≡ (answers self.now).newest kind name.now };

    /// The generation of a kind and name that serves.
    fn serving(&self, kind: Kind, name: &str) -> Option<LiveRow<'_>>
        ensures { result ≡ (answers self.now).serving kind name.now };

    /// The live generations that listen at an address, in the order of their numbers.
    /// It is out of memory where the list has no room.
    fn holders(
        &self,
        alloc: Global,
        address: &SocketAddress,
    ) -> Result<Vec<LiveRow<'_>>, AllocError>
        ensures { IfOk result (λ rows. rows.items ≡ (answers self.now).holders address.now) };

    /// Whether a live generation depends on this kind and name.
    fn is_watched(&self, kind: Kind, name: &str) -> bool
        ensures { result ≡ (answers self.now).watched kind name.now };

    /// Whether this version is kept for a kind and name.
    fn is_kept(&self, kind: Kind, name: &str, version: &str) -> bool
        ensures { result ≡ (answers self.now).kept kind name.now version.now };
}
