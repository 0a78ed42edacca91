ghost use Rattle.std.specs.Prelude.{◌≡◌};
ghost use Rattle.ev_retirement.specs.Retiring.{RetirementsStand, is_dropped};

use ev_types::RowStatus;

/// Where exactly the generations of some numbers ceased to be live between two worlds, which hold the same, what
/// holds generations represents the second one once these are noted, one after another.
pub fn retirements_stand()
    ensures { RetirementsStand }
{}

/// Whether the row was dropped before it served.
pub(crate) fn is_dropped(status: RowStatus) -> bool
    ensures { result ≡ is_dropped status }
{
    matches!(status, RowStatus::Dropped)
}
