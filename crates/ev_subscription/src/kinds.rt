ghost use Rattle.std.specs.Prelude.{◌≡◌};
ghost use Rattle.ev_model.specs.Watching.{kinds_before, kinds_behind};

use ev_types::Kind;

/// The kinds that are asked for by name before listeners are asked for, in the order of their requests.
pub fn kinds_before() -> [Kind; 1]
    ensures { result ≡ kinds_before }
{
    [Kind::Eds]
}

/// The kinds that are asked for by name after listeners are, in the order of their requests.
pub fn kinds_behind() -> [Kind; 3]
    ensures { result ≡ kinds_behind }
{
    [Kind::Rds, Kind::Sds, Kind::Ecds]
}
