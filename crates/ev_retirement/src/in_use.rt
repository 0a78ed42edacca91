ghost use Rattle.std.specs.Prelude.{◌≡◌};

use crate::Pictures;
use ev_drain::Shows;
use ev_types::Gen;

/// What the pictures in use show, for the drain.
#[derive(Drop)]
pub(crate) struct InUse<'a> {
    pub(crate) pictures: &'a Pictures,
}

impl<'a> Shows for InUse<'a> {
    ghost use Rattle.ev_retirement.specs.Pictures.{is_shown_by};

    ghost has = { λ shown number. is_shown_by number shown.pictures.now };

    fn shows(&self, number: Gen) -> bool {
        self.pictures.shows(number)
    }
}
