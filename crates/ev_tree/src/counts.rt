ghost use Rattle.std.specs.Prelude.{◌≡◌};
ghost use Rattle.ev_tree.specs.Counts.{exactly_one, more_than_one};

/// Whether exactly one of these holds.
pub fn exactly_one(tests: &[bool]) -> bool
    ensures { result ≡ exactly_one tests.now }
{
    tests.iter().filter(|test| **test).count() == 1
}

/// Whether more than one of these holds.
pub fn more_than_one(tests: &[bool]) -> bool
    ensures { result ≡ more_than_one tests.now }
{
    tests.iter().filter(|test| **test).count() > 1
}
