ghost use Rattle.ev_model_laws.specs.Walks.{FindsStrays, FindsTheFirst, GoesOn, MovesOn, NumbersLast, TakesNext};

/// A law of the definitions: what is found of a journal is what is found at the first place
/// where there is anything, or after the last row. It does nothing.
pub fn finds_the_first()
    ensures { FindsTheFirst }
{}

/// A law of the definitions: a row that records no operation that may come next isn't the script's. It does nothing.
pub fn finds_strays()
    ensures { FindsStrays }
{}

/// A law of the definitions: a row that records what comes next is its entry,
/// of which nothing is found but by its answer and its batch. It does nothing.
pub fn takes_next()
    ensures { TakesNext }
{}

/// A law of the definitions: after such a row the journal has its entry more. It does nothing.
pub fn goes_on()
    ensures { GoesOn }
{}

/// A law of the definitions: an entry more changes of its own actor alone what is left of its operations,
/// and whether settles may be left out. It does nothing.
pub fn moves_on()
    ensures { MovesOn }
{}

/// A law of the machine: as long as nothing is found, the numbers of generations suffice for
/// what comes next. It does nothing.
pub fn numbers_last()
    ensures { NumbersLast }
{}
