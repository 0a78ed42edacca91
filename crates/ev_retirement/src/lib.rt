//! What holds generations: the pictures, the open connections, and those that drain or were dropped, as a world has
//! them.
//!
//! Pictures (`Pictures`) are what was published last, and which snapshot each worker holds.
//!
//! # Choices
//!
//! - The marks of drain timeouts are in the drain alone. So the world's marks have to be those of retired rows:
//!   `HoldsFor` says it, and each call keeps it.
//! - A settle closes by number what it finds of the worker on marked listeners, and moves what it finds on listeners
//!   that the last picture doesn't show. That this is what the machine closes and moves by listener rests on the
//!   ledger having no worker and number twice. A connection moves by a close and an open: the ledger's list is by
//!   worker and number, so it is in its place again.
//! - A settle that went over all of its worker's connections would make a script's time grow with their square. So
//!   what it closes and moves is kept as a set by worker and number (`Closing`): the drain timeout enters what is
//!   open on its listeners and a publication what is open on those that it takes away, by the ledger's index, and an
//!   accept what it opens on a listener that is marked or no longer shown. A list for each worker of the marks since
//!   its last settle would cost each worker a look at each mark, also where it has nothing open there. What a settle
//!   finds that neither closes nor moves it forgets, but for what is on a marked listener whose chain stays. In the
//!   order of worker and number a settle's numbers come from the least, with no sort.
//! - A publication also enters what moves because its chain is shown again, by the ledger's index of where chains
//!   began. In a run no chain comes back once a picture was without it, so nothing is found there; but nobody need
//!   prove that.
//! - That set has too much at times, never too little, which is the invariant: so a drain timeout may run out of
//!   memory half way before anything is marked. A settle asks the ledger and the drain about each that it finds.
//! - A batch's line opens by the choice in its outcome, and nothing is chosen again under the lock. The answers alone
//!   don't say what was opened: one without an endpoint may be a choice whose host isn't found. So a worker says
//!   which choice each line is answered by (`AreAnswered`), and not only the answer.
//! - A connection that comes where one of its number is open opens nothing, as in the machine: a batch needs no
//!   condition.
//! - The drain timeout's tidying is the managers': the clause gives the world before it.
//! - A publication is described by its changes, and the next snapshot is made of the last one. So no last picture is
//!   kept beside its snapshot as data. The contract doesn't ask that the changes lead to what workers may serve: it
//!   says what holds where they do, and the proxy proves that they do.
//! - The next snapshot is made first and published then, which takes no memory: whoever holds the pictures looks at
//!   both in between.
//! - A world's pictures are a history, of which only the last and those that workers hold are kept. So `HasPictures`
//!   also says that each version held was published: a later picture then doesn't change what it shows.
//! - Whether a generation is in use is asked of each worker's snapshot in turn. There are as many as workers, and
//!   most are one and the same; a count for each generation and snapshot would have to be kept at each publication,
//!   over whole pictures.
#![tactic(auto)]

mod aside;
mod asking;
mod closing;
mod holders;
mod in_use;
mod letting_go;
mod lines;
mod pictures;
mod reaping;
mod retiring;
mod serving;

pub use holders::Holders;
pub use lines::answer_of;
pub use pictures::Pictures;
pub use retiring::retirements_stand;
