//! A lock around a value that represents its history.
//!
//! A gate keeps one value and lets one seat at a time have it. A value represents a list of commits, each with the
//! number of the seat that made it. Who has the value knows the whole list, and that its own commits in it are those
//! that it made and no others; who closes the gate knows it of every seat.
//! A gate also reports the newest version of its value without a turn.
//! Seats are served in the order in which they draw a ticket. Nothing is said of when.
//!
//! # What it is
//!
//! A gate is a lock around one value whose history can be told. The value *represents* a list of commits, each beside
//! the number of the seat that made it, and has an *opening* that no commit changes. It also has a *version*, a
//! number that opening and commits determine and that does not fall along its history. It implements the trait
//! `Stands`, whose ghost members say what the three are. A gate has 1 to 20 seats. `Gate::new` gives a pass for each;
//! `Gate::turn` waits with a pass and gives a turn, which has the value; `Turn::done` and `Turn::quit` give the pass
//! back; `Gate::newest` tells a pass a version without a turn and without waiting; `Gate::close` takes all passes, in
//! any order, and gives the value.
//!
//! Passes and turns have no `Drop`: who has one must spend it. So a turn is always ended, a seat has one turn at a
//! time, and a gate is closed with all its passes.
//!
//! A plain mutex would keep an invariant of the value, and nothing more would be known of it each time the lock is
//! taken. Here who takes a turn knows that the value's commits begin with all that its pass has seen, and that of the
//! commits since the gate was made those with its own number are exactly the ones that it made, in its order. Who
//! closes the gate knows that of every seat. Turn and close also say that the opening, and the commits at the start,
//! are those of the value that `new` got, so a caller that gets gate and pass as parameters learns it too.
//!
//! # Its words
//!
//! The gate's memory is a table of the kit's crate `atomic_table` with three words and one slot. All steps are
//! sequentially consistent.
//!
//! | word or slot | what it holds |
//! |---|---|
//! | `ticket` | the ticket that is drawn next, modulo 2^64 |
//! | `serving` | the ticket that is served, modulo 2^64 |
//! | `newest` | the version of some beginning of the history |
//! | the slot | the value, as an `Option` |
//!
//! # Its steps
//!
//! | step | where | what it does |
//! |---|---|---|
//! | start | `Gate::new` | `ticket` and `serving` are 0, `newest` is the value's version, the value is at home, and there is one seat |
//! | split (a load whose answer is not used) | `Gate::new` | the first seat makes the next one. The new seat's number is its place among the seats |
//! | draw (an addition of 1 to `ticket`) | `Gate::turn` | the seat has a ticket, the number found |
//! | look (a load of `serving`) | `Gate::turn` | where the word is the seat's ticket, the slot is out with this seat from this step on, and the seat has seen all commits. Else nothing changes; after some looks the thread sleeps at its ticket's bell |
//! | exchange (plain memory) | `Gate::turn`, and at a turn's end | the value leaves the slot, or goes back into it. Only the seat that holds the slot can do this |
//! | end (an addition of 1 to `serving`, and a ring of the next ticket's bell) | `Turn::done`, `Turn::quit` | the slot is at home again, the seat has no ticket, and the next ticket is served |
//! | raise (a maximum of `newest` and the value's version) | `Turn::done`, `Turn::quit`, after the end | `newest` is not below the version of the value that the seat gave back |
//! | ask (a maximum of `newest` and the version that the pass knows) | `Gate::newest` | the seat has heard of the history that had the greater of the two, and the answer is that version |
//! | join (a load whose answer is not used) | `Gate::close` | the seat of the first pass takes in the next one, and remembers what it knew |
//!
//! # The rule, in plain words
//!
//! Beside its number a seat knows the opening, the commits that the value represented at the start, the commits since
//! then that it has seen, and whether it has a ticket, which one, and whether that is served. Tickets are counted
//! without end here, and modulo 2^64 in the words. It also knows the greatest version that it has heard of, *the
//! beginning of the history that had it*, and the version to which it has raised the word `newest`. The first seat
//! knows how many seats there are. A seat that takes in others at the close knows what they knew.
//!
//! At every moment there are a number `drawn`, a number `served`, a list `since`, the commits since the start, and a
//! beginning `reached` of it, such that:
//!
//! 1. the words are `drawn` and `served`, modulo 2^64, and the version of the start and then `reached`;
//! 2. `drawn` is `served` and as many more as seats have a ticket. There are at most 20 seats, so two tickets whose
//!    words are equal are equal;
//! 3. a seat's number is its place; its opening and its start are the gate's; what it has seen is a beginning of
//!    `since`, and the rest of `since` has no commit of this seat;
//! 4. a ticket is not below `served` and is below `drawn`; no two seats have the same;
//! 5. who is served has the ticket `served`, and has seen all of `since`;
//! 6. the slot is at home, with a value of the gate's opening that represents the start and then `since`; or it is
//!    out, and a seat is served;
//! 7. the number of a seat that is not made yet has no commit in `since`;
//! 8. the first seat's count of seats is right; what a seat was told by those that it took in is so (3 and 9 hold of
//!    it), and they are spent; the seats that are not spent, and those that one seat took in, are together no more
//!    than there are seats;
//! 9. the version that a seat has heard of is that of a beginning of `since`, which it knows; the version to which it
//!    has raised the word is not above the word;
//! 10. no beginning of `since` has a version above that of all of `since`.
//!
//! Each step changes what its own seat knows and nobody else's knowledge, but for the split and the join, which
//! change two. For each kind of step one lemma says that it keeps the rule; `proofs/Steps.antt` has them under
//! `starts`, `splits`, `draws`, `looks`, `ends`, `raises`, `asks`, `joins` and `closes`.
//!
//! # Why one history follows
//!
//! - *A turn has the value alone.* The look that finds the own ticket served also finds the slot at home: were it
//!   out, a seat would be served with the ticket `served` (5, 6), which is this seat's own ticket, so it would be
//!   this seat (4), which is only waiting.
//! - *The turn's history.* At that step the seat sees all of `since`. What it had seen is a beginning of it, and the
//!   rest is not its own (3). So its own commits in the history are those that it had counted already.
//! - *The end of a turn.* The new commits are the seat's own (none, or one). For every other seat they are one more
//!   piece of history that it has not seen and that is not its own (3). Every other ticket is above `served`, since
//!   no two are equal, so 4 holds after `serving` has moved on.
//! - *The close.* Whichever pass comes first, its seat takes in the others. When it has taken in all but one of as
//!   many seats as there may be, no other is left (8), none is served, and so the slot is at home (6). It knows what
//!   each seat has seen and has heard of, and so its commits in the history (8, 3), and no other number has any (7).
//!   That no pass comes twice needs no condition: a pass cannot be copied.
//!
//! # The newest version
//!
//! The third word lets an idle worker ask whether there is anything new without waiting for a turn. `Turn::done`
//! first ends the turn, which makes its commit part of the history, and only then raises the word to the value's
//! version. Were it the other way round, a reader could be told a version that the history does not have yet.
//! `Turn::quit` raises the word too, to the version of the value that it saw, which the seat that made the commit may
//! not have done yet. So a pass at rest has always raised the word to the version that it knows: its type says so,
//! and a turn's end that left the raise out would not give a pass. `Gate::newest` is one step, a maximum of the word
//! and the version that the pass knows, and returns the greater.
//!
//! - *The answer is a version that the history had at that step.* The word is the version of a beginning of `since`
//!   (1), and so is the version that the pass knows (9). Which beginning, the pass then knows: a bare number could be
//!   made up, so the contract ties the answer to a list of commits, and `turn` and `close` say that this list is a
//!   beginning of the history that they find.
//! - *It is not below any version that this pass has seen.* The pass knows the greatest: that of its last turn's
//!   history, or of a later answer. At a turn's end its version is that of the value, which is not below what it had
//!   heard of before (9, 10).
//! - *What a pass has seen and counts as its own stays.* An answer changes only what the pass has heard of.
//! - *The word never falls.* A seat that lowered it would break 9 for another.
//!
//! # What is not promised
//!
//! That a turn ever comes; that seats are served in a fair order or within some time; that a wake reaches a thread;
//! that the program does not hang where a seat keeps its turn, or where a thread that has a pass waits for one that
//! waits for it. `Gate::turn` may wait, and its clauses hold if it returns. Tickets are served in the order in which
//! they are drawn, but no clause says so. Nothing is said of the order in time of two commits beyond their order in
//! the history.
//!
//! Of `newest`: that an answer is the last version there is, or that it comes within some time after a commit.
//! Between the end of a turn and its raise the word lags, and a pass that has seen nothing new can be told the
//! older version. No clause says that the call looks at the word at all: a body that returns the version that the
//! pass knows would meet every clause. The tests alone refuse it: a pass that made no turn is told a version that
//! another published, and after two seats have published 300 times each, every pass is told 600.
//!
//! # For the layer above
//!
//! A closure that owns a value without `Drop` is refused, so a pass cannot be moved into `join` or `map_vec`. Give
//! each actor a struct that has its pass in an `Option`, lend the slice of these to `std::thread::for_each_mut` with
//! as many threads as seats, which takes no memory and cannot be refused, and take and put back the pass inside
//! (`take().unwrap()`, `replace`). The gates of device_tests do this, and what they state index by index is proved
//! with loop invariants alone. That a turn adds one commit to what its pass counts as its own, or none, is proved of
//! the tests' `take_turn` with no proof file.
//!
//! A value that `Stands` gives its opening, its commits and its version by ghost members, and the number by
//! `version`. The version need not be a length: the tests' value counts the commits of one kind. Who calls `done`
//! shows that the version has not fallen, for which it is enough that it does not fall when one commit is added.
//!
//! # Choices
//!
//! - `close` takes the passes in any order, and as many as there are seats. That each is there once follows from the
//!   count, since a pass cannot be copied; the proof takes it from the table, whose seats are told apart by who owns
//!   them. The seat of whichever pass comes first takes in the others.
//! - A pass counts as its own those of the commits that it has seen since `new` which bear its number. `mine` is
//!   therefore no list of its own beside `seen` but a word on it; that it is all that the history has of the seat is
//!   what `turn` and `close` ensure.
//! - That `done` has one commit more means: the history that the turn has seen, then one commit, whose number is the
//!   turn's.
//! - `turn`, `newest` and `close` speak of the gate's first value, so that gate and pass are enough to know its
//!   opening and its start. A step at the table cannot name that value by itself: the steps of `draw` and `newest`
//!   carry a type parameter whose ghost member is the value, and which each call picks.
//! - That a turn and its gate belong together is kept by the type `Turn`, so `done` and `quit` have no condition on
//!   it.
//! - `Turn::value` says by a clause on the loan what the turn has after the write, so a caller needs no proof file
//!   for it.
//! - A waiting thread sleeps at a bell of its own, and the end of a turn wakes the one
//!   that is next, if it sleeps: to wake all that wait took run twice to three times the time.
//!   Bells are kept beside the table, and no clause speaks of them:
//!   a wake that is spurious does no harm, since a thread looks again, and none is lost,
//!   since a thread looks once more after it has said that it will sleep.
//! - `Gate` has no `Drop` either: its value need not be `Drop`, so a gate ends in `close`.
//! - `turn` asks for a runtime that may start threads and wait (`Threads + Wait + Sync`), as each call of the
//!   threaded run does; it uses `Wait` alone.
//! - A pass knows the version that it has heard of as a number, for the step of `newest`, and as the beginning of the
//!   history that had it, for the clauses. With the number alone, 'a version that the history had' could be met by a
//!   number that was made up.
//! - That the version never falls is a condition of `done`, and no law of `Stands`: it is asked of histories that
//!   occur, and not of all lists of commits.
//! - `done` raises the word by a step of its own after the step that ends the turn. The amount is the value's
//!   version, which is not below what the pass had heard of.
//! - `quit` raises the word as well. It costs one step, and with it 'a pass at rest has raised the word to the
//!   version that it knows' is a fact of the type `Pass`, so that a `done` that raises nothing is refused by the
//!   proof and not by tests alone.
//! - `newest` is one maximum of the word and the version that the pass knows, and returns the greater. Since no pass
//!   at rest knows a version above the word, a load would do.
//! - No clause refuses a `newest` that returns the version known and looks at no word, so that one is left to the
//!   tests; the other wrong bodies of `newest` are must-fail edits.
#![tactic(auto)]

mod asks;
mod bells;
mod calls;
mod gate;
mod plays;
mod stands;
mod turns;
mod view;

pub use gate::{Gate, Pass, Turn};
pub use stands::Stands;
