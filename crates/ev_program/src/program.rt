ghost use Rattle.std.specs.Prelude.{◌≡◌, ◌↔◌};
ghost use Rattle.ev_app.specs.declared.commands.Command.{Command};
ghost use Rattle.ev_app.specs.Commands.{Asks, IsWithin};
ghost use Rattle.ev_app.specs.Texts.{IsAnswered};
ghost use Rattle.ev_program.specs.Status.{outside_of, TouchesNothing, IsHonest, CountsOn, Ends};

use ev_app::{Command, Status, command_of, make};
use ev_io::{ScriptFault, Sink, Source, write_all};
use ev_run::Pace;
use ev_types::Text;
use std::alloc::Global;
use std::sync::Wait;
use std::thread::Threads;

/// Runs the program on the arguments of its command line; other arguments than these are `Usage`:
///
/// - `replay` reads a script, replays it on one thread and writes its journal, in format 2.
/// - `run` does so with a thread for each actor, which it takes of `rt`;
///   `pace` is called before each turn of an actor. Which of the script's journals is written, the threads decide;
///   each is a run that holds every actor's operations in order,
///   but for settles that are left out while a worker rests.
/// - `audit` reads a script followed by a journal, and writes a line that says what is found of the journal. It ends as
///   `Illegal` where that isn't legal.
/// - `soak SEED COUNT` reads nothing, replays the script of the seed with COUNT lines after its
///   header, 1 to 100,000, and writes one line that says what it came to.
/// - `tls` reads a script and writes the script in which each cluster that names secrets waits
///   until all of them, and its endpoints, have been reported.
///   A line that uses one of the command's own names is a `BadScript` of kind 11,
///   and a text that is too large for an input one of kind 10.
/// - `dns` reads a script with resolutions of host names, and writes the script in which each cluster
///   with host names waits until all of them were answered, and has the addresses of the last answers.
///   Its faults are those of `tls`.
/// - `chains` reads versions of one listener with several filter chains, and connections,
///   and writes the answer to each.
/// - `sotw` reads a script whose responses are those of the state of the world,
///   replays the incremental script that says the same, and writes its journal with the requests of the state
///   of the world. Where that script is too large for an input, it is a `BadScript` of kind 10.
/// - `dump K` reads as `audit` does, and writes one line of what is known after the first K entries
///   of a legal journal, or what `audit` writes of another one.
///   Where no commit ends with this many entries it is a `BadScript` of kind 12.
///
/// `BadScript` reports the first fault of the bytes taken, those at the end of the input only where the source gave its
/// end. A read that failed is reported only where the bytes taken have no fault
/// and the source didn't give its end. Out of memory, nothing is written.
/// An answer without a fault of the source leaves the source's count of faults as it was, and so it is of the sink.
/// The journal whose text is written, in full or cut off by a write that failed, has the laws of runs.
#[tactic(auto, using(crate::proofs::OneCommand::ends_asked, crate::proofs::OneCommand::completes_asked))]
pub fn run_program<R: Threads + Wait + Sync, S: Source, K: Sink, P: Pace + Sync>(
    rt: &R,
    alloc: Global,
    arguments: &[Text],
    source: &mut S,
    sink: &mut K,
    pace: &P,
) -> Status
    ensures usage { (result ≡ Status.Usage) ↔ ((command : Command) → ¬ (Asks arguments.now command)) }
    ensures untouched { result ≡ Status.Usage → TouchesNothing
        (outside_of S.left S.ended S.faults K.written K.faults source.old source.new sink.old sink.new) }
    ensures ends { (command : Command) → Asks arguments.now command → Ends result command
        (outside_of S.left S.ended S.faults K.written K.faults source.old source.new sink.old sink.new) }
    ensures counts { CountsOn
        (outside_of S.left S.ended S.faults K.written K.faults source.old source.new sink.old sink.new) }
    ensures completes { (command : Command) → Asks arguments.now command → IsHonest command
        (outside_of S.left S.ended S.faults K.written K.faults source.old source.new sink.old sink.new)
        → IsAnswered command result }
{
    let Some(command) = command_of(arguments) else {
        return Status::Usage;
    };
    run_command(rt, alloc, command, source, sink, pace)
}

// Runs a command.
#[tactic(auto, using(crate::proofs::AnswerLemmas::answered, crate::proofs::AnswerLemmas::written_ends))]
fn run_command<R: Threads + Wait + Sync, S: Source, K: Sink, P: Pace + Sync>(
    rt: &R,
    alloc: Global,
    command: Command,
    source: &mut S,
    sink: &mut K,
    pace: &P,
) -> Status
    requires within { IsWithin command }
    ensures ends { Ends result command
        (outside_of S.left S.ended S.faults K.written K.faults source.old source.new sink.old sink.new) }
    ensures counts { CountsOn
        (outside_of S.left S.ended S.faults K.written K.faults source.old source.new sink.old sink.new) }
    ensures completes { IsHonest command
        (outside_of S.left S.ended S.faults K.written K.faults source.old source.new sink.old sink.new)
        → IsAnswered command result }
{
    let made = match make(rt, alloc, command, source, pace) {
        Ok(made) => made,
        Err(ScriptFault::Bad { line, kind }) => return Status::BadScript { line, kind },
        Err(ScriptFault::Read) => return Status::ReadFault,
        Err(ScriptFault::OutOfMemory) => return Status::OutOfMemory,
    };
    match write_all(sink, made.text.as_slice()) {
        Ok(()) => made.status,
        Err(_) => Status::WriteFault,
    }
}
