//! warmgate: replays a recorded script of xDS responses and other events, and writes the journal of what a proxy's
//! managers do with them.
#![tactic(auto)]

use ev_app::Status;
use ev_io::{StdSink, StdSource};
use ev_program::run_program;
use ev_run::Free;
use ev_types::Text;
use std::alloc::AllocError;
use std::io;
use std::process::ExitCode;
use std::rt::Env;

fn main(rt: HostRuntime) -> ExitCode {
    let status = match given_arguments(&rt) {
        Ok(arguments) => {
            let mut source = StdSource::new(rt.reader());
            let mut sink = StdSink::new(io::writer(&rt));
            run_program(
                &rt,
                rt.alloc(),
                arguments.as_slice(),
                &mut source,
                &mut sink,
                &Free,
            )
        }
        Err(AllocError) => Status::OutOfMemory,
    };
    let _ = report(&rt, status);
    ExitCode::from(status.exit_status())
}

// The arguments of the command line, or none where they can't be had for another cause than being out of memory.
fn given_arguments(rt: &(impl Env + AllocGlobal)) -> Result<Vec<Text>, AllocError> {
    match arguments_of(rt) {
        Ok(arguments) => Ok(arguments),
        Err(error) if error.kind() == io::ErrorKind::OutOfMemory => Err(AllocError),
        Err(_) => Ok(Vec::new(rt.alloc())),
    }
}

// The arguments of the command line after the program's name.
// One that isn't text is an error of another kind than being out of memory.
fn arguments_of(rt: &(impl Env + AllocGlobal)) -> io::Result<Vec<Text>> {
    let mut arguments = Vec::new(rt.alloc());
    for argument in std::env::args(rt)?.skip(1) {
        arguments.push(Text::new(rt.alloc(), argument.as_str())?)?;
    }
    Ok(arguments)
}

// Says on standard error why the program ended, where it did not end well.
fn report(rt: &impl Eprint, status: Status) -> io::Result<()> {
    match status {
        Status::Done | Status::Illegal => Ok(()),
        Status::Usage => eprintln!(rt;
            "usage: warmgate replay | run | audit | soak SEED COUNT | tls | dns | chains | sotw | dump K"
        ),
        Status::BadScript { line, kind } => {
            let words = words_of(kind);
            eprintln!(rt; "line {line}: fault {kind}\n{words}")
        }
        Status::ReadFault => eprintln!(rt; "read fault"),
        Status::WriteFault => eprintln!(rt; "write fault"),
        Status::OutOfMemory => eprintln!(rt; "out of memory"),
    }
}

// What a fault of this kind is, in words.
fn words_of(kind: u8) -> &'static str {
    match kind {
        1 => "the line is longer than 4,194,304 bytes",
        2 => "there are more than 200,000 lines",
        3 => "the input is longer than 67,108,864 bytes",
        4 => "the line isn't JSON",
        5 => "the first line isn't a header",
        6 => "the line isn't an operation, or one of its members hasn't its form",
        7 => "the worker isn't below the header's number of workers",
        8 => "the input is empty",
        9 => "the journal after the script isn't one of it",
        10 => "with this line the script that is made is over a limit",
        11 => "the line uses a private name of the command",
        _ => "the dump's number is above the journal's entries, or at an accept or a close",
    }
}
