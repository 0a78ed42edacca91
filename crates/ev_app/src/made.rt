ghost use Rattle.std.specs.Prelude.{◌≡◌, ◌≤◌, ◌⊎◌, Err};
ghost use Rattle.ev_io.specs.Outside.{Rose};
ghost use Rattle.ev_app.specs.Commands.{IsWithin};
ghost use Rattle.ev_app.specs.Texts.{IsMadeBy};

use crate::audit::make_audit;
use crate::chains::make_of_chains;
use crate::commands::Command;
use crate::dns::make_dns;
use crate::dump::make_dump;
use crate::replay::make_replay;
use crate::run::make_run;
use crate::soak::soak_text;
use crate::sotw::make_sotw;
use crate::status::Status;
use crate::tls::make_tls;
use ev_io::{ScriptFault, Source};
use ev_run::Pace;
use std::alloc::Global;
use std::sync::Wait;
use std::thread::Threads;

/// What a command makes of its input: a text, and how a call ends that writes it.
#[derive(Drop)]
pub struct Made {
    pub text: Vec<u8>,
    pub status: Status,
}

/// Makes what answers the source's bytes, or the command alone.
///
/// # Errors
/// `Bad` with the line and the kind of the first fault of the bytes taken,
/// those at the end of the input only where the source gave its end; `Read` where a read failed, the source didn't give
/// its end and the bytes taken have no fault. `OutOfMemory` where there is no memory; no read failed.
#[tactic(auto, using(crate::proofs::SoakLemmas::soaked, crate::proofs::SoakLemmas::not_soaked))]
pub fn make<R: Threads + Wait + Sync, S: Source, P: Pace + Sync>(
    rt: &R,
    alloc: Global,
    command: Command,
    source: &mut S,
    pace: &P,
) -> Result<Made, ScriptFault>
    requires within { IsWithin command }
    ensures made { IsMadeBy command (S.left source.old) (S.left source.new) result }
    ensures failed { result ≡ Err ScriptFault.Read → Rose (S.faults source.old) (S.faults source.new) }
    ensures unended { result ≡ Err ScriptFault.Read → S.ended source.new ≡ S.ended source.old }
    ensures same_count { (S.faults source.new ≡ S.faults source.old) ⊎ (result ≡ Err ScriptFault.Read) }
    ensures count { S.faults source.old ≤ S.faults source.new }
{
    match command {
        Command::Replay => make_replay(alloc, source),
        Command::Run => make_run(rt, alloc, source, pace),
        Command::Audit => make_audit(alloc, source),
        Command::Soak { seed, count } => Ok(Made {
            text: soak_text(alloc, seed, count)?,
            status: Status::Done,
        }),
        Command::Tls => make_tls(alloc, source),
        Command::Dns => make_dns(alloc, source),
        Command::Chains => make_of_chains(alloc, source),
        Command::Sotw => make_sotw(alloc, source),
        Command::Dump { entries } => make_dump(alloc, entries, source),
    }
}
