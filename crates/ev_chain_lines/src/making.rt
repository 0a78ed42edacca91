ghost use Rattle.std.specs.Prelude.{◌≡◌, ◌≤◌, ◌⊎◌, Err};
ghost use Rattle.ev_io.specs.Outside.{Rose};
ghost use Rattle.ev_chain_lines.specs.Inputs.{MakesChains};

use crate::events::ChainLines;
use crate::texts::answer_lines;
use ev_io::{Lines, ScriptFault, Source};
use ev_script::{ReadLines, read_lines_with};
use std::alloc::Global;

/// The text that answers the input that the source's bytes are.
///
/// # Errors
/// `Bad` with the line and the kind of the first fault of the bytes taken,
/// those at the end of the input only where the source gave its end;
/// `Read` where a read failed, the source didn't give its end and the bytes taken have no fault. `OutOfMemory`
/// where there is no memory for the text; no read failed.
pub fn make_chains<S: Source>(alloc: Global, source: &mut S) -> Result<Vec<u8>, ScriptFault>
    ensures made { MakesChains (S.left source.old) (S.left source.new) result }
    ensures failed { result ≡ Err ScriptFault.Read → Rose (S.faults source.old) (S.faults source.new) }
    ensures unended { result ≡ Err ScriptFault.Read → S.ended source.new ≡ S.ended source.old }
    ensures same_count { (S.faults source.new ≡ S.faults source.old) ⊎ (result ≡ Err ScriptFault.Read) }
    ensures count { S.faults source.old ≤ S.faults source.new }
{
    let Ok(mut lines) = Lines::new(alloc) else {
        return Err(ScriptFault::OutOfMemory);
    };
    match read_lines_with(alloc, &ChainLines, &mut lines, source) {
        Ok(ReadLines { kept, .. }) => match answer_lines(alloc, lines.keys(), kept.as_slice()) {
            Ok(text) => Ok(text),
            Err(_) => Err(ScriptFault::OutOfMemory),
        },
        Err(fault) => Err(fault),
    }
}
