ghost use Rattle.std.specs.Prelude.{◌≡◌, ◌≤◌, ◌⊎◌, Err};
ghost use Rattle.ev_io.specs.Outside.{Rose};
ghost use Rattle.ev_app.specs.Scripts.{ReadsScript};

use ev_io::{Lines, ScriptFault, Source};
use ev_keys::Keys;
use ev_script::read_script;
use ev_types::Script;
use std::alloc::Global;

/// A script, and keys of its lines, for tables of what it names.
#[derive(Drop)]
pub(crate) struct KeyedScript {
    pub(crate) script: Script,
    pub(crate) keys: Keys,
}

// Reads the script that the source's bytes are.
pub(crate) fn read_input<S: Source>(
    alloc: Global,
    source: &mut S,
) -> Result<KeyedScript, ScriptFault>
    ensures reads { ReadsScript (S.left source.old) (S.left source.new) result }
    ensures failed { result ≡ Err ScriptFault.Read → Rose (S.faults source.old) (S.faults source.new) }
    ensures unended { result ≡ Err ScriptFault.Read → S.ended source.new ≡ S.ended source.old }
    ensures same_count { (S.faults source.new ≡ S.faults source.old) ⊎ (result ≡ Err ScriptFault.Read) }
    ensures count { S.faults source.old ≤ S.faults source.new }
{
    let mut lines = Lines::new(alloc)?;
    let script = read_script(alloc, &mut lines, source)?;
    Ok(KeyedScript {
        script,
        keys: lines.keys(),
    })
}
