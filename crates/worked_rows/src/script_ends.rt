use ev_io::{Lines, MemSource, ScriptFault};
use ev_script::{Header, ScriptTrees, read_audited_script, read_script, read_trees};
use ev_types::Script;
use std::alloc::Global;
use std::io;

/// How many bytes a read gives at most.
const PIECE: usize = 65_536;

/// How the reading of an input as a script ends, as a text.
pub(crate) fn script_end(alloc: Global, input: &[u8]) -> io::Result<String> {
    let mut source = MemSource::new(input.to_vec(alloc)?, PIECE, Vec::new(alloc));
    let mut lines = Lines::new(alloc)?;
    match read_script(alloc, &mut lines, &mut source) {
        Ok(script) => {
            let said = script_text(alloc, &script)?;
            Ok(format!(in alloc; "whole:{said}")?)
        }
        Err(fault) => fault_text(alloc, fault),
    }
}

/// The same, where it is read as trees.
pub(crate) fn trees_end(alloc: Global, input: &[u8]) -> io::Result<String> {
    let mut source = MemSource::new(input.to_vec(alloc)?, PIECE, Vec::new(alloc));
    let mut lines = Lines::new(alloc)?;
    match read_trees(alloc, &mut lines, &mut source) {
        Ok(trees) => {
            let said = trees_text(alloc, &trees)?;
            Ok(format!(in alloc; "whole:{said}")?)
        }
        Err(fault) => fault_text(alloc, fault),
    }
}

/// How the reading of an input as a script with a journal after it ends, as a text.
pub(crate) fn audited_end(alloc: Global, input: &[u8]) -> io::Result<String> {
    let mut source = MemSource::new(input.to_vec(alloc)?, PIECE, Vec::new(alloc));
    let mut lines = Lines::new(alloc)?;
    match read_audited_script(alloc, &mut lines, &mut source) {
        Ok(audited) => {
            let said = script_text(alloc, &audited.script)?;
            let bytes = audited.journal.len();
            Ok(format!(in alloc; "journal:{said}:{bytes}")?)
        }
        Err(fault) => fault_text(alloc, fault),
    }
}

// What a script's header says, and how many lines it has.
fn script_text(alloc: Global, script: &Script) -> io::Result<String> {
    let workers = script.workers;
    let auto = script.auto;
    let node = script.node.as_str();
    let count = script.count;
    Ok(format!(in alloc; "{workers}:{auto}:{node}:{count}")?)
}

// The same of trees.
fn trees_text(alloc: Global, trees: &ScriptTrees) -> io::Result<String> {
    let Header {
        workers,
        auto,
        node,
        profile: _,
    } = &trees.header;
    let node = node.as_str();
    let count = trees.lines.len().saturating_add(1);
    Ok(format!(in alloc; "{workers}:{auto}:{node}:{count}")?)
}

// A fault, as a text.
fn fault_text(alloc: Global, fault: ScriptFault) -> io::Result<String> {
    match fault {
        ScriptFault::Bad { line, kind } => Ok(format!(in alloc; "bad:{line}:{kind}")?),
        ScriptFault::Read => Ok(String::from_str(alloc, "read")?),
        ScriptFault::OutOfMemory => Ok(String::from_str(alloc, "memory")?),
    }
}
