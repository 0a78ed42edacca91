ghost use Rattle.std.specs.Prelude.{◌≡◌, ◌+◌, ◌≤◌, ◌⊎◌, List, ℕ, None, Err, IsTrue, false, OnOk, IfOk, length};
ghost use Rattle.std.specs.Io.KnownBytes.{IsAtEnd};
ghost use Rattle.ev_io.specs.Outside.{Rose, Takes};
ghost use Rattle.ev_io.specs.LinesState.{IsFresh, HasTaken, IsWithin};
ghost use Rattle.ev_io.specs.ReadLine.{LeavesOpen};
ghost use Rattle.ev_script.specs.Faults.{plain_lines};
ghost use Rattle.ev_script.specs.ReadInput.{input_of};
ghost use Rattle.ev_script.specs.ReadTrees.{KeepsHeads, KeepsTrees, IsTreesAnswer};

use crate::forms::{FormedHead, FormedLine, Forms, worker_of};
use crate::header::{Header, read_header, settings_of};
use crate::line_tree::LineTree;
use crate::lines::read_line;
use crate::read_input::{ReadLines, read_lines_with};
use ev_io::{Lines, ScriptFault, Source};
use ev_keys::Keys;
use ev_types::Profile;
use serde_json::Value;
use std::alloc::{AllocError, Global};

/// The first line of a script, by its tree.
#[derive(Drop)]
pub struct HeadTree {
    /// What it says.
    pub header: Header,
    pub tree: Value,
}

/// The lines of a script, each kept as its tree, in the memory of its text.
#[derive(Clone, Copy, Debug)]
pub struct LineTrees;

impl Forms for LineTrees {
    ghost use Rattle.ev_script.specs.Faults.{plain_lines};
    ghost use Rattle.ev_script.specs.Members.{tree_told};
    ghost use Rattle.ev_script.specs.ReadTrees.{IsTreeHead};

    type Head = HeadTree;

    type Kept = LineTree;

    ghost forms = { plain_lines };

    ghost keeps_head = { IsTreeHead };

    ghost keeps = { λ profile at tree kept. tree_told kept ≡ tree };

    fn read_head(
        &self,
        alloc: Global,
        tree: Value,
    ) -> Result<Option<FormedHead<HeadTree>>, AllocError> {
        match read_header(alloc, &tree)? {
            Some(header) => Ok(Some(FormedHead {
                settings: settings_of(&header),
                kept: HeadTree { header, tree },
            })),
            None => Ok(None),
        }
    }

    fn read(
        &self,
        alloc: Global,
        profile: Profile,
        at: u32,
        text: &[u8],
        tree: Value,
    ) -> Result<Option<FormedLine<LineTree>>, AllocError> {
        match read_line(alloc, profile, at, &tree)? {
            Some(line) => Ok(Some(FormedLine {
                kept: LineTree::new(alloc, text)?,
                worker: worker_of(line.actor),
            })),
            None => Ok(None),
        }
    }
}

/// The trees of a script's lines.
#[derive(Drop)]
pub struct ScriptTrees {
    /// What the first line says.
    pub header: Header,
    /// The tree of the first line.
    pub head: Value,
    /// The trees of the lines after it, in order.
    pub lines: Vec<LineTree>,
    /// Keys of all lines, for tables of what they name. Which they are is unspecified.
    pub keys: Keys,
}

/// Reads the trees of a script's lines, under the faults of `read_script`. The reader of lines is a fresh one.
///
/// # Errors
/// As of `read_script`.
pub fn read_trees<S: Source>(
    alloc: Global,
    lines: &mut Lines,
    source: &mut S,
) -> Result<ScriptTrees, ScriptFault>
    requires fresh { IsFresh lines.old }
    ensures reads { (bytes : List ℕ) × Takes (S.left source.old) (S.left source.new) bytes × HasTaken lines.new bytes
        × IsTreesAnswer plain_lines (input_of false lines.new bytes) result }
    ensures untold { OnOk result (lines.new.told ≡ None) }
    ensures number { IfOk result (λ trees. lines.new.given ≡ length trees.lines.items + 1) }
    ensures at_end { IsTrue lines.new.ended → IsAtEnd (S.left source.new) }
    ensures unended { LeavesOpen S.ended source.old source.new lines.old lines.new }
    ensures at_most { IsWithin lines.new }
    ensures failed { result ≡ Err ScriptFault.Read → Rose (S.faults source.old) (S.faults source.new) }
    ensures goes_on { result ≡ Err ScriptFault.Read → ¬ (IsTrue lines.new.ended) }
    ensures same_count { (S.faults source.new ≡ S.faults source.old) ⊎ (result ≡ Err ScriptFault.Read) }
    ensures count { S.faults source.old ≤ S.faults source.new }
{
    read_trees_with(alloc, &LineTrees, lines, source)
}

/// The same, where the lines of the script have these forms alone.
///
/// # Errors
/// As of `read_script`; a line of another form is one of kind 6.
pub fn read_trees_with<S: Source, F: Forms<Head = HeadTree, Kept = LineTree>>(
    alloc: Global,
    forms: &F,
    lines: &mut Lines,
    source: &mut S,
) -> Result<ScriptTrees, ScriptFault>
    requires fresh { IsFresh lines.old }
    requires heads { KeepsHeads F.keeps_head }
    requires trees { KeepsTrees F.keeps }
    ensures reads { (bytes : List ℕ) × Takes (S.left source.old) (S.left source.new) bytes × HasTaken lines.new bytes
        × IsTreesAnswer F.forms (input_of false lines.new bytes) result }
    ensures untold { OnOk result (lines.new.told ≡ None) }
    ensures number { IfOk result (λ trees. lines.new.given ≡ length trees.lines.items + 1) }
    ensures at_end { IsTrue lines.new.ended → IsAtEnd (S.left source.new) }
    ensures unended { LeavesOpen S.ended source.old source.new lines.old lines.new }
    ensures at_most { IsWithin lines.new }
    ensures failed { result ≡ Err ScriptFault.Read → Rose (S.faults source.old) (S.faults source.new) }
    ensures goes_on { result ≡ Err ScriptFault.Read → ¬ (IsTrue lines.new.ended) }
    ensures same_count { (S.faults source.new ≡ S.faults source.old) ⊎ (result ≡ Err ScriptFault.Read) }
    ensures count { S.faults source.old ≤ S.faults source.new }
{
    let ReadLines { head, kept, .. } = read_lines_with(alloc, forms, lines, source)?;
    Ok(ScriptTrees {
        header: head.header,
        head: head.tree,
        lines: kept,
        keys: lines.keys(),
    })
}
