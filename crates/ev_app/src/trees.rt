ghost use Rattle.std.specs.Prelude.{◌≡◌, ◌≤◌, ◌⊎◌, Err};
ghost use Rattle.ev_io.specs.Outside.{Rose};
ghost use Rattle.ev_script.specs.ReadTrees.{KeepsHeads, KeepsTrees};
ghost use Rattle.ev_app.specs.Trees.{ReadsTrees};

use ev_io::{Lines, ScriptFault, Source};
use ev_script::{Forms, HeadTree, LineTree, ScriptTrees, read_trees_with};
use std::alloc::Global;

// Reads the trees of the script that the source's bytes are, whose lines have these forms.
pub(crate) fn read_trees_of<F: Forms<Head = HeadTree, Kept = LineTree>, S: Source>(
    alloc: Global,
    forms: &F,
    source: &mut S,
) -> Result<ScriptTrees, ScriptFault>
    requires heads { KeepsHeads F.keeps_head }
    requires trees { KeepsTrees F.keeps }
    ensures reads { ReadsTrees F.forms (S.left source.old) (S.left source.new) result }
    ensures failed { result ≡ Err ScriptFault.Read → Rose (S.faults source.old) (S.faults source.new) }
    ensures unended { result ≡ Err ScriptFault.Read → S.ended source.new ≡ S.ended source.old }
    ensures same_count { (S.faults source.new ≡ S.faults source.old) ⊎ (result ≡ Err ScriptFault.Read) }
    ensures count { S.faults source.old ≤ S.faults source.new }
{
    let mut lines = Lines::new(alloc)?;
    read_trees_with(alloc, forms, &mut lines, source)
}
