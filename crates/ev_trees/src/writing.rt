ghost use Rattle.std.specs.Prelude.{◌≡◌, ◌++◌, false, IfOk, OnOk, OnErr};
ghost use Rattle.serde_json.specs.View.{view};
ghost use Rattle.serde_json.specs.Written.{has_float, compact_text};
ghost use Rattle.ev_journal.specs.Rendering.{line_text};
ghost use Rattle.ev_tree.specs.Floats.{whole};
ghost use Rattle.ev_trees.specs.Trees.{ReadsBack, IsReadable};

use ev_tree::{has_float, whole_copy};
use serde_json::Value;
use std::alloc::{AllocError, Global};

// The text of a tree without a float.
fn written(alloc: Global, tree: &Value) -> Result<Vec<u8>, AllocError>
    requires whole { has_float (view tree.now) ≡ false }
    ensures text { IfOk result (λ text. text.items ≡ compact_text (view tree.now)) }
    ensures reads_back { IfOk result (λ _. IsReadable (view tree.now) → ReadsBack (view tree.now)) }
{
    tree.to_vec(alloc)
}

/// Appends a tree's line to a text: the tree without spaces, and a line feed. The tree has no float.
///
/// # Errors
/// `AllocError` where there is no memory for it; the text stays as it was then.
#[tactic(auto, unfolding(ev_journal::specs::Rendering::line_text))]
pub fn push_line(alloc: Global, text: &mut Vec<u8>, tree: &Value) -> Result<(), AllocError>
    requires whole { has_float (view tree.now) ≡ false }
    ensures line { OnOk result (text.new.items ≡ text.old.items ++ line_text (view tree.now)) }
    ensures reads_back { OnOk result (IsReadable (view tree.now) → ReadsBack (view tree.now)) }
    ensures err { OnErr result (text.new.items ≡ text.old.items) }
{
    let mut line = written(alloc, tree)?;
    line.push(b'\n')?;
    text.extend_from_slice(line.as_slice())
}

/// Appends the line of any tree to a text, with -1 for each float in it.
///
/// # Errors
/// `AllocError` where there is no memory for it; the text stays as it was then.
pub fn push_whole(alloc: Global, text: &mut Vec<u8>, tree: &Value) -> Result<(), AllocError>
    ensures line { OnOk result (text.new.items ≡ text.old.items ++ line_text (whole (view tree.now))) }
    ensures reads_back { OnOk result (IsReadable (view tree.now) → ReadsBack (whole (view tree.now))) }
    ensures err { OnErr result (text.new.items ≡ text.old.items) }
{
    if has_float(tree) {
        push_line(alloc, text, &whole_copy(tree)?)
    } else {
        push_line(alloc, text, tree)
    }
}
