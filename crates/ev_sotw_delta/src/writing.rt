ghost use Rattle.std.specs.Prelude.{◌≡◌, List, [], ◌∷◌, ◌++◌, true, false, Some, Ok, IfOk, IfErr, OnOk};
ghost use Rattle.serde_json.specs.Data.{Data};
ghost use Rattle.serde_json.specs.View.{view};
ghost use Rattle.ev_script.specs.Faults.{Input, plain_lines, HasNoFault};
ghost use Rattle.ev_script.specs.Script.{script_of};
ghost use Rattle.ev_script.specs.ReadTrees.{IsTreesAnswer};
ghost use Rattle.ev_tree.specs.Floats.{whole};
ghost use Rattle.ev_trees.specs.Trees.{text_of_trees};
ghost use Rattle.ev_expand.specs.Said.{lines_in, input_of_text};
ghost use Rattle.ev_sotw.specs.Lines.{sotw_lines};
ghost use Rattle.ev_sotw.specs.Deltas.{delta_of};
ghost use Rattle.ev_sotw.specs.LineFollows.{FollowsLines, GoesOnBy};
ghost use Rattle.ev_sotw.specs.Text.{versions_in};
ghost use Rattle.ev_sotw_delta.specs.SameWorld.{RunsAreSameWorld};
ghost use Rattle.ev_sotw_delta.specs.DeltaText.{FitsInput, IsWritten, WritesOn, IsTooLargeFor, IsRefusal, written_of, delta_script};

use crate::outcome::DeltaError;
use ev_expand::TextSoFar;
use ev_script::ScriptTrees;
use ev_sotw::{NamesSoFar, version_in};
use ev_trees::nests_within;
use ev_types::{Profile, Text};
use serde_json::Value;
use std::alloc::{AllocError, Global};

// How deep arrays and objects of a line may nest.
const MAX_DEPTH: u32 = 127;

/// What the lines of a script of the state of the world give.
#[derive(Drop)]
pub struct Delta {
    /// The text of the script of the incremental protocol that says the same.
    pub text: Vec<u8>,
    /// The version of the response that each line after the header brings: the empty text where it brings none.
    pub versions: Vec<Text>,
}

/// The text of the script of the incremental protocol that says what a script of the state
/// of the world says, whose trees were read without a fault: a line for each of its lines, with -1 for each float;
/// and the versions of its responses. Each run of that script, by one thread or by several, is the same world.
/// Each line is read as a tree once, and is gone then.
///
/// # Errors
/// `Large` where the text goes beyond the limits of inputs, or a line nests deeper than 127,
/// with the first line with which it does so.
pub fn to_delta(alloc: Global, trees: ScriptTrees) -> Result<Delta, DeltaError>
    requires read { (input : Input) × IsTreesAnswer sotw_lines input (Ok trees) }
    ensures text { IfOk result (λ delta. delta.text.items ≡ text_of_trees (written_of trees)) }
    ensures versions { IfOk result (λ delta. delta.versions.items ≡ versions_in trees.header.profile (lines_in trees)) }
    ensures fits { OnOk result (FitsInput (written_of trees)) }
    ensures large { IfErr result (IsRefusal (written_of trees)) }
    ensures sound { IfOk result (λ delta. HasNoFault plain_lines (input_of_text delta.text.items)) }
    ensures script { IfOk result (λ delta. script_of false delta.text.items ≡ Some (delta_script trees)) }
    ensures same { OnOk result (RunsAreSameWorld trees) }
{
    let profile = trees.header.profile;
    let ScriptTrees { head, lines, .. } = trees;
    let mut text = TextSoFar::new(alloc);
    let mut names = NamesSoFar::new(alloc);
    let mut versions = Vec::with_capacity(alloc, lines.len())?;
    push_tree(alloc, &mut text, &head)?;
    for line in lines {
        let tree = line.read(alloc)?;
        versions.push(Text::new(alloc, version_in(alloc, profile, &tree)?)?)?;
        push_delta(alloc, profile, &mut text, &mut names, &tree)?;
    }
    Ok(Delta {
        text: text.bytes,
        versions,
    })
}

// Appends the line that says the same as a line to the text.
fn push_delta(
    alloc: Global,
    profile: Profile,
    text: &mut TextSoFar,
    names: &mut NamesSoFar,
    line: &Value,
) -> Result<(), DeltaError>
    ensures follows { OnOk result (GoesOnBy profile (view line.now) names.old names.new) }
    ensures pushed { OnOk result ((lines : List Data) → FollowsLines profile lines names.old
        → WritesOn (whole (delta_of profile lines (view line.now))) text.old text.new) }
    ensures large { IfErr result (λ error. (lines : List Data) → FollowsLines profile lines names.old
        → IsTooLargeFor text.old (whole (delta_of profile lines (view line.now))) error) }
{
    match names.line(alloc, profile, line)? {
        Some(delta) => push_tree(alloc, text, &delta),
        None => push_tree(alloc, text, line),
    }
}

// Appends the line of a tree to the text.
fn push_tree(alloc: Global, text: &mut TextSoFar, tree: &Value) -> Result<(), DeltaError>
    ensures pushed { OnOk result (WritesOn (whole (view tree.now)) text.old text.new) }
    ensures large { IfErr result (IsTooLargeFor text.old (whole (view tree.now))) }
{
    if !push_readable(alloc, text, tree)? {
        return Err(DeltaError::Large {
            line: text.lines.saturating_add(1),
        });
    }
    Ok(())
}

// Appends the line of a tree to the text, where a reader takes it and there is room for it,
// and returns whether it is so.
fn push_readable(alloc: Global, text: &mut TextSoFar, tree: &Value) -> Result<bool, AllocError>
    ensures pushed { result ≡ Ok true → WritesOn (whole (view tree.now)) text.old text.new }
    ensures full { result ≡ Ok false → (trees : List Data) → IsWritten trees text.old
        → ¬ (FitsInput (trees ++ whole (view tree.now) ∷ [])) }
    ensures same { result ≡ Ok false → text.new ≡ text.old }
{
    if !nests_within(tree, MAX_DEPTH) {
        return Ok(false);
    }
    text.push(alloc, tree)
}
