ghost use Rattle.std.specs.Prelude.{◌≡◌, ℕ, List, Option, IfOk};
ghost use Rattle.serde_json.specs.Data.{Data};
ghost use Rattle.serde_json.specs.View.{view};
ghost use Rattle.ev_types.specs.declared.events.Profile.{Profile};
ghost use Rattle.ev_script.specs.OwnOperations.{line_if};

use crate::forms::{FormedHead, FormedLine, Forms};
use crate::line_tree::LineTree;
use crate::members::is_op;
use crate::trees::{HeadTree, LineTrees};
use ev_types::Profile;
use serde_json::Value;
use std::alloc::{AllocError, Global};

/// An operation that a script may have beside those of every script. None of its lines names a worker.
pub trait OwnOperation {
    // The word of the operation.
    ghost word: { List ℕ };

    // Which of the trees that have the word are lines, by the profile.
    ghost lines: { Profile → Data → Option (Option ℕ) };

    /// The word of the operation.
    fn word(&self) -> &'static str
        ensures { result.now ≡ word };

    /// Whether a tree that has the word is a line, by the profile that the first line sets.
    ///
    /// # Errors
    /// `AllocError` where there is no memory for what is read.
    fn is_line(&self, alloc: Global, profile: Profile, tree: &Value) -> Result<bool, AllocError>
        ensures { IfOk result (λ is. line_if is ≡ lines profile (view tree.now)) };
}

/// The lines of a script with an operation of its own, each kept as its tree: all but those of the operation are as in
/// every script.
#[derive(Clone, Copy, Debug)]
pub struct WithOperation<O>(pub O);

impl<O: OwnOperation> Forms for WithOperation<O> {
    ghost use Rattle.ev_script.specs.OwnOperations.{lines_with};
    ghost use Rattle.ev_script.specs.Members.{tree_told};
    ghost use Rattle.ev_script.specs.ReadTrees.{IsTreeHead};

    type Head = HeadTree;

    type Kept = LineTree;

    ghost forms = { lines_with O.word O.lines };

    ghost keeps_head = { IsTreeHead };

    ghost keeps = { λ profile at tree kept. tree_told kept ≡ tree };

    fn read_head(
        &self,
        alloc: Global,
        tree: Value,
    ) -> Result<Option<FormedHead<HeadTree>>, AllocError> {
        LineTrees.read_head(alloc, tree)
    }

    fn read(
        &self,
        alloc: Global,
        profile: Profile,
        at: u32,
        text: &[u8],
        tree: Value,
    ) -> Result<Option<FormedLine<LineTree>>, AllocError> {
        if !is_op(self.0.word(), &tree) {
            return LineTrees.read(alloc, profile, at, text, tree);
        }
        if !self.0.is_line(alloc, profile, &tree)? {
            return Ok(None);
        }
        Ok(Some(FormedLine {
            kept: LineTree::new(alloc, text)?,
            worker: None,
        }))
    }
}
