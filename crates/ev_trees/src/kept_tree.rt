ghost use Rattle.std.specs.Prelude.{◌≡◌, Some, IfOk};
ghost use Rattle.serde_json.specs.View.{view};
ghost use Rattle.ev_script.specs.Members.{tree_of};
ghost use Rattle.ev_trees.specs.Kept.{kept_shown};
ghost use Rattle.ev_trees.specs.Trees.{IsReadable};

use crate::depth::nests_within;
use ev_script::LineTree;
use serde_json::Value;
use std::alloc::{AllocError, Global};

/// How deep arrays and objects may nest in a text that is read.
const MAX_DEPTH: u32 = 127;

/// A tree that is kept for later.
#[derive(Drop)]
pub enum KeptTree {
    /// As its text, which takes a thirtieth of the tree's memory.
    Text(LineTree),
    /// As it is, where it nests deeper than a reader goes.
    Deep(Value),
}

impl KeptTree {
    /// A copy of a tree.
    ///
    /// # Errors
    /// `AllocError` where there is no memory for it.
    pub fn of(alloc: Global, tree: &Value) -> Result<KeptTree, AllocError>
        ensures { IfOk result (λ kept. kept_shown kept ≡ view tree.now) }
    {
        if !nests_within(tree, MAX_DEPTH) {
            return Ok(KeptTree::Deep(tree.clone()?));
        }
        let text = text_of(alloc, tree)?;
        Ok(KeptTree::Text(LineTree::new(alloc, text.as_slice())?))
    }

    /// The tree again.
    ///
    /// # Errors
    /// `AllocError` where there is no memory for it.
    pub fn read(&self, alloc: Global) -> Result<Value, AllocError>
        ensures { IfOk result (λ tree. view tree ≡ kept_shown self.now) }
    {
        match self {
            KeptTree::Text(text) => text.read(alloc),
            KeptTree::Deep(tree) => tree.clone(),
        }
    }
}

// The text of a tree that a reader goes through.
fn text_of(alloc: Global, tree: &Value) -> Result<Vec<u8>, AllocError>
    requires { IsReadable (view tree.now) }
    ensures { IfOk result (λ text. tree_of text.items ≡ Some (view tree.now)) }
{
    tree.to_vec(alloc)
}
