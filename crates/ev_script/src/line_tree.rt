ghost use Rattle.std.specs.Prelude.{◌≡◌, IfOk, IsSome};
ghost use Rattle.serde_json.specs.View.{view};
ghost use Rattle.ev_script.specs.Members.{tree_of, tree_told};

use crate::members::read_tree;
use serde_json::Value;
use std::alloc::{AllocError, Global};
use std::marker::Model;

/// The tree of a line, kept as the line's text: as a tree it takes some thirty times the
/// memory. Contracts see the text.
#[derive(Drop)]
pub struct LineTree {
    text: Vec<u8>,
}

impl Model for LineTree {
    ghost use Rattle.std.specs.Prelude.{◌≡◌, List, ℕ, true, is_some};
    ghost use Rattle.ev_script.specs.Members.{tree_of};

    ghost Value = { List ℕ };

    ghost view = { λ l. l.text.items };

    ghost invariant = { λ l. is_some (tree_of l.text.items) ≡ true };
}

impl LineTree {
    /// The tree of a line of this text.
    ///
    /// # Errors
    /// `AllocError` where there is no memory for the text.
    pub fn new(alloc: Global, text: &[u8]) -> Result<LineTree, AllocError>
        requires { IsSome (tree_of text.now) }
        ensures { IfOk result (λ kept. kept ≡ text.now) }
    {
        Ok(LineTree {
            text: text.to_vec(alloc)?,
        })
    }

    /// The tree, read again out of the text.
    ///
    /// # Errors
    /// `AllocError` where there is no memory for it.
    pub fn read(&self, alloc: Global) -> Result<Value, AllocError>
        ensures { IfOk result (λ tree. view tree ≡ tree_told self.now) }
    {
        match read_tree(alloc, self.text.as_slice())? {
            Some(tree) => Ok(tree),
            None => unreachable!(),
        }
    }
}
