ghost use Rattle.std.specs.Prelude.{◌≡◌, Some, IfOk, IsSome};
ghost use Rattle.serde_json.specs.View.{view};
ghost use Rattle.ev_script.specs.Members.{tree_of, tree_told};
ghost use Rattle.ev_chain_lines.specs.Lines.{event_of, event_told};

use ev_script::LineTree;
use serde_json::Value;
use std::alloc::{AllocError, Global};
use std::marker::Model;

/// A line that is an event, kept as its text. Contracts see the text; the event is `event_told` of it.
#[derive(Drop)]
pub struct EventLine {
    line: LineTree,
}

impl Model for EventLine {
    ghost use Rattle.std.specs.Prelude.{◌≡◌, List, ℕ, true, is_some};
    ghost use Rattle.ev_script.specs.Members.{tree_told};
    ghost use Rattle.ev_chain_lines.specs.Lines.{event_of};

    ghost Value = { List ℕ };

    ghost view = { λ l. l.line };

    ghost invariant = { λ l. is_some (event_of (tree_told l.line)) ≡ true };
}

impl EventLine {
    /// The line of this text.
    ///
    /// # Errors
    /// `AllocError` where there is no memory for the text.
    pub fn new(alloc: Global, text: &[u8]) -> Result<EventLine, AllocError>
        requires tree { IsSome (tree_of text.now) }
        requires event { IsSome (event_of (tree_told text.now)) }
        ensures { IfOk result (λ line. line ≡ text.now) }
    {
        Ok(EventLine {
            line: LineTree::new(alloc, text)?,
        })
    }

    /// The line's tree, read again out of the text.
    ///
    /// # Errors
    /// `AllocError` where there is no memory for it.
    pub fn read(&self, alloc: Global) -> Result<Value, AllocError>
        ensures tree { IfOk result (λ tree. view tree ≡ tree_told self.now) }
        ensures event { IfOk result (λ tree. event_of (view tree) ≡ Some (event_told self.now)) }
    {
        self.line.read(alloc)
    }
}
