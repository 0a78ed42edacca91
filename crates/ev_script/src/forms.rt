ghost use Rattle.std.specs.Prelude.{◌≡◌, ℕ, Option, Some, option_map, IfOk, IfSome};
ghost use Rattle.serde_json.specs.Data.{Data};
ghost use Rattle.serde_json.specs.View.{view};
ghost use Rattle.ev_types.specs.declared.events.Profile.{Profile};
ghost use Rattle.ev_script.specs.Faults.{LineForms, worker_of};
ghost use Rattle.ev_script.specs.Members.{tree_of};

use crate::header::{Header, read_header, settings_of};
use crate::lines::read_line;
use ev_types::{Actor, Line, Profile};
use serde_json::Value;
use std::alloc::{AllocError, Global};

/// What the first line of an input sets for the lines after it.
#[derive(Clone, Copy, Debug)]
pub struct Settings {
    /// How many workers there are.
    pub workers: u32,
    /// How resources are read.
    pub profile: Profile,
}

/// The first line: what is kept of it, and what it sets for the others.
#[derive(Drop)]
pub struct FormedHead<T> {
    pub kept: T,
    pub settings: Settings,
}

/// A line after the first: what is kept of it, and the worker that it names, where it names one.
#[derive(Drop)]
pub struct FormedLine<T> {
    pub kept: T,
    pub worker: Option<u32>,
}

/// Which lines an input may have, and what is kept of each.
pub trait Forms {
    /// What is kept of the first line.
    type Head: Drop;

    /// What is kept of another one.
    type Kept: Drop;

    // What a tree is as the first line, and as another one.
    ghost forms: { LineForms };

    // This may be kept of the first line, by its tree.
    ghost keeps_head: { Data → Self.Head → Type 0 };

    // This may be kept of another line, by the profile, the line's number and its tree.
    ghost keeps: { Profile → ℕ → Data → Self.Kept → Type 0 };

    /// The first line that a tree is, or none where it is no header.
    ///
    /// # Errors
    /// `AllocError` where there is no memory for it.
    fn read_head(
        &self,
        alloc: Global,
        tree: Value,
    ) -> Result<Option<FormedHead<Self::Head>>, AllocError>
        ensures settings { IfOk result (λ head. option_map (λ head. head.settings) head ≡ forms.heads (view tree)) }
        ensures kept { IfOk result (λ head. IfSome head (λ head. keeps_head (view tree) head.kept)) };

    /// The line that a tree is, by the profile that the first line sets and its own number, or none
    /// where it isn't one. The text is that of the tree. Whether its worker is one of the script's is not looked at.
    ///
    /// # Errors
    /// `AllocError` where there is no memory for it.
    fn read(
        &self,
        alloc: Global,
        profile: Profile,
        at: u32,
        text: &[u8],
        tree: Value,
    ) -> Result<Option<FormedLine<Self::Kept>>, AllocError>
        requires reads { tree_of text.now ≡ Some (view tree) }
        ensures line { IfOk result (λ line. option_map (λ line. line.worker) line
            ≡ forms.lines profile at (view tree)) }
        ensures kept { IfOk result (λ line. IfSome line (λ line. keeps profile at (view tree) line.kept)) };
}

/// The lines of a script, each kept as what it says, the first as its header.
#[derive(Clone, Copy, Debug)]
pub struct ScriptLines;

impl Forms for ScriptLines {
    ghost use Rattle.std.specs.Prelude.{Some};
    ghost use Rattle.ev_script.specs.Faults.{plain_lines};
    ghost use Rattle.ev_script.specs.Lines.{line_of};
    ghost use Rattle.ev_script.specs.ReadScript.{IsHeadOf};

    type Head = Header;

    type Kept = Line;

    ghost forms = { plain_lines };

    ghost keeps_head = { IsHeadOf };

    ghost keeps = { λ profile at tree line. line_of profile at tree ≡ Some line };

    fn read_head(
        &self,
        alloc: Global,
        tree: Value,
    ) -> Result<Option<FormedHead<Header>>, AllocError> {
        match read_header(alloc, &tree)? {
            Some(header) => Ok(Some(FormedHead {
                settings: settings_of(&header),
                kept: header,
            })),
            None => Ok(None),
        }
    }

    fn read(
        &self,
        alloc: Global,
        profile: Profile,
        at: u32,
        _text: &[u8],
        tree: Value,
    ) -> Result<Option<FormedLine<Line>>, AllocError> {
        match read_line(alloc, profile, at, &tree)? {
            Some(line) => Ok(Some(FormedLine {
                worker: worker_of(line.actor),
                kept: line,
            })),
            None => Ok(None),
        }
    }
}

// The worker that an actor is, where it is one.
pub(crate) fn worker_of(actor: Actor) -> Option<u32>
    ensures { result ≡ worker_of actor }
{
    match actor {
        Actor::Worker(worker) => Some(worker),
        Actor::Stream | Actor::Health | Actor::Timer | Actor::Main => None,
    }
}
