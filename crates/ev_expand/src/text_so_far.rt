ghost use Rattle.std.specs.Prelude.{◌≡◌, ◌↔◌, ◌++◌, List, [], ◌∷◌, true, false, IsTrue, Ok, OnErr};
ghost use Rattle.serde_json.specs.Data.{Data};
ghost use Rattle.serde_json.specs.View.{view};
ghost use Rattle.ev_tree.specs.Floats.{whole};
ghost use Rattle.ev_trees.specs.Trees.{AreWithinLimits, ReadsBack, IsReadable};
ghost use Rattle.ev_expand.specs.Room.{HasRoom, IsTextSoFar, IsSameText};

use ev_io::{MAX_INPUT_BYTES, MAX_LINE_BYTES, MAX_LINES};
use ev_trees::push_whole;
use serde_json::Value;
use std::alloc::{AllocError, Global};

/// The text of the lines that were written so far, within the limits of inputs.
#[derive(Drop)]
pub struct TextSoFar {
    /// The lines, each closed by a line feed.
    pub bytes: Vec<u8>,
    /// How many lines there are.
    pub lines: u32,
}

impl TextSoFar {
    /// A text without lines.
    pub fn new(alloc: Global) -> TextSoFar
        ensures empty { IsTextSoFar [] result }
    {
        TextSoFar {
            bytes: Vec::new(alloc),
            lines: 0,
        }
    }

    /// Appends the line of a tree to the text, with -1 for each float in it, and returns whether it had room there,
    /// by the limits of inputs. Where it hadn't, the text stays as it was.
    ///
    /// # Errors
    /// `AllocError` where there is no memory for it; the text stays as it was then.
    pub fn push(&mut self, alloc: Global, tree: &Value) -> Result<bool, AllocError>
        ensures pushed { (trees : List Data) → IsTextSoFar trees self.old → result ≡ Ok true
            → IsTextSoFar (trees ++ whole (view tree.now) ∷ []) self.new }
        ensures full { (trees : List Data) → IsTextSoFar trees self.old → result ≡ Ok false
            → ¬ (AreWithinLimits (trees ++ whole (view tree.now) ∷ [])) }
        ensures same { result ≡ Ok false → self.new ≡ self.old }
        ensures err { OnErr result (IsSameText self.old self.new) }
        ensures reads_back { result ≡ Ok true → IsReadable (view tree.now) → ReadsBack (whole (view tree.now)) }
    {
        let mut line = Vec::new(alloc);
        push_whole(alloc, &mut line, tree)?;
        if !has_room(self.bytes.len(), self.lines, line.len()) {
            return Ok(false);
        }
        self.bytes.extend_from_slice(line.as_slice())?;
        self.lines += 1;
        Ok(true)
    }
}

// Whether there is room for a line of this length, its line feed counted, after this many bytes and lines.
fn has_room(bytes: usize, lines: u32, line: usize) -> bool
    ensures { IsTrue result ↔ HasRoom bytes lines line }
{
    line <= MAX_LINE_BYTES + 1
        && lines < MAX_LINES
        && bytes <= MAX_INPUT_BYTES
        && line <= MAX_INPUT_BYTES - bytes
}
