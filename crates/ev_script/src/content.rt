ghost use Rattle.std.specs.Prelude.{◌≡◌, ◌&&◌, IfOk};
ghost use Rattle.serde_json.specs.View.{view};
ghost use Rattle.ev_script.specs.Members.{tree_of};
ghost use Rattle.ev_script.specs.Faults.{has_format};
ghost use Rattle.ev_script.specs.Content.{first_content, first_set, is_above, IsFirstKept, IsContent};

use crate::fault_kinds::FaultKind;
use crate::forms::{FormedHead, Forms, Settings};
use crate::members::read_tree;
use serde_json::Value;
use std::alloc::{AllocError, Global};

// What the first line of an input is.
#[derive(Drop)]
pub(crate) enum First<T> {
    /// A header.
    Header(T),
    /// No header, with this fault.
    Fault(FaultKind),
}

// What a line after the first is.
#[derive(Drop)]
pub(crate) enum Content<T> {
    /// A line of the script, and what is kept of it.
    Line(T),
    /// No line, with this fault.
    Fault(FaultKind),
    /// The first line of the journal after the script.
    Journal,
}

// What the first line is, by its text without its line feed: a header, or a fault of kind 4 or 5.
pub(crate) fn read_first<F: Forms>(
    alloc: Global,
    forms: &F,
    text: &[u8],
) -> Result<First<FormedHead<F::Head>>, AllocError>
    ensures sets { IfOk result (λ first. first_set first ≡ first_content F.forms text.now) }
    ensures kept { IfOk result (IsFirstKept F.keeps_head (tree_of text.now)) }
{
    let Some(tree) = read_tree(alloc, text)? else {
        return Ok(First::Fault(FaultKind::NotJson));
    };
    match forms.read_head(alloc, tree)? {
        Some(head) => Ok(First::Header(head)),
        None => Ok(First::Fault(FaultKind::NotHeader)),
    }
}

// What line `at` is, by its text without its line feed, in a script with these settings: a line, or a
// fault of kind 4, 6 or 7. In an audit's input an object with a member `format` begins the journal,
// whatever else it has. The line's tree is gone before the answer, where it isn't what is kept.
pub(crate) fn read_content<F: Forms>(
    alloc: Global,
    forms: &F,
    audit: bool,
    settings: Settings,
    at: u32,
    text: &[u8],
) -> Result<Content<F::Kept>, AllocError>
    ensures { IfOk result (IsContent F.forms F.keeps audit settings at (tree_of text.now)) }
{
    let Some(tree) = read_tree(alloc, text)? else {
        return Ok(Content::Fault(FaultKind::NotJson));
    };
    if begins_journal(audit, &tree) {
        return Ok(Content::Journal);
    }
    let Some(formed) = forms.read(alloc, settings.profile, at, text, tree)? else {
        return Ok(Content::Fault(FaultKind::NotLine));
    };
    if is_above(settings.workers, formed.worker) {
        return Ok(Content::Fault(FaultKind::NoSuchWorker));
    }
    Ok(Content::Line(formed.kept))
}

// Whether a tree begins the journal of an audit's input.
fn begins_journal(audit: bool, tree: &Value) -> bool
    ensures { result ≡ (audit && has_format (view tree.now)) }
{
    audit && has_format(tree)
}

// Whether a tree is an object with a member `format`.
fn has_format(tree: &Value) -> bool
    ensures { result ≡ has_format (view tree.now) }
{
    tree.get("format").is_some()
}

// Whether a line's worker, where it names one, isn't below the count.
fn is_above(workers: u32, worker: Option<u32>) -> bool
    ensures { result ≡ is_above workers worker }
{
    match worker {
        Some(worker) => workers <= worker,
        None => false,
    }
}
