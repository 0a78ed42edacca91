ghost use Rattle.std.specs.Prelude.{◌≡◌, ◌<◌, ◌^◌, false, All, IfOk, OnOk, string_bytes};
ghost use Rattle.serde_json.specs.Data.{Data};
ghost use Rattle.serde_json.specs.View.{view};
ghost use Rattle.serde_json.specs.Written.{has_float, compact_text};
ghost use Rattle.std.specs.Str.{IsUtf8};
ghost use Rattle.ev_journal.specs.Rendering.{rendering_of, line_text, row_object, entry_row, entry_tree, first_tree, end_tree};
ghost use Rattle.ev_journal.specs.Rows.{IsActor, KeepsBounds, row_text};

use crate::answers::answer_text;
use crate::words::{actor_word, format_number, op_word};
use ev_types::{Actor, Entry, Format, Op, Row};
use serde_json::{Value, json};
use std::alloc::{AllocError, Global};

/// Writes the text of a journal of a format, for this many workers:
/// the first line, a line for each entry, and the end line with their number, each closed by a line feed.
pub fn render_journal(
    alloc: Global,
    format: Format,
    workers: u32,
    journal: &[Entry],
) -> Result<Vec<u8>, AllocError>
    ensures text { IfOk result (λ text. text.items ≡ rendering_of format workers journal.now) }
    ensures bounded { OnOk result (All (λ entry. KeepsBounds (entry_row entry)) journal.now) }
{
    let mut text = write_first_line(alloc, format, workers)?;
    for entry in journal {
        text.extend_from_slice(write_line(alloc, entry)?.as_slice())?;
    }
    text.extend_from_slice(write_end_line(alloc, journal.len())?.as_slice())?;
    Ok(text)
}

/// Writes the first line of a journal: its format and the number of its workers, with the line feed that closes it.
pub fn write_first_line(alloc: Global, format: Format, workers: u32) -> Result<Vec<u8>, AllocError>
    ensures line { IfOk result (λ line. line.items ≡ line_text (first_tree format workers)) }
{
    line_of(alloc, &first_value(alloc, format, workers)?)
}

/// Writes the line of an entry, with the line feed that closes it: who did what, at which line and step of the
/// script, and the answer, by the table of answers in docs/FORMATS.md. What the types of an entry keep is said with it:
/// the parts of its row are within bounds, and its line is UTF-8.
#[tactic(auto, unfolding(crate::specs::Rows::row_text, crate::specs::Rendering::line_text))]
pub fn write_line(alloc: Global, entry: &Entry) -> Result<Vec<u8>, AllocError>
    ensures line { IfOk result (λ line. line.items ≡ line_text (entry_tree entry.now)) }
    ensures bounded { OnOk result (KeepsBounds (entry_row entry.now)) }
{
    let answer = answer_text(alloc, &entry.answer)?;
    let mut line = text_of(
        alloc,
        entry.actor,
        entry.at,
        entry.step,
        entry.event.op(),
        answer.as_str(),
    )?;
    line.push('\n')?;
    Ok(line.into_bytes())
}

/// Writes the text of a row: its line, without the line feed that closes it.
#[tactic(auto, unfolding(crate::specs::Rows::row_text))]
pub fn write_row(alloc: Global, row: &Row) -> Result<Vec<u8>, AllocError>
    ensures text { IfOk result (λ text. text.items ≡ row_text row.now) }
    ensures utf8 { IfOk result (λ text. IsUtf8 text.items) }
{
    let answer = answer_text(alloc, &row.answer)?;
    let text = text_of(alloc, row.actor, row.at, row.step, row.op, answer.as_str())?;
    Ok(text.into_bytes())
}

/// Writes the last line of a journal of this many entries, with the line feed that closes it.
pub fn write_end_line(alloc: Global, entries: usize) -> Result<Vec<u8>, AllocError>
    ensures line { IfOk result (λ line. line.items ≡ line_text (end_tree entries)) }
{
    line_of(alloc, &end_value(alloc, entries)?)
}

/// Writes the text of a journal's first line, without the line feed that closes it.
pub fn write_first_text(alloc: Global, format: Format, workers: u32) -> Result<Vec<u8>, AllocError>
    ensures text { IfOk result (λ text. text.items ≡ compact_text (first_tree format workers)) }
{
    first_value(alloc, format, workers)?.to_vec(alloc)
}

/// Writes the text of a journal's last line, without the line feed that closes it.
pub fn write_end_text(alloc: Global, entries: usize) -> Result<Vec<u8>, AllocError>
    ensures text { IfOk result (λ text. text.items ≡ compact_text (end_tree entries)) }
{
    end_value(alloc, entries)?.to_vec(alloc)
}

// The line of a tree.
#[tactic(auto, unfolding(crate::specs::Rendering::line_text))]
fn line_of(alloc: Global, value: &Value) -> Result<Vec<u8>, AllocError>
    requires { has_float (view value.now) ≡ false }
    ensures line { IfOk result (λ line. line.items ≡ line_text (view value.now)) }
    ensures utf8 { OnOk result (IsUtf8 (compact_text (view value.now))) }
{
    let mut line = value.to_vec(alloc)?;
    line.push(b'\n')?;
    Ok(line)
}

// The first line's tree.
fn first_value(alloc: Global, format: Format, workers: u32) -> Result<Value, AllocError>
    ensures { IfOk result (λ v. view v ≡ first_tree format workers) }
{
    json!(in alloc; {"format": format_number(format), "workers": workers})
}

// The last line's tree.
fn end_value(alloc: Global, entries: usize) -> Result<Value, AllocError>
    ensures { IfOk result (λ v. view v ≡ end_tree entries) }
{
    json!(in alloc; {"end": entries})
}

// The text of a row with these parts, whose answer has this text.
fn text_of(
    alloc: Global,
    actor: Actor,
    at: u32,
    step: u32,
    op: Op,
    answer: &str,
) -> Result<String, AllocError>
    ensures text { IfOk result (λ text. (tree : Data) → answer.now ≡ compact_text tree
        → string_bytes text ≡ compact_text (row_object actor at step op tree)) }
    ensures bounded_actor { OnOk result (IsActor actor) }
    ensures bounded_at { OnOk result (at < 2 ^ 32) }
    ensures bounded_step { OnOk result (step < 2 ^ 32) }
{
    let actor = actor_word(alloc, actor)?;
    let op = op_word(op);
    format!(in alloc;
        "{{\"actor\":\"{actor}\",\"answer\":{answer},\"at\":{at},\"op\":\"{op}\",\"step\":{step}}}"
    )
}
