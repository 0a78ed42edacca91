ghost use Rattle.std.specs.Prelude.{◌≡◌, IfOk, IsErrOf};
ghost use Rattle.serde_json.specs.View.{view};
ghost use Rattle.ev_journal.specs.Rows.{IsTextOf};
ghost use Rattle.ev_journal_read.specs.Reading.{IsNoRow};
ghost use Rattle.ev_journal_read.specs.Trees.{head_of, row_of};

use crate::answers::{answer_at, is_answered_with};
use crate::outcome::RowError;
use crate::parts::number32_at;
use crate::words::{actor_named, op_named};
use ev_journal::write_row;
use ev_script::{read_tree, word_at};
use ev_types::{Actor, Op, Row};
use serde_json::Value;
use std::alloc::{AllocError, Global};

/// The row of a journal's line, by its text without the line feed that closes it. Of several rows with that text it is
/// the one whose requests have no empty nonce and whose versions are sorted by name, each name once.
///
/// # Errors
/// `NotARow` exactly where the text is no row's. `OutOfMemory` where there is no memory for the row.
pub fn read_row(alloc: Global, text: &[u8]) -> Result<Row, RowError>
    ensures row { IfOk result (λ row. IsTextOf text.now row) }
    ensures none { IsErrOf result RowError.NotARow → IsNoRow text.now }
{
    let Some(tree) = read_tree(alloc, text)? else {
        return Err(RowError::NotARow);
    };
    let Some(row) = row_of(alloc, &tree)? else {
        return Err(RowError::NotARow);
    };
    if !is_answered_with(row.op, &row.answer) {
        return Err(RowError::NotARow);
    }
    if write_row(alloc, &row)?.as_slice() != text {
        return Err(RowError::NotARow);
    }
    Ok(row)
}

// Who, at which line and step of the script, and what.
#[derive(Drop)]
pub(crate) struct RowHead {
    pub actor: Actor,
    pub at: u32,
    pub step: u32,
    pub op: Op,
}

// The row that a tree would be.
#[tactic(auto, unfolding(crate::specs::Trees::row_of))]
fn row_of(alloc: Global, tree: &Value) -> Result<Option<Row>, AllocError>
    ensures { IfOk result (λ row. row ≡ row_of (view tree.now)) }
{
    let Some(head) = head_of(tree) else {
        return Ok(None);
    };
    match answer_at(alloc, tree, "answer")? {
        Some(answer) => Ok(Some(Row {
            actor: head.actor,
            at: head.at,
            step: head.step,
            op: head.op,
            answer,
        })),
        None => Ok(None),
    }
}

// All of a row but its answer.
#[tactic(auto, unfolding(crate::specs::Trees::head_of))]
fn head_of(tree: &Value) -> Option<RowHead>
    ensures { result ≡ head_of (view tree.now) }
{
    Some(RowHead {
        actor: actor_named(word_at(tree, "actor")?)?,
        at: number32_at(tree, "at")?,
        step: number32_at(tree, "step")?,
        op: op_named(word_at(tree, "op")?)?,
    })
}
