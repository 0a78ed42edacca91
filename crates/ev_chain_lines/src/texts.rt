ghost use Rattle.std.specs.Prelude.{◌≡◌, ◌+◌, ◌<◌, ◌^◌, ◌↔◌, length, map, IsTrue, IfOk, OnOk};
ghost use Rattle.serde_json.specs.View.{view};
ghost use Rattle.ev_io.specs.declared.limits.TheConstants.{MAX_LINES};
ghost use Rattle.ev_journal.specs.Rendering.{end_tree, number_tree};
ghost use Rattle.ev_listener_json.specs.Chains.{chains_of};
ghost use Rattle.ev_chains.specs.Events.{seen};
ghost use Rattle.ev_chains.specs.Steps.{Update, chain_step};
ghost use Rattle.ev_chain_lines.specs.Lines.{event_told};
ghost use Rattle.ev_chain_lines.specs.Texts.{IsRefusedBy, answer_tree, line_tree, chains_text};

use crate::answers::{
    accepted_value, changed_value, closed_value, drained_value, reaped_value, refused_value,
};
use crate::event_line::EventLine;
use crate::events::read_event;
use ev_chains::{ChainEvent, Chains};
use ev_io::MAX_LINES;
use ev_keys::Keys;
use ev_tree::{ReadError, member};
use ev_trees::push_line;
use serde_json::{Value, json};
use std::alloc::{AllocError, Global};

/// The text that answers the lines of an input after the first:
/// a line for each event, and one with their number. Chains are found by tables of these keys.
///
/// # Errors
/// `AllocError` where there is no memory for it, or more than 2^32 - 1 chains would have to be numbered.
pub fn answer_lines(alloc: Global, keys: Keys, lines: &[EventLine]) -> Result<Vec<u8>, AllocError>
    requires few { length lines.now < MAX_LINES }
    ensures text { IfOk result (λ text. text.items ≡ chains_text (map event_told lines.now)) }
{
    let mut chains = Chains::new(alloc, keys);
    let mut text = Vec::new(alloc);
    for (place, line) in lines.iter().enumerate() {
        let answer = answer_line(alloc, &mut chains, line)?;
        let answered = line_value(alloc, place + 2, answer)?;
        push_line(alloc, &mut text, &answered)?;
    }
    push_line(alloc, &mut text, &end_value(alloc, lines.len())?)?;
    Ok(text)
}

// The answer to a line's event, which changes the chains. Out of memory, nothing is said of them.
fn answer_line(alloc: Global, chains: &mut Chains, line: &EventLine) -> Result<Value, AllocError>
    ensures answer { IfOk result (λ v. view v ≡ answer_tree (chain_step chains.old (event_told line.now)).1) }
    ensures state { OnOk result (chains.new ≡ (chain_step chains.old (event_told line.now)).0) }
{
    let tree = line.read(alloc)?;
    match read_event(&tree) {
        Some(event) => answer_event(alloc, chains, event),
        None => unreachable!(),
    }
}

// The answer to an event.
fn answer_event(
    alloc: Global,
    chains: &mut Chains,
    event: ChainEvent<'_>,
) -> Result<Value, AllocError>
    ensures answer { IfOk result (λ v. view v ≡ answer_tree (chain_step chains.old (seen event.entry)).1) }
    ensures state { OnOk result (chains.new ≡ (chain_step chains.old (seen event.entry)).0) }
{
    match event {
        ChainEvent::Listener(message) => answer_listener(alloc, chains, message),
        ChainEvent::Accept { conn, port, server } => {
            let asked = chains.accept(alloc, conn, server, port)?;
            let value = accepted_value(alloc, asked)?;
            Ok(value)
        }
        ChainEvent::Close(conn) => closed_value(alloc, chains.close(conn)),
        ChainEvent::DrainTimeout => drained_value(alloc, chains.drain(alloc)?.as_slice()),
        ChainEvent::Reap => reaped_value(alloc, chains.reap(alloc)?.as_slice()),
    }
}

// The answer to a listener.
fn answer_listener(alloc: Global, chains: &mut Chains, message: &Value) -> Result<Value, AllocError>
    ensures answer { IfOk result (λ v. view v ≡ answer_tree (chain_step chains.old (Update (view message.now))).1) }
    ensures state { OnOk result (chains.new ≡ (chain_step chains.old (Update (view message.now))).0) }
{
    if !has_room(alloc, chains.made(), message)? {
        return Err(AllocError);
    }
    match chains.listener(alloc, message) {
        Ok(changed) => changed_value(alloc, &changed),
        Err(error) => error_value(alloc, &error),
    }
}

// The answer to a listener that couldn't be read: the rule that refuses it.
fn error_value(alloc: Global, error: &ReadError) -> Result<Value, AllocError>
    ensures { IfOk result (λ v. IsRefusedBy error.now (view v)) }
{
    match error {
        ReadError::Rule(rule) => refused_value(alloc, *rule),
        ReadError::OutOfMemory => Err(AllocError),
    }
}

// Whether there are numbers for all chains of a listener, where this many were allocated.
fn has_room(alloc: Global, made: u32, message: &Value) -> Result<bool, AllocError>
    ensures { IfOk result (λ has. IsTrue has ↔ (made + length (chains_of (view message.now)) < 2 ^ 32)) }
{
    let chains = member::objects(alloc, Some(message), "filter_chains")?;
    let count = member::elements(chains).len();
    Ok(count <= (u32::MAX - made) as usize)
}

// The line of an answer.
fn line_value(alloc: Global, at: usize, answer: Value) -> Result<Value, AllocError>
    ensures { IfOk result (λ v. view v ≡ line_tree at (view answer)) }
{
    json!(in alloc; {"answer": answer, "at": at})
}

// The last line.
fn end_value(alloc: Global, answers: usize) -> Result<Value, AllocError>
    ensures { IfOk result (λ v. view v ≡ end_tree answers) }
{
    json!(in alloc; {"end": answers})
}
