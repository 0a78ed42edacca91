ghost use Rattle.std.specs.Prelude.{◌≡◌, ◌<◌, ◌+◌, ◌&&◌, List, not, length, IfOk};
ghost use Rattle.std.specs.List.{list_any};
ghost use Rattle.ev_types.specs.declared.journals.Row.{Row};
ghost use Rattle.ev_model.specs.Finding.{end_finding, finding_at};
ghost use Rattle.ev_model.specs.Operations.{actor_same, is_held_by};
ghost use Rattle.ev_model.specs.World.{World};
ghost use Rattle.ev_proxy.specs.Proxies.{IsAt};
ghost use Rattle.ev_model_laws.specs.Walks.{leaves_out};
ghost use Rattle.ev_audit.specs.Audits.{IsBefore, batch_after, breaks_open, is_settle_word, world_before};

use crate::steps::{has_open, step_due};
use ev_keys::Keys;
use ev_operations::Courses;
use ev_proxy::Proxy;
use ev_types::{Actor, Finding, Format, Op, Row, Script, is_same_answer};
use std::alloc::{AllocError, Global};

/// A walk over a journal's rows: the machine after the rows so far, how far each actor has come,
/// and whose batch is open.
#[derive(Drop)]
pub(crate) struct Walk {
    pub(crate) proxy: Proxy,
    pub(crate) courses: Courses,
    /// The worker whose accept or close was the last row.
    pub(crate) batch: Option<Actor>,
}

impl Walk {
    /// The walk before the first row.
    pub(crate) fn new(
        alloc: Global,
        keys: Keys,
        format: Format,
        script: &Script,
    ) -> Result<Walk, AllocError>
        ensures format { IfOk result (λ walk. walk.courses.format ≡ format) }
        ensures before { IfOk result (λ walk. (rows : List Row) → IsBefore script.now rows 0 walk) }
    {
        let courses = Courses::new(alloc, format, script)?;
        let proxy = Proxy::new(alloc, keys, script.workers, &script.node)?;
        Ok(Walk {
            proxy,
            courses,
            batch: None,
        })
    }

    /// Goes on by a row, and says what is found of it. Where anything is, or memory runs out,
    /// the walk has come to its end.
    pub(crate) fn pass(
        &mut self,
        alloc: Global,
        script: &Script,
        rows: &[Row],
        place: usize,
    ) -> Result<Option<Finding>, AllocError>
        ghost here: { World }
        requires within { place < length rows.now }
        requires few { length rows.now < u32.MAX }
        requires before { IsBefore script.now rows.now place self.old }
        requires here { here ≡ world_before self.old.courses.format script.now rows.now place }
        ensures found { IfOk result (λ found. found
            ≡ finding_at self.old.courses.format script.now rows.now place) }
        ensures before { IfOk result (λ found. found ≡ None → IsBefore script.now rows.now (place + 1) self.new) }
        ensures format { self.new.courses.format ≡ self.old.courses.format }
    {
        let _ = &script.workers;
        let number = place as u32 + 1;
        let row = &rows[place];
        let Some(found) = self.courses.find(script, row) else {
            return Ok(Some(Finding::NotTheScript(number)));
        };
        let breaks = breaks(self.batch, row.actor);
        if breaks {
            return Ok(Some(Finding::IllegalAt(number)));
        }
        let format = self.courses.format;
        let answer = step_due(alloc, format, &mut self.proxy, script, row.actor, found.due)?;
        let same = is_same_answer(&row.answer, &answer);
        if !same {
            return Ok(Some(Finding::IllegalAt(number)));
        }
        let rests = rests(&self.proxy, format, row);
        self.courses.move_on(found, rests);
        self.batch = batch_after(row);
        Ok(None)
    }

    /// What is found after the last row.
    pub(crate) fn end(&self, script: &Script, rows: &[Row]) -> Finding
        requires few { length rows.now < u32.MAX }
        requires before { IsBefore script.now rows.now (length rows.now) self.now }
        ensures { result ≡ end_finding self.now.courses.format script.now rows.now }
    {
        let unfinished = self.courses.is_unfinished(script);
        if unfinished {
            Finding::NotTheScript(rows.len() as u32 + 1)
        } else {
            Finding::Legal
        }
    }
}

// Whether an entry of this actor breaks into an open batch.
fn breaks(batch: Option<Actor>, actor: Actor) -> bool
    ensures { result ≡ breaks_open batch actor }
{
    match batch {
        None => false,
        Some(of) => !is_same_actor(actor, of),
    }
}

// Whether the two are the same actor.
fn is_same_actor(one: Actor, other: Actor) -> bool
    ensures { result ≡ actor_same one other }
{
    match (one, other) {
        (Actor::Stream, Actor::Stream) => true,
        (Actor::Health, Actor::Health) => true,
        (Actor::Timer, Actor::Timer) => true,
        (Actor::Main, Actor::Main) => true,
        (Actor::Worker(one), Actor::Worker(other)) => one == other,
        _ => false,
    }
}

// Whether settles may be left out of the row's actor after the row, where the proxy has taken it.
fn rests(proxy: &Proxy, format: Format, row: &Row) -> bool
    ensures { (world : World) → IsAt proxy.now world
        → result ≡ leaves_out format (is_settle_word row.now.op
        && not (list_any (is_held_by row.now.actor) world.opened)) }
{
    match format {
        Format::One => false,
        Format::Two => is_settle(row.op) && !has_open(proxy, row.actor),
    }
}

// Whether it is the word of a settle.
fn is_settle(op: Op) -> bool
    ensures { result ≡ is_settle_word op }
{
    matches!(op, Op::Settle)
}

// Whose batch is open after a row.
fn batch_after(row: &Row) -> Option<Actor>
    ensures { result ≡ batch_after row.now }
{
    match row.op {
        Op::Accept | Op::Close => Some(row.actor),
        _ => None,
    }
}
