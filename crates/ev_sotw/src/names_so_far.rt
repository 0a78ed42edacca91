ghost use Rattle.std.specs.Prelude.{◌≡◌, [], map, option_map, if◌then◌else◌, IfOk, OnOk};
ghost use Rattle.serde_json.specs.Data.{string};
ghost use Rattle.serde_json.specs.View.{view};
ghost use Rattle.ev_types.specs.declared.events.Profile.{Profile};
ghost use Rattle.ev_model.specs.Requests.{other_than};
ghost use Rattle.ev_sotw.specs.Discovery.{seen};
ghost use Rattle.ev_sotw.specs.Delta.{delta_message};
ghost use Rattle.ev_sotw.specs.Deltas.{delta_line};
ghost use Rattle.ev_sotw.specs.LineFollows.{FollowsLines, GoesOnBy, IsDeltaBy, AreNames, removed_by, after_response, after_other};

use crate::forms::response_in;
use crate::{Discovery, NameSet, delta_message};
use ev_script::is_op;
use ev_types::{Kind, Profile};
use serde_json::{Value, json};
use std::alloc::{AllocError, Global};

/// What the lines so far say: whether the stream is open after them,
/// and which names the last responses of clusters and of listeners had that came on an open stream.
#[derive(Drop)]
pub struct NamesSoFar {
    pub connected: bool,
    pub clusters: NameSet,
    pub listeners: NameSet,
}

impl NamesSoFar {
    /// What no lines say.
    pub fn new(alloc: Global) -> NamesSoFar
        ensures { (profile : Profile) → FollowsLines profile [] result }
    {
        NamesSoFar {
            connected: false,
            clusters: NameSet::new(alloc),
            listeners: NameSet::new(alloc),
        }
    }

    /// Goes on by a line of a script in a profile. Where it brings a response of the state of the world, the line that
    /// brings the response of the incremental protocol that says the same, and otherwise none: a line without such a
    /// response stays as it is.
    ///
    /// # Errors
    /// `AllocError` where there is no memory for it; the names is unspecified then.
    pub fn line(
        &mut self,
        alloc: Global,
        profile: Profile,
        line: &Value,
    ) -> Result<Option<Value>, AllocError>
        ensures follows { OnOk result (GoesOnBy profile (view line.now) self.old self.new) }
        ensures delta { IfOk result (λ made. IsDeltaBy profile self.old (view line.now) (option_map view made)) }
    {
        match response_in(alloc, profile, line)? {
            Some(response) => Ok(Some(self.respond(alloc, &response)?)),
            None => {
                self.turn_stream(line);
                Ok(None)
            }
        }
    }

    // Goes on by a line without a response.
    fn turn_stream(&mut self, line: &Value)
        ensures { self.new ≡ after_other (view line.now) self.old }
    {
        if is_op("connect", line) {
            self.connected = true;
        } else if is_op("disconnect", line) {
            self.connected = false;
        }
    }

    // Goes on by a response, and gives the line that says the same.
    fn respond(&mut self, alloc: Global, response: &Discovery<'_>) -> Result<Value, AllocError>
        ensures follows { OnOk result (self.new ≡ after_response (seen response.now) self.old) }
        ensures delta { IfOk result (λ made. view made
            ≡ delta_line (delta_message (seen response.now) (map string (removed_by self.old (seen response.now))))) }
    {
        let removed = self.turn_names(alloc, response)?;
        let message = delta_message(alloc, response, removed)?;
        json!(in alloc; {"message": message, "op": "response"})
    }

    // Goes on by a response, and gives the names that it removes.
    fn turn_names(
        &mut self,
        alloc: Global,
        response: &Discovery<'_>,
    ) -> Result<Vec<Value>, AllocError>
        ensures follows { OnOk result (self.new ≡ after_response (seen response.now) self.old) }
        ensures removed { IfOk result (λ removed. AreNames removed.items (removed_by self.old (seen response.now))) }
    {
        match response.kind {
            Some(Kind::Cds) => {
                let names = response.names(alloc, Kind::Cds)?;
                turn(alloc, self.connected, &mut self.clusters, names)
            }
            Some(Kind::Lds) => {
                let names = response.names(alloc, Kind::Lds)?;
                turn(alloc, self.connected, &mut self.listeners, names)
            }
            Some(Kind::Eds | Kind::Rds | Kind::Sds | Kind::Ecds) | None => Ok(Vec::new(alloc)),
        }
    }
}

// Puts names in place of the last ones, where the stream is open, and gives those that were there and aren't now.
fn turn(
    alloc: Global,
    connected: bool,
    last: &mut NameSet,
    names: NameSet,
) -> Result<Vec<Value>, AllocError>
    ensures last { OnOk result (last.new ≡ (if connected then names else last.old)) }
    ensures removed { IfOk result (λ removed. AreNames removed.items (other_than names last.old)) }
{
    let removed = last.values_without(alloc, &names)?;
    if connected {
        *last = names;
    }
    Ok(removed)
}
