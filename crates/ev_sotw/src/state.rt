ghost use Rattle.std.specs.Prelude.{◌≡◌, [], false, IfOk, OnOk};
ghost use Rattle.serde_json.specs.View.{view};
ghost use Rattle.serde_json.specs.Written.{has_float};
ghost use Rattle.ev_journal.specs.Rendering.{line_text};
ghost use Rattle.ev_sotw.specs.Stated.{stated_with};
ghost use Rattle.ev_sotw.specs.Follows.{FollowsEntries, GoesOnBy, IsLineBy, type_by, entry_by, after_all};

use crate::answers::{moved_value, replied_value, row_value};
use crate::known::TypeSoFar;
use ev_journal::write_line;
use ev_trees::push_line;
use ev_types::{Answer, Entry, Kind, Text};
use serde_json::Value;
use std::alloc::{AllocError, Global};

/// What the entries of a journal so far say of each type: what its requests of the state of the world need.
#[derive(Drop)]
pub struct SotwState {
    pub clusters: TypeSoFar,
    pub endpoints: TypeSoFar,
    pub listeners: TypeSoFar,
    pub routes: TypeSoFar,
    pub secrets: TypeSoFar,
    pub extensions: TypeSoFar,
}

impl SotwState {
    /// What no entries say.
    pub fn new(alloc: Global) -> SotwState
        ensures { FollowsEntries [] result }
    {
        SotwState {
            clusters: TypeSoFar::new(alloc),
            endpoints: TypeSoFar::new(alloc),
            listeners: TypeSoFar::new(alloc),
            routes: TypeSoFar::new(alloc),
            secrets: TypeSoFar::new(alloc),
            extensions: TypeSoFar::new(alloc),
        }
    }

    /// Goes on by an entry, and writes its line, whose requests are those of the state of the world.
    /// `version` is that of the response that it answers, and the empty text where it answers none.
    ///
    /// # Errors
    /// `AllocError` where there is no memory for it; what is known then is unspecified.
    pub fn line(
        &mut self,
        alloc: Global,
        entry: &Entry,
        version: &Text,
    ) -> Result<Vec<u8>, AllocError>
        ensures follows { OnOk result (GoesOnBy (stated_with entry.now version.now) self.old self.new) }
        ensures line { IfOk result (λ line. IsLineBy self.old (stated_with entry.now version.now) line.items) }
    {
        self.note(alloc, entry, version)?;
        self.write(alloc, entry)
    }

    // Takes in what an entry says.
    fn note(&mut self, alloc: Global, entry: &Entry, version: &Text) -> Result<(), AllocError>
        ensures { OnOk result (self.new ≡ after_all (stated_with entry.now version.now) self.old) }
    {
        self.clusters.note(alloc, Kind::Cds, entry, version)?;
        self.endpoints.note(alloc, Kind::Eds, entry, version)?;
        self.listeners.note(alloc, Kind::Lds, entry, version)?;
        self.routes.note(alloc, Kind::Rds, entry, version)?;
        self.secrets.note(alloc, Kind::Sds, entry, version)?;
        self.extensions.note(alloc, Kind::Ecds, entry, version)
    }

    // The line of an entry.
    fn write(&self, alloc: Global, entry: &Entry) -> Result<Vec<u8>, AllocError>
        ensures { IfOk result (λ line. line.items ≡ line_text (entry_by self.now entry.now)) }
    {
        match &entry.answer {
            Answer::Moved { requests } => {
                let answer = moved_value(alloc, self, requests.as_slice())?;
                write_row(alloc, &row_value(alloc, entry, answer)?)
            }
            Answer::Replied { requests, verdicts } => {
                let answer = replied_value(alloc, self, requests.as_slice(), verdicts.as_slice())?;
                write_row(alloc, &row_value(alloc, entry, answer)?)
            }
            _ => write_line(alloc, entry),
        }
    }

    // What is known of a type.
    pub(crate) fn of(&self, kind: Kind) -> &TypeSoFar
        ensures { result.now ≡ type_by self.now kind }
    {
        match kind {
            Kind::Cds => &self.clusters,
            Kind::Eds => &self.endpoints,
            Kind::Lds => &self.listeners,
            Kind::Rds => &self.routes,
            Kind::Sds => &self.secrets,
            Kind::Ecds => &self.extensions,
        }
    }
}

// The line of a row.
fn write_row(alloc: Global, row: &Value) -> Result<Vec<u8>, AllocError>
    requires { has_float (view row.now) ≡ false }
    ensures { IfOk result (λ line. line.items ≡ line_text (view row.now)) }
{
    let mut line = Vec::new(alloc);
    push_line(alloc, &mut line, row)?;
    Ok(line)
}
