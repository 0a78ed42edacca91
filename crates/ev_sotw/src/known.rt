ghost use Rattle.std.specs.Prelude.{◌≡◌, OnOk};
ghost use Rattle.ev_sotw.specs.Stated.{Known, nothing_known, stated_with};
ghost use Rattle.ev_sotw.specs.Follows.{after_opening, after_reply, without_given_up_by, without_given_up, with_asked_by, with_asked, after_entry};

use crate::NameSet;
use crate::entries::{opens, reply_in, requests_in};
use ev_types::{Answer, Entry, Kind, Request, Text};
use std::alloc::{AllocError, Global};
use std::marker::Model;

/// What the entries so far say of a type: the version that was acknowledged last,
/// the last nonce on this stream, and the names that are asked for on it.
#[derive(Drop)]
pub struct TypeSoFar {
    version: String,
    nonce: String,
    names: NameSet,
}

impl Model for TypeSoFar {
    ghost use Rattle.std.specs.String.{string_bytes};
    ghost use Rattle.ev_sotw.specs.Stated.{Known};

    ghost Value = { Known };

    ghost view = { λ t. record { version = string_bytes t.version; nonce = string_bytes t.nonce; names = t.names } };
}

impl TypeSoFar {
    /// What no entries say.
    pub(crate) fn new(alloc: Global) -> TypeSoFar
        ensures { result ≡ nothing_known }
    {
        TypeSoFar {
            version: String::new(alloc),
            nonce: String::new(alloc),
            names: NameSet::new(alloc),
        }
    }

    /// The version that was acknowledged last.
    pub(crate) fn version(&self) -> &str
        ensures { result.now ≡ self.now.version }
    {
        self.version.as_str()
    }

    /// The last nonce.
    pub(crate) fn nonce(&self) -> &str
        ensures { result.now ≡ self.now.nonce }
    {
        self.nonce.as_str()
    }

    /// The names that are asked for.
    pub(crate) fn names(&self) -> &NameSet
        ensures { result.now ≡ self.now.names }
    {
        &self.names
    }

    /// Takes in what an entry says of this type.
    pub(crate) fn note(
        &mut self,
        alloc: Global,
        kind: Kind,
        entry: &Entry,
        version: &Text,
    ) -> Result<(), AllocError>
        ensures { OnOk result (self.new ≡ after_entry kind (stated_with entry.now version.now) self.old) }
    {
        self.note_opening(alloc, entry);
        self.note_reply(alloc, kind, &entry.answer, version.as_str())?;
        let requests = requests_in(&entry.answer);
        self.drop_names(kind, requests);
        self.put_names(alloc, kind, requests)
    }

    // A stream that opens has no nonce and no names.
    fn note_opening(&mut self, alloc: Global, entry: &Entry)
        ensures { self.new ≡ after_opening entry.now self.old }
    {
        if opens(entry) {
            self.nonce = String::new(alloc);
            self.names = NameSet::new(alloc);
        }
    }

    // A reply gives its nonce, and one without an error the version.
    fn note_reply(
        &mut self,
        alloc: Global,
        kind: Kind,
        answer: &Answer,
        version: &str,
    ) -> Result<(), AllocError>
        ensures { OnOk result (self.new ≡ after_reply kind version.now answer.now self.old) }
    {
        let Some(reply) = reply_in(answer) else {
            return Ok(());
        };
        if !reply.kind.is(kind) {
            return Ok(());
        }
        if let Some(nonce) = &reply.nonce {
            self.nonce = String::from_str(alloc, nonce.as_str())?;
        }
        if reply.error.is_none() {
            self.version = String::from_str(alloc, version)?;
        }
        Ok(())
    }

    // The names that requests of this type give up go.
    fn drop_names(&mut self, kind: Kind, requests: &[Request])
        ensures { self.new ≡ without_given_up kind requests.now self.old }
    {
        for request in requests {
            self.drop_given_up(kind, request);
        }
    }

    // The names that a request gives up go, where it is of this type.
    fn drop_given_up(&mut self, kind: Kind, request: &Request)
        ensures { self.new ≡ without_given_up_by kind request.now self.old }
    {
        if request.kind.is(kind) {
            self.names.remove_all(request.unsubscribe.as_slice());
        }
    }

    // The names that requests of this type ask for come.
    fn put_names(
        &mut self,
        alloc: Global,
        kind: Kind,
        requests: &[Request],
    ) -> Result<(), AllocError>
        ensures { OnOk result (self.new ≡ with_asked kind requests.now self.old) }
    {
        self.names.keeps_order();
        for request in requests {
            self.put_asked(alloc, kind, request)?;
        }
        Ok(())
    }

    // The names that a request asks for come, where it is of this type.
    fn put_asked(&mut self, alloc: Global, kind: Kind, request: &Request) -> Result<(), AllocError>
        ensures { OnOk result (self.new ≡ with_asked_by kind request.now self.old) }
    {
        self.names.keeps_order();
        if request.kind.is(kind) {
            self.names.insert_all(alloc, request.subscribe.as_slice())?;
        }
        Ok(())
    }
}
