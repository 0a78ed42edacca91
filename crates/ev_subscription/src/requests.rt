ghost use Rattle.std.specs.Prelude.{◌≡◌, ◌++◌, [], Some, None, IfOk, OnOk};
ghost use Rattle.std.specs.List.{flat_map};
ghost use Rattle.ev_model.specs.Requests.{clusters_request, listeners_request};
ghost use Rattle.ev_subscription.specs.Subscriptions.{InWorlds};
ghost use Rattle.ev_subscription.specs.Asked.{AsksChanges, AsksFirst, AsksMore, AsksWhole, AsksWholes, bare_request, change_request, clusters_request_in};

use crate::changes::{NameChange, WatchedNames};
use crate::subscription::Subscription;
use ev_types::{Kind, Name, Request, Seq, Text, TryCopy};
use std::alloc::{AllocError, Global};

impl Subscription {
    /// What is asked for when a stream opens: all clusters, with the node; the watched names of the kinds before
    /// listeners; all listeners, where they are asked for; the watched names of the kinds behind them. Each request
    /// states the versions that are held. The names are in the order of their bytes.
    pub fn connect(
        &self,
        alloc: Global,
        before: &Seq<WatchedNames>,
        behind: &Seq<WatchedNames>,
        asked: bool,
    ) -> Result<Seq<Request>, AllocError>
        ensures { IfOk result (AsksFirst before.now behind.now asked self.now) }
    {
        let mut requests = Seq::new(alloc);
        requests.push(self.clusters_request(alloc)?)?;
        self.push_wholes(alloc, before.as_slice(), &mut requests)?;
        if asked {
            requests.push(self.listeners_request(alloc)?)?;
        }
        self.push_wholes(alloc, behind.as_slice(), &mut requests)?;
        Ok(requests)
    }

    /// The requests of an event: its reply first, where there is one; then, where a stream is open, the changes of
    /// the watched names of the kinds before listeners, all listeners, where they are asked for, and the changes of
    /// the kinds behind them.
    pub fn requests_after(
        &self,
        alloc: Global,
        reply: Option<Request>,
        before: Seq<NameChange>,
        behind: Seq<NameChange>,
        asked: bool,
    ) -> Result<Seq<Request>, AllocError>
        ensures { IfOk result (AsksChanges before behind asked reply self.now) }
    {
        let mut requests = Seq::new(alloc);
        if let Some(reply) = reply {
            requests.push(reply)?;
        }
        if self.is_open() {
            self.push_asked(
                alloc,
                before.as_slice(),
                behind.as_slice(),
                asked,
                &mut requests,
            )?;
        }
        Ok(requests)
    }

    // These changes of the watched names are asked for, and between them all listeners, where they are asked for.
    fn push_asked(
        &self,
        alloc: Global,
        before: &[NameChange],
        behind: &[NameChange],
        asked: bool,
        requests: &mut Seq<Request>,
    ) -> Result<(), AllocError>
        ensures { OnOk result (AsksMore before.now behind.now asked self.now requests.old requests.new) }
    {
        push_changes(alloc, before, requests)?;
        if asked {
            requests.push(self.listeners_request(alloc)?)?;
        }
        push_changes(alloc, behind, requests)?;
        Ok(())
    }

    // The first request of a stream: all clusters are asked for, and the node is named.
    fn clusters_request(&self, alloc: Global) -> Result<Request, AllocError>
        ensures { IfOk result (λ request. InWorlds self.now (λ world. request ≡ clusters_request_in world)) }
    {
        let versions = self.versions(alloc, Kind::Cds)?;
        let node = self.node().copy(alloc)?;
        Ok(Request {
            node: Some(node),
            ..request_of(alloc, Kind::Cds, versions)
        })
    }

    // All listeners are asked for.
    fn listeners_request(&self, alloc: Global) -> Result<Request, AllocError>
        ensures { IfOk result (λ request. InWorlds self.now (λ world. request ≡ listeners_request world.versions)) }
    {
        Ok(request_of(alloc, Kind::Lds, self.versions(alloc, Kind::Lds)?))
    }

    // All of these names of each kind are asked for, kind after kind.
    fn push_wholes(
        &self,
        alloc: Global,
        watched: &[WatchedNames],
        requests: &mut Seq<Request>,
    ) -> Result<(), AllocError>
        ensures { OnOk result (AsksWholes watched.now self.now requests.old requests.new) }
    {
        for one in watched {
            self.push_whole(alloc, one, requests)?;
        }
        Ok(())
    }

    // All of these names are asked for, where there are some, with the versions that are held.
    fn push_whole(
        &self,
        alloc: Global,
        watched: &WatchedNames,
        requests: &mut Seq<Request>,
    ) -> Result<(), AllocError>
        ensures { OnOk result (AsksWhole watched.now self.now requests.old requests.new) }
    {
        if watched.names.len() == 0 {
            return Ok(());
        }
        let kind = watched.kind;
        let versions = self.versions(alloc, kind)?;
        let subscribe = watched.names.copy(alloc)?;
        requests.push(Request {
            subscribe,
            ..request_of(alloc, kind, versions)
        })
    }
}

// A request that asks for all of a kind, with these versions.
fn request_of(alloc: Global, kind: Kind, versions: Seq<(Name, Text)>) -> Request
    ensures { result ≡ bare_request kind versions }
{
    Request {
        kind,
        node: None,
        subscribe: Seq::new(alloc),
        unsubscribe: Seq::new(alloc),
        versions,
        nonce: None,
        error: None,
    }
}

// The changes of the names of each kind are asked for, kind after kind.
fn push_changes(
    alloc: Global,
    changes: &[NameChange],
    requests: &mut Seq<Request>,
) -> Result<(), AllocError>
    ensures { OnOk result (requests.new ≡ requests.old ++ flat_map change_request changes.now) }
{
    for change in changes {
        push_change(alloc, change, requests)?;
    }
    Ok(())
}

// A change of the names of a kind is asked for, where there is one.
fn push_change(
    alloc: Global,
    change: &NameChange,
    requests: &mut Seq<Request>,
) -> Result<(), AllocError>
    ensures { OnOk result (requests.new ≡ requests.old ++ change_request change.now) }
{
    if change.begun.len() == 0 && change.ended.len() == 0 {
        return Ok(());
    }
    let subscribe = change.begun.copy(alloc)?;
    let unsubscribe = change.ended.copy(alloc)?;
    requests.push(Request {
        kind: change.kind,
        node: None,
        subscribe,
        unsubscribe,
        versions: Seq::new(alloc),
        nonce: None,
        error: None,
    })
}
