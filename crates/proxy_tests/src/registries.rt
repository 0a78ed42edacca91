ghost use Rattle.std.specs.Prelude.{◌≡◌, IsTrue};
ghost use Rattle.ev_types.specs.Scripts.{items_in};
ghost use Rattle.ev_actors.specs.Journals.{world_now};

use ev_actors::Journaled;
use ev_journal::render_journal;
use ev_keys::Keys;
use ev_model_laws::{acknowledges_exactly, has_a_replay, has_one_replay, replay_holds_operations};
use ev_registry::Registry;
use ev_types::{Actor, Event, Format, Profile, Response, Shared, Text};
use ev_wire::read_response;
use serde_json::Value;
use std::alloc::Global;
use std::mem::drop;
use std::test::Fail;

fn read(alloc: Global, message: &str) -> Result<Response, Fail> {
    let tree = Value::from_str(alloc, message)?;
    Ok(read_response(alloc, Profile::Own, &tree)?)
}

const TWO_CLUSTERS: &str =
    "{\"typeUrl\":\"type.googleapis.com/envoy.config.cluster.v3.Cluster\",\"nonce\":\"1\",\"resources\":[{\"name\":\"c\",\"version\":\"v1\",\"resource\":{\"@type\":\"type.googleapis.com/envoy.config.cluster.v3.Cluster\",\"name\":\"c\",\"type\":\"EDS\",\"edsClusterConfig\":{\"serviceName\":\"s\",\"edsConfig\":{\"ads\":{}}}}},{\"name\":\"d\",\"version\":\"v1\",\"resource\":{\"@type\":\"type.googleapis.com/envoy.config.cluster.v3.Cluster\",\"name\":\"d\",\"type\":\"EDS\",\"edsClusterConfig\":{\"edsConfig\":{\"ads\":{}}}}}]}";

// The lines of a journal: the first, that of a connect, and that of the response with two new clusters.
const BEGUN: &str = "{\"format\":2,\"workers\":1}\n";

const CONNECTED: &str =
    "{\"actor\":\"stream\",\"answer\":{\"requests\":[{\"node\":{\"id\":\"n\"},\"typeUrl\":\"type.googleapis.com/envoy.config.cluster.v3.Cluster\"}]},\"at\":2,\"op\":\"connect\",\"step\":0}\n";

const MADE: &str =
    "{\"actor\":\"stream\",\"answer\":{\"requests\":[{\"responseNonce\":\"1\",\"typeUrl\":\"type.googleapis.com/envoy.config.cluster.v3.Cluster\"},{\"resourceNamesSubscribe\":[\"d\",\"s\"],\"typeUrl\":\"type.googleapis.com/envoy.config.endpoint.v3.ClusterLoadAssignment\"}],\"verdicts\":[\"new\",\"new\"]},\"at\":3,\"op\":\"response\",\"step\":0}\n";

// Whether the registry's journal is of these lines.
fn has_lines(alloc: Global, registry: &Registry, lines: &[&str]) -> Result<bool, Fail> {
    let text = render_journal(alloc, Format::Two, 1, registry.journal())?;
    let mut want = String::new(alloc);
    for line in lines {
        want.push_str(line)?;
    }
    want.push_str(format!(in alloc; "{{\"end\":{}}}\n", registry.journal().len())?.as_str())?;
    Ok(text.as_slice() == want.as_bytes())
}

// Whether a registry in which nothing was done takes this response of two clusters.
// Where it has no memory for it the first time, the journal has to be as before, and it has to take it the second time,
// with the first picture as the last one still, and with no row that was reaped.
fn takes_two_clusters(alloc: Global, registry: &mut Registry, event: &Event) -> Result<bool, Fail>
    requires opened { (world_now registry.old.journaled).made ≡ 0 }
{
    if !is_of_two(event) {
        return Ok(false);
    }
    registry.apply(Actor::Stream, 2, 0, &Event::Connect)?;
    if registry.apply(Actor::Stream, 3, 0, event).is_err() {
        if !has_lines(alloc, registry, &[BEGUN, CONNECTED])? {
            return Ok(false);
        }
        registry.apply(Actor::Stream, 3, 0, event)?;
    }
    let entered = has_lines(alloc, registry, &[BEGUN, CONNECTED, MADE])?;
    let reaped = registry.take_deferred().len();
    Ok(entered && reaped == 0 && registry.snapshot()?.version() == 0)
}

// Whether the event is a response of two resources.
fn is_of_two(event: &Event) -> bool
    ensures { IsTrue result → items_in event.now ≡ 2 }
{
    match event {
        Event::Response(response) => response.get().items.len() == 2,
        _ => false,
    }
}

// `rt try --test --fail-alloc N` refuses an allocation of the response. What is large is dropped by hand:
// each way on which it goes by itself costs the proof of all that it has.
#[test]
fn a_registry_enters_what_it_does(rt: HostRuntime) -> Result<(), Fail> {
    has_a_replay();
    has_one_replay();
    replay_holds_operations();
    acknowledges_exactly();
    let alloc = rt.alloc();
    let node = Text::new(alloc, "n")?;
    let event = Event::Response(Shared::new(alloc, read(alloc, TWO_CLUSTERS)?)?);
    let taken = enters(alloc, &node, &event);
    drop(event);
    assert!(rt; taken?);
    Ok(())
}

// Whether a new registry takes the response.
fn enters(alloc: Global, node: &Text, event: &Event) -> Result<bool, Fail> {
    let mut registry = Registry::new(alloc, Keys::of(&[1u32]), 1, node, Format::Two)?;
    let taken = takes_two_clusters(alloc, &mut registry, event);
    drop(registry);
    taken
}
