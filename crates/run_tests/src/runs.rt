use crate::paces::{Hold, Holds, Step};
use ev_actors::Journaled;
use ev_io::{Lines, MemSource};
use ev_keys::Keys;
use ev_registry::Registry;
use ev_run::{Pace, run};
use ev_script::read_script;
use ev_types::{Actor, Answer, Format, Script};
use std::alloc::Global;
use std::mem::drop;
use std::sync::Wait;
use std::test::Fail;
use std::thread::Threads;

// A stream that opens and is lost, and a worker that accepts a connection.
const STREAM_AND_WORKER: &str = r#"{"workers":1}
{"op":"connect"}
{"op":"disconnect"}
{"op":"accept","worker":0,"conn":1,"address":"10.1.0.1","port":8080}
{"op":"settle","worker":0}
"#;

// A cluster and a listener that a worker serves a connection from.
const SERVED: &str = r#"{"workers":1}
{"op":"connect"}
{"op":"response","message":{"typeUrl":"type.googleapis.com/envoy.config.cluster.v3.Cluster","nonce":"1","resources":[{"name":"c","version":"v1","resource":{"@type":"type.googleapis.com/envoy.config.cluster.v3.Cluster","name":"c","type":"STATIC","loadAssignment":{"clusterName":"c","endpoints":[{"lbEndpoints":[{"endpoint":{"address":{"socketAddress":{"address":"10.0.0.1","portValue":80}}}}]}]}}}]}}
{"op":"response","message":{"typeUrl":"type.googleapis.com/envoy.config.listener.v3.Listener","nonce":"2","resources":[{"name":"in","version":"v1","resource":{"@type":"type.googleapis.com/envoy.config.listener.v3.Listener","name":"in","address":{"socketAddress":{"address":"10.1.0.1","portValue":8080}},"filterChains":[{"filters":[{"typedConfig":{"@type":"type.googleapis.com/envoy.extensions.filters.network.tcp_proxy.v3.TcpProxy","cluster":"c"}}]}]}}]}}
{"op":"disconnect"}
{"op":"publish"}
{"op":"reap"}
{"op":"settle","worker":0}
{"op":"accept","worker":0,"conn":1,"address":"10.1.0.1","port":8080}
{"op":"settle","worker":0}
"#;

// A cluster that is published, and a worker that has nothing to do but settle.
pub(crate) const PUBLISHED: &str = r#"{"workers":1}
{"op":"connect"}
{"op":"response","message":{"typeUrl":"type.googleapis.com/envoy.config.cluster.v3.Cluster","nonce":"1","resources":[{"name":"c","version":"v1","resource":{"@type":"type.googleapis.com/envoy.config.cluster.v3.Cluster","name":"c","type":"STATIC","loadAssignment":{"clusterName":"c","endpoints":[{"lbEndpoints":[{"endpoint":{"address":{"socketAddress":{"address":"10.0.0.1","portValue":80}}}}]}]}}}]}}
{"op":"disconnect"}
{"op":"publish"}
{"op":"reap"}
{"op":"settle","worker":0}
"#;

const STREAM: Actor = Actor::Stream;

const MAIN: Actor = Actor::Main;

const WORKER: Actor = Actor::Worker(0);

pub(crate) fn read(alloc: Global, text: &str) -> Result<Script, Fail> {
    let mut lines = Lines::new(alloc)?;
    let text = text.as_bytes().to_vec(alloc)?;
    let mut source = MemSource::new(text, 65_536, Vec::new(alloc));
    let read = read_script(alloc, &mut lines, &mut source);
    drop(source);
    drop(lines);
    read.map_err(|_| Fail::new("no script"))
}

// The registry after a run at this pace.
fn run_at<R: Threads + Wait + Sync, P: Pace + Sync>(
    rt: &R,
    alloc: Global,
    text: &str,
    pace: &P,
) -> Result<Registry, Fail> {
    let script = read(alloc, text)?;
    let keys = Keys::of(&[script.count]);
    let begun = Registry::new(alloc, keys, script.workers, &script.node, Format::Two)?;
    let ran = run(rt, alloc, keys, &script, pace, begun);
    drop(script);
    Ok(ran?)
}

// The lines of the first two entries of a run at this pace.
fn first_two<R: Threads + Wait + Sync, P: Pace + Sync>(
    rt: &R,
    alloc: Global,
    text: &str,
    pace: &P,
) -> Result<(u32, u32), Fail> {
    let registry = run_at(rt, alloc, text, pace)?;
    let lines = match registry.journal() {
        [first, second, ..] => (first.at, second.at),
        _ => (0, 0),
    };
    drop(registry);
    Ok(lines)
}

// How many settles a run at this pace has, and the version of the last of them.
fn settles<R: Threads + Wait + Sync, P: Pace + Sync>(
    rt: &R,
    alloc: Global,
    text: &str,
    pace: &P,
) -> Result<(u64, u64), Fail> {
    let registry = run_at(rt, alloc, text, pace)?;
    let mut count = 0u64;
    let mut last = 0u64;
    for entry in registry.journal() {
        if let Answer::Settled { version, .. } = entry.answer {
            count = count.saturating_add(1);
            last = version;
        }
    }
    drop(registry);
    Ok((count, last))
}

// One step is held up until another.
fn hold(held: (Actor, u32), until: (Actor, u32)) -> Hold {
    let (actor, at) = held;
    let held = Step { actor, at };
    let (actor, at) = until;
    Hold::new(held, Step { actor, at })
}

#[test]
fn the_stream_waits_for_a_worker(rt: HostRuntime) -> Result<(), Fail> {
    let pace = Holds::new(
        hold((STREAM, 2), (WORKER, 6)),
        hold((STREAM, 2), (WORKER, 6)),
    );
    let lines = first_two(&rt, rt.alloc(), STREAM_AND_WORKER, &pace)?;
    assert_eq!(rt; (lines, pace.gave_up()), ((4, 5), false));
    Ok(())
}

#[test]
fn a_worker_waits_for_the_stream(rt: HostRuntime) -> Result<(), Fail> {
    let pace = Holds::new(
        hold((WORKER, 5), (STREAM, 3)),
        hold((WORKER, 5), (STREAM, 3)),
    );
    let (first, _) = first_two(&rt, rt.alloc(), STREAM_AND_WORKER, &pace)?;
    assert_eq!(rt; (first, pace.gave_up()), (2, false));
    Ok(())
}

#[test]
fn a_batch_is_made_before_its_turn(rt: HostRuntime) -> Result<(), Fail> {
    let pace = Holds::new(hold((MAIN, 6), (STREAM, 5)), hold((WORKER, 8), (MAIN, 7)));
    let _ = first_two(&rt, rt.alloc(), SERVED, &pace)?;
    assert_eq!(rt; (pace.served(), pace.gave_up()), (true, false));
    Ok(())
}

#[test]
fn an_idle_worker_settles_behind_a_publication(rt: HostRuntime) -> Result<(), Fail> {
    let pace = Holds::new(hold((MAIN, 5), (STREAM, 4)), hold((WORKER, 7), (MAIN, 6)));
    let settled = settles(&rt, rt.alloc(), PUBLISHED, &pace)?;
    assert_eq!(rt; (settled, pace.gave_up()), ((1, 1), false));
    Ok(())
}
