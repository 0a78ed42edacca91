//! A worker is idle until its first line.
use ev_keys::Keys;
use ev_snapshot::Snapshot;
use ev_types::{Ask, Host, Name, Seq, Shared, Text};
use ev_worker::Worker;
use std::alloc::Global;
use std::hash::DefaultHasher;
use std::mem::drop;
use std::test::Fail;

// A connection that comes to a worker whose batch has room.
fn accept(alloc: Global, worker: &mut Worker) -> Result<(), Fail> {
    let address = Name::new(alloc, "10.1.0.1")?;
    let path = Text::new(alloc, "/")?;
    let host = Text::new(alloc, "")?;
    let server_name = Text::new(alloc, "")?;
    if worker.room() == 0 {
        return Err(Fail::new("full"));
    }
    let ask = Ask {
        conn: 1,
        address: Host { address, port: 80 },
        ip: None,
        source: None,
        redirected_to: None,
        server_name,
        tls: false,
        alpn: Seq::new(alloc),
        host,
        path,
        headers: Seq::new(alloc),
        pick: 0,
    };
    worker.accept(2, Shared::new(alloc, ask)?);
    Ok(())
}

// Whether it is idle before a connection comes, and whether after it.
fn is_idle(alloc: Global, worker: &mut Worker) -> Result<(bool, bool), Fail> {
    let before = worker.idle();
    accept(alloc, worker)?;
    Ok((before, worker.idle()))
}

#[test]
fn a_worker_is_idle_until_its_first_line(rt: HostRuntime) -> Result<(), Fail> {
    let keys = Keys::after(DefaultHasher::new());
    let nothing = Snapshot::empty(rt.alloc(), keys)?;
    let mut worker = Worker::new(rt.alloc(), keys, 0, nothing)?;
    let idle = is_idle(rt.alloc(), &mut worker);
    drop(worker);
    assert_eq!(rt; idle?, (true, false));
    Ok(())
}
