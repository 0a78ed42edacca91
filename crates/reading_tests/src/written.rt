use ev_journal::{write_end_line, write_first_line, write_line};
use ev_types::{Actor, Answer, Entry, Event, Format, Kind, Name, Profile, Request, Seq, Text};
use ev_wire::{WireError, body_rule_is_least, read_response, request_value, write_request};
use serde_json::Value;
use std::alloc::{AllocError, Global};
use std::test::Fail;

// The line of a worker that closes a connection.
fn closing_line(alloc: Global) -> Result<Vec<u8>, AllocError> {
    let entry = Entry {
        actor: Actor::Worker(10),
        at: 7,
        step: 1,
        event: Event::Close(3),
        answer: Answer::Done,
    };
    let line = write_line(alloc, &entry);
    drop(entry);
    line
}

// The versions of a first request, out of order.
fn versions(alloc: Global) -> Result<Seq<(Name, Text)>, Fail> {
    let mut versions = Vec::new(alloc);
    versions.push((Name::new(alloc, "z")?, Text::new(alloc, "")?))?;
    versions.push((Name::new(alloc, "B")?, Text::new(alloc, "2")?))?;
    Ok(Seq::from_vec(versions))
}

// A request with these versions and an empty nonce.
fn request(alloc: Global) -> Result<Request, Fail> {
    let nonce = Text::new(alloc, "")?;
    let versions = versions(alloc)?;
    Ok(Request {
        kind: Kind::Lds,
        node: None,
        subscribe: Seq::new(alloc),
        unsubscribe: Seq::new(alloc),
        versions,
        nonce: Some(nonce),
        error: None,
    })
}

const WRITTEN: &str =
    r#"{"initialResourceVersions":{"B":"2","z":""},"typeUrl":"type.googleapis.com/envoy.config.listener.v3.Listener"}"#;

// Whether the text of a request is this, and its tree that of the text.
fn is_written(alloc: Global, request: &Request, want: &str) -> Result<bool, Fail> {
    let text = write_request(alloc, request)?;
    let tree = request_value(alloc, request)?;
    Ok(text.as_slice() == want.as_bytes() && tree == Value::from_str(alloc, want)?)
}

#[test]
fn each_call_writes_its_text(rt: HostRuntime) -> Result<(), Fail> {
    let first = write_first_line(rt.alloc(), Format::One, 16)?;
    assert_eq!(rt;
        first.as_slice(),
        "{\"format\":1,\"workers\":16}\n".as_bytes()
    );
    let line = closing_line(rt.alloc())?;
    assert_eq!(rt;
        line.as_slice(),
        "{\"actor\":\"w10\",\"answer\":\"done\",\"at\":7,\"op\":\"close\",\"step\":1}\n".as_bytes()
    );
    let end = write_end_line(rt.alloc(), 200)?;
    assert_eq!(rt; end.as_slice(), "{\"end\":200}\n".as_bytes());
    let request = request(rt.alloc())?;
    let written = is_written(rt.alloc(), &request, WRITTEN);
    drop(request);
    assert_eq!(rt; written?, true);
    body_rule_is_least();
    assert_eq!(rt;
        read_response(rt.alloc(), Profile::Envoy, &Value::Null).err(),
        Some(WireError::NotResponse)
    );
    Ok(())
}
