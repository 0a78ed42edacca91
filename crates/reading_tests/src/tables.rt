use crate::clusters::{
    AN_ASSIGNMENT, ASSIGNMENTS, CLUSTERS, CLUSTERS_OF_CONTROL_PLANES, ENVOY_ASSIGNMENTS,
    ENVOY_CLUSTERS, tell_assignment, tell_cluster,
};
use crate::fields::{
    ADDRESSES, BODIES, DURATIONS, ENVOY_ADDRESSES, ENVOY_SOURCES, NUMBERS, OWN_BODIES, SOURCES,
    tell_address, tell_body, tell_duration, tell_number, tell_source,
};
use crate::listeners::{
    ENVOY_LISTENERS, ENVOY_MANAGERS, LISTENERS, MANAGERS, WHOLE_LISTENERS, tell_listener,
    tell_manager, tell_members,
};
use crate::messages::{ENVOY_MESSAGES, MESSAGES, ONE_REFUSED_OF_TWO, tell_message};
use crate::routes::{
    BOOKSHOP, ENVOY_ROUTES, ENVOY_TARGETS, ROUTE_TABLES, ROUTES, TARGETS, tell_route, tell_routes,
    tell_target,
};
use ev_types::Profile;
use serde_json::Value;
use std::alloc::{AllocError, Global};
use std::process::Abort;
use std::test::Fail;

// What the bodies of a table are read as.
#[derive(Clone, Copy)]
enum Reader {
    Number,
    Duration,
    Address,
    Source,
    Body,
    Cluster,
    Assignment,
    Routes,
    Route,
    Target,
    Listener,
    ListenerMembers,
    Manager,
    Message,
}

// The tables by the own rules, each with what its bodies are read as and how many rows it has.
// A row is a text and a body.
const TABLES: [(Reader, usize, &str); 18] = [
    (Reader::Number, 22, NUMBERS),
    (Reader::Duration, 22, DURATIONS),
    (Reader::Address, 9, ADDRESSES),
    (Reader::Source, 10, SOURCES),
    (Reader::Body, 1, OWN_BODIES),
    (Reader::Cluster, 29, CLUSTERS),
    (Reader::Cluster, 2, CLUSTERS_OF_CONTROL_PLANES),
    (Reader::Assignment, 15, ASSIGNMENTS),
    (Reader::Assignment, 1, AN_ASSIGNMENT),
    (Reader::Routes, 28, ROUTE_TABLES),
    (Reader::Routes, 1, BOOKSHOP),
    (Reader::Route, 50, ROUTES),
    (Reader::Target, 25, TARGETS),
    (Reader::ListenerMembers, 42, LISTENERS),
    (Reader::Manager, 29, MANAGERS),
    (Reader::Listener, 4, WHOLE_LISTENERS),
    (Reader::Message, 48, MESSAGES),
    (Reader::Message, 1, ONE_REFUSED_OF_TWO),
];

// The same as Envoy reads them.
const ENVOY_TABLES: [(Reader, usize, &str); 10] = [
    (Reader::Address, 11, ENVOY_ADDRESSES),
    (Reader::Source, 9, ENVOY_SOURCES),
    (Reader::Body, 2, BODIES),
    (Reader::Cluster, 24, ENVOY_CLUSTERS),
    (Reader::Assignment, 3, ENVOY_ASSIGNMENTS),
    (Reader::Route, 46, ENVOY_ROUTES),
    (Reader::Target, 9, ENVOY_TARGETS),
    (Reader::ListenerMembers, 33, ENVOY_LISTENERS),
    (Reader::Manager, 6, ENVOY_MANAGERS),
    (Reader::Message, 6, ENVOY_MESSAGES),
];

#[test]
fn each_body_reads_as_its_row_tells(rt: HostRuntime) -> Result<(), Fail> {
    for (reader, count, table) in TABLES {
        assert_told(&rt, rt.alloc(), (reader, Profile::Own), table, count)?;
    }
    for (reader, count, table) in ENVOY_TABLES {
        assert_told(&rt, rt.alloc(), (reader, Profile::Envoy), table, count)?;
    }
    Ok(())
}

// How the bodies of a table are read.
type Reading = (Reader, Profile);

// What a body reads as, in words.
fn tell(alloc: Global, reading: Reading, body: &Value) -> Result<String, Fail> {
    let (reader, profile) = reading;
    match reader {
        Reader::Number => tell_number(alloc, body),
        Reader::Duration => tell_duration(alloc, body),
        Reader::Address => tell_address(alloc, profile, body),
        Reader::Source => tell_source(alloc, profile, body),
        Reader::Body => tell_body(alloc, profile, body),
        Reader::Cluster => tell_cluster(alloc, profile, body),
        Reader::Assignment => tell_assignment(alloc, profile, body),
        Reader::Routes => tell_routes(alloc, profile, body),
        Reader::Route => tell_route(alloc, profile, body),
        Reader::Target => tell_target(alloc, profile, body),
        Reader::Listener => tell_listener(alloc, profile, body),
        Reader::ListenerMembers => tell_members(alloc, profile, body),
        Reader::Manager => tell_manager(alloc, profile, body),
        Reader::Message => tell_message(alloc, profile, body),
    }
}

// The text of a table, with its abbreviations written out:
// `~` represents `type.googleapis.com/envoy.config.`, `^` for a text of 512 bytes, and `%` for the endpoint of a host.
fn write_out(alloc: Global, table: &str) -> Result<String, AllocError> {
    let long = "n".repeat(alloc, 512)?;
    let text = table.replace(alloc, "~", "type.googleapis.com/envoy.config.")?;
    let text = text.as_str().replace(alloc, "^", long.as_str())?;
    text.as_str().replace(
        alloc,
        "%",
        r#""endpoint":{"address":{"socketAddress":{"address":"a","portValue":1}}}"#,
    )
}

// Asserts that a table has this many rows, and that the body of each reads as its text says.
fn assert_told(
    rt: &impl Abort,
    alloc: Global,
    reading: Reading,
    table: &str,
    count: usize,
) -> Result<(), Fail> {
    let text = write_out(alloc, table)?;
    let table = Value::from_str(alloc, text.as_str())?;
    let walked = walk(rt, alloc, reading, &table, count);
    drop(table);
    walked
}

// The same of a table as a tree.
fn walk(
    rt: &impl Abort,
    alloc: Global,
    reading: Reading,
    table: &Value,
    count: usize,
) -> Result<(), Fail> {
    let rows = table.as_array().ok_or("a table")?;
    assert_eq!(rt; rows.len(), count);
    for row in rows {
        assert_row(rt, alloc, reading, row)?;
    }
    Ok(())
}

// Asserts that the body of a row reads as its text says.
fn assert_row(rt: &impl Abort, alloc: Global, reading: Reading, row: &Value) -> Result<(), Fail> {
    let row = row.as_array().ok_or("a row")?;
    let want = row.first().ok_or("a text")?.as_str().ok_or("a text")?;
    let body = row.get(1).ok_or("a body")?;
    let got = tell(alloc, reading, body)?;
    assert_eq!(rt; got.as_str(), want, "{body}");
    Ok(())
}
