ghost use Rattle.std.specs.Prelude.{◌≡◌, map, All, Some, IfOk, IfSome, OnOk, codes, string_bytes};
ghost use Rattle.json.specs.Print.{escape};
ghost use Rattle.serde_json.specs.Data.{array, string};
ghost use Rattle.serde_json.specs.Written.{compact_text};
ghost use Rattle.serde_json.specs.View.{view, items_of};
ghost use Rattle.ev_journal.specs.Pieces.{given_text};
ghost use Rattle.ev_journal.specs.Rendering.{number_tree, numbers_tree, requests_tree, any_of, place_tree, going_tree, local_tree, served_tree, taken_tree, settled_tree, answer_tree, verdict_tree};
ghost use Rattle.ev_types.specs.Texts.{IsName};
ghost use Rattle.ev_journal.specs.Rows.{AreConnections, IsAnswer, IsGeneration, IsHost, IsPlace, IsRequest, IsVerdict, IsWay, KeepsRule};

use crate::words::verdict_word;
use ev_types::{Answer, ChainPlace, Gen, Host, Name, Request, Text, Verdict, Way};
use ev_wire::request_value;
use serde_json::{Value, json};
use std::alloc::{AllocError, Global};

/// The text of an answer. What is in it is written at once, but for lists and an address,
/// which are written by their trees.
#[tactic(auto, unfolding(json::specs::Print::escape_byte))]
pub(crate) fn answer_text(alloc: Global, answer: &Answer) -> Result<String, AllocError>
    ensures text { IfOk result (λ text. string_bytes text ≡ compact_text (answer_tree answer.now)) }
    ensures bounded { OnOk result (IsAnswer answer.now) }
{
    match answer {
        Answer::Ignored => String::from_str(alloc, "\"ignored\""),
        Answer::Done => String::from_str(alloc, "\"done\""),
        Answer::Moved { requests } => moved_text(alloc, requests.as_slice()),
        Answer::Replied { requests, verdicts } => {
            replied_text(alloc, requests.as_slice(), verdicts.as_slice())
        }
        Answer::Version(version) => version_text(alloc, *version),
        Answer::Unchanged => String::from_str(alloc, "\"unchanged\""),
        Answer::Reaped(numbers) => reaped_text(alloc, numbers.as_slice()),
        Answer::InUse => String::from_str(alloc, "\"inUse\""),
        Answer::NoListener => String::from_str(alloc, "\"noListener\""),
        Answer::NoChain => String::from_str(alloc, "\"noChain\""),
        Answer::On {
            listener,
            chain,
            way,
        } => taken_text(alloc, *listener, *chain, way),
        Answer::NotOpen => String::from_str(alloc, "\"notOpen\""),
        Answer::Settled {
            closed,
            moved,
            version,
        } => settled_text(alloc, closed.as_slice(), moved.as_slice(), *version),
    }
}

// The text of an answer with requests.
fn moved_text(alloc: Global, requests: &[Request]) -> Result<String, AllocError>
    ensures text { IfOk result (λ text. string_bytes text ≡ compact_text (answer_tree (Answer.Moved requests.now))) }
    ensures bounded { OnOk result (IsAnswer (Answer.Moved requests.now)) }
{
    look_at_requests(requests);
    let requests = requests_text(alloc, requests)?;
    format!(in alloc; "{{\"requests\":{requests}}}")
}

// The text of an answer to a response.
fn replied_text(
    alloc: Global,
    requests: &[Request],
    verdicts: &[Verdict],
) -> Result<String, AllocError>
    ensures text { IfOk result (λ text. string_bytes text
        ≡ compact_text (answer_tree (Answer.Replied requests.now verdicts.now))) }
    ensures bounded { OnOk result (IsAnswer (Answer.Replied requests.now verdicts.now)) }
{
    look_at_requests(requests);
    look_at_verdicts(verdicts);
    let requests = requests_text(alloc, requests)?;
    let verdicts = verdicts_text(alloc, verdicts)?;
    format!(in alloc; "{{\"requests\":{requests},\"verdicts\":{verdicts}}}")
}

// The text of an answer to a publication.
fn version_text(alloc: Global, version: u64) -> Result<String, AllocError>
    ensures text { IfOk result (λ text. string_bytes text ≡ compact_text (answer_tree (Answer.Version version))) }
{
    format!(in alloc; "{{\"version\":{version}}}")
}

// The text of an answer to a reaping.
fn reaped_text(alloc: Global, numbers: &[Gen]) -> Result<String, AllocError>
    ensures text { IfOk result (λ text. string_bytes text ≡ compact_text (answer_tree (Answer.Reaped numbers.now))) }
    ensures bounded { OnOk result (All IsGeneration numbers.now) }
{
    look_at_generations(numbers);
    let numbers = generations_text(alloc, numbers)?;
    format!(in alloc; "{{\"reaped\":{numbers}}}")
}

// The text of a connection that a listener takes.
#[tactic(auto, unfolding(json::specs::Print::escape_byte))]
fn taken_text(
    alloc: Global,
    listener: Gen,
    chain: Option<ChainPlace>,
    way: &Way<Host>,
) -> Result<String, AllocError>
    ensures text { IfOk result (λ text. string_bytes text ≡ compact_text (taken_tree listener chain way.now)) }
    ensures bounded_listener { OnOk result (IsGeneration listener) }
    ensures bounded_chain { OnOk result (IfSome chain IsPlace) }
    ensures bounded_way { OnOk result (IsWay way.now) }
{
    match way {
        Way::Undecided => going_text(alloc, "undecided", listener, chain, None),
        Way::Elsewhere { cluster } => going_text(alloc, "elsewhere", listener, chain, *cluster),
        Way::NoRoute => going_text(alloc, "noRoute", listener, chain, None),
        Way::Redirect => going_text(alloc, "redirect", listener, chain, None),
        Way::NoCluster => going_text(alloc, "noCluster", listener, chain, None),
        Way::NoEndpoint => going_text(alloc, "noEndpoint", listener, chain, None),
        Way::NoSecret { cluster } => going_text(alloc, "noSecret", listener, chain, *cluster),
        Way::Local { status } => local_text(alloc, listener, chain, *status),
        Way::Served { cluster, host } => served_text(alloc, listener, chain, *cluster, host),
    }
}

// What becomes of a connection that a listener takes, in a word without an escape.
fn going_text(
    alloc: Global,
    word: &str,
    listener: Gen,
    chain: Option<ChainPlace>,
    cluster: Option<Gen>,
) -> Result<String, AllocError>
    requires plain { escape word.now ≡ word.now }
    ensures text { IfOk result (λ text. string_bytes text ≡ compact_text (going_tree word.now listener chain cluster)) }
    ensures bounded_listener { OnOk result (IsGeneration listener) }
    ensures bounded_chain { OnOk result (IfSome chain IsPlace) }
    ensures bounded_cluster { OnOk result (IfSome cluster IsGeneration) }
{
    let chain = chain_member(alloc, chain)?;
    let cluster = cluster_member(alloc, cluster)?;
    let listener = listener.number();
    format!(in alloc; "{{{chain}{cluster}\"listener\":{listener},\"result\":\"{word}\"}}")
}

// The text of a connection that is answered at once.
fn local_text(
    alloc: Global,
    listener: Gen,
    chain: Option<ChainPlace>,
    status: u16,
) -> Result<String, AllocError>
    ensures text { IfOk result (λ text. string_bytes text ≡ compact_text (local_tree listener chain status)) }
    ensures bounded_listener { OnOk result (IsGeneration listener) }
    ensures bounded_chain { OnOk result (IfSome chain IsPlace) }
{
    let chain = chain_member(alloc, chain)?;
    let listener = listener.number();
    format!(in alloc; "{{{chain}\"listener\":{listener},\"result\":\"local\",\"status\":{status}}}")
}

// The text of a connection that goes to a host.
fn served_text(
    alloc: Global,
    listener: Gen,
    chain: Option<ChainPlace>,
    cluster: Gen,
    host: &Host,
) -> Result<String, AllocError>
    ensures text { IfOk result (λ text. string_bytes text
        ≡ compact_text (served_tree listener chain cluster host.now)) }
    ensures bounded_listener { OnOk result (IsGeneration listener) }
    ensures bounded_chain { OnOk result (IfSome chain IsPlace) }
    ensures bounded_cluster { OnOk result (IsGeneration cluster) }
    ensures bounded_host { OnOk result (IsHost host.now) }
{
    let address = quoted(alloc, host.address.as_str())?;
    let chain = chain_member(alloc, chain)?;
    let cluster = cluster.number();
    let listener = listener.number();
    let port = host.port;
    format!(in alloc;
        "{{\"address\":{address},{chain}\"cluster\":{cluster},\"listener\":{listener},\"port\":{port},\"result\":\"served\"}}"
    )
}

// The member for a chain with the comma behind it, or nothing where none was found.
fn chain_member(alloc: Global, chain: Option<ChainPlace>) -> Result<String, AllocError>
    ensures text { IfOk result (λ text. string_bytes text ≡ given_text (codes "chain") place_tree chain) }
    ensures bounded { OnOk result (IfSome chain IsPlace) }
{
    match chain {
        Some(place) => place_member(alloc, place),
        None => Ok(String::new(alloc)),
    }
}

// The member for a chain, with the comma behind it.
#[tactic(auto, unfolding(json::specs::Print::escape_byte))]
fn place_member(alloc: Global, place: ChainPlace) -> Result<String, AllocError>
    ensures text { IfOk result (λ text. string_bytes text ≡ given_text (codes "chain") place_tree (Some place)) }
    ensures bounded { OnOk result (IsPlace place) }
{
    match place {
        ChainPlace::At(place) => format!(in alloc; "\"chain\":{place},"),
        ChainPlace::Default => String::from_str(alloc, "\"chain\":\"default\","),
    }
}

// The member for a cluster with the comma behind it, or nothing where none is named.
#[tactic(auto, unfolding(json::specs::Print::escape_byte))]
fn cluster_member(alloc: Global, cluster: Option<Gen>) -> Result<String, AllocError>
    ensures text { IfOk result (λ text. string_bytes text ≡ given_text (codes "cluster") number_tree cluster) }
    ensures bounded { OnOk result (IfSome cluster IsGeneration) }
{
    match cluster {
        Some(cluster) => {
            let cluster = cluster.number();
            format!(in alloc; "\"cluster\":{cluster},")
        }
        None => Ok(String::new(alloc)),
    }
}

// A text as JSON has it.
fn quoted(alloc: Global, text: &str) -> Result<String, AllocError>
    ensures { IfOk result (λ written. string_bytes written ≡ compact_text (string text.now)) }
{
    json!(in alloc; text)?.to_string(alloc)
}

// The text of an answer to a settle.
fn settled_text(
    alloc: Global,
    closed: &[u64],
    moved: &[u64],
    version: u64,
) -> Result<String, AllocError>
    ensures text { IfOk result (λ text. string_bytes text ≡ compact_text (settled_tree closed.now moved.now version)) }
    ensures bounded_closed { OnOk result (AreConnections closed.now) }
    ensures bounded_moved { OnOk result (AreConnections moved.now) }
{
    let closed = numbers_text(alloc, closed)?;
    let moved = moved_member(alloc, moved)?;
    format!(in alloc; "{{\"closed\":{closed},{moved}\"version\":{version}}}")
}

// The member for connections that moved with the comma behind it, or nothing where none did.
#[tactic(auto, unfolding(json::specs::Print::escape_byte))]
fn moved_member(alloc: Global, moved: &[u64]) -> Result<String, AllocError>
    ensures text { IfOk result (λ text. string_bytes text
        ≡ given_text (codes "moved") numbers_tree (any_of moved.now)) }
    ensures bounded { OnOk result (AreConnections moved.now) }
{
    if moved.len() == 0 {
        return Ok(String::new(alloc));
    }
    let moved = numbers_text(alloc, moved)?;
    format!(in alloc; "\"moved\":{moved},")
}

// The text of requests.
#[tactic(auto, using(crate::proofs::FloatLemmas::requests_whole))]
fn requests_text(alloc: Global, requests: &[Request]) -> Result<String, AllocError>
    ensures { IfOk result (λ text. string_bytes text ≡ compact_text (requests_tree requests.now)) }
{
    request_values(alloc, requests)?.to_string(alloc)
}

// The text of verdicts.
#[tactic(auto, using(crate::proofs::FloatLemmas::verdicts_whole))]
fn verdicts_text(alloc: Global, verdicts: &[Verdict]) -> Result<String, AllocError>
    ensures { IfOk result (λ text. string_bytes text ≡ compact_text (array (items_of (map verdict_tree verdicts.now)))) }
{
    verdict_values(alloc, verdicts)?.to_string(alloc)
}

// The text of generations' numbers.
#[tactic(auto, using(crate::proofs::FloatLemmas::numbers_whole))]
fn generations_text(alloc: Global, numbers: &[Gen]) -> Result<String, AllocError>
    ensures { IfOk result (λ text. string_bytes text ≡ compact_text (numbers_tree numbers.now)) }
{
    generation_values(alloc, numbers)?.to_string(alloc)
}

// The text of connections' numbers.
#[tactic(auto, using(crate::proofs::FloatLemmas::numbers_whole))]
fn numbers_text(alloc: Global, numbers: &[u64]) -> Result<String, AllocError>
    ensures text { IfOk result (λ text. string_bytes text ≡ compact_text (numbers_tree numbers.now)) }
    ensures bounded { OnOk result (AreConnections numbers.now) }
{
    number_values(alloc, numbers)?.to_string(alloc)
}

// The trees of requests.
fn request_values(alloc: Global, requests: &[Request]) -> Result<Value, AllocError>
    ensures { IfOk result (λ v. view v ≡ requests_tree requests.now) }
{
    let mut values = Vec::with_capacity(alloc, requests.len())?;
    for request in requests {
        values.push(request_value(alloc, request)?)?;
    }
    Ok(Value::Array(values))
}

// What requests keep, which only reading them shows.
fn look_at_requests(requests: &[Request])
    ensures { All IsRequest requests.now }
{
    for request in requests {
        look_at_request(request);
    }
}

// What the names of a request keep.
fn look_at_request(request: &Request)
    ensures { IsRequest request.now }
{
    look_at_names(request.subscribe.as_slice());
    look_at_names(request.unsubscribe.as_slice());
    look_at_versions(request.versions.as_slice());
}

// What names keep.
fn look_at_names(names: &[Name])
    ensures { All IsName names.now }
{
    for name in names {
        let _ = name.as_str();
    }
}

// What the names of versions keep.
fn look_at_versions(versions: &[(Name, Text)])
    ensures { All (λ version. IsName version.0) versions.now }
{
    for (name, _) in versions {
        let _ = name.as_str();
    }
}

// What the numbers of generations keep.
fn look_at_generations(numbers: &[Gen])
    ensures { All IsGeneration numbers.now }
{
    for number in numbers {
        look_at_generation(*number);
    }
}

// What the number of a generation keeps.
fn look_at_generation(number: Gen)
    ensures { IsGeneration number }
{
    let _ = number.number();
}

// What verdicts keep.
fn look_at_verdicts(verdicts: &[Verdict])
    ensures { All IsVerdict verdicts.now }
{
    for verdict in verdicts {
        look_at_verdict(*verdict);
    }
}

// What a verdict keeps.
fn look_at_verdict(verdict: Verdict)
    ensures { KeepsRule verdict }
{
    if let Verdict::Refused(rule) = verdict {
        let _ = rule;
    }
}

// The trees of connections' numbers.
fn number_values(alloc: Global, numbers: &[u64]) -> Result<Value, AllocError>
    ensures tree { IfOk result (λ v. view v ≡ numbers_tree numbers.now) }
    ensures bounded { OnOk result (AreConnections numbers.now) }
{
    let mut values = Vec::with_capacity(alloc, numbers.len())?;
    for number in numbers {
        values.push(Value::from(*number))?;
    }
    Ok(Value::Array(values))
}

// The trees of generations' numbers.
fn generation_values(alloc: Global, numbers: &[Gen]) -> Result<Value, AllocError>
    ensures { IfOk result (λ v. view v ≡ numbers_tree numbers.now) }
{
    let mut values = Vec::with_capacity(alloc, numbers.len())?;
    for number in numbers {
        values.push(Value::from(number.number()))?;
    }
    Ok(Value::Array(values))
}

// The trees of verdicts.
fn verdict_values(alloc: Global, verdicts: &[Verdict]) -> Result<Value, AllocError>
    ensures { IfOk result (λ v. view v ≡ array (items_of (map verdict_tree verdicts.now))) }
{
    let mut values = Vec::with_capacity(alloc, verdicts.len())?;
    for verdict in verdicts {
        values.push(Value::String(verdict_word(alloc, *verdict)?))?;
    }
    Ok(Value::Array(values))
}
