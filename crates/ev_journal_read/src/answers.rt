ghost use Rattle.std.specs.Prelude.{◌≡◌, [], option_map, IfOk};
ghost use Rattle.serde_json.specs.View.{view};
ghost use Rattle.ev_script.specs.Members.{member_of};
ghost use Rattle.ev_journal_read.specs.Trees.{generation_of, number64, list_of, tree_found, verdict_of, sent_answer, moved_at, version_answer, local_way, given_generation, cluster_at, host_of, served_way, way_of, place_by, given_place, chain_at, taken_answer, result_answer, answer_found, answer_of};
ghost use Rattle.ev_journal.specs.Rows.{is_answered_with};
ghost use Rattle.serde_json.specs.Find.{as_str};
ghost use Rattle.ev_types.specs.declared.events.Answer.TheVariants as Answer;
ghost use Rattle.ev_types.specs.declared.origins.ChainPlace.TheVariants.{At};
ghost use Rattle.ev_types.specs.declared.ways.Way.TheVariants.{Elsewhere, NoSecret};

use crate::lists::{Element, read_list};
use crate::parts::{generation_at, generation_of, number16_at, number32, number64};
use crate::words::{answer_named, place_named, verdict_named, way_named};
use ev_script::{name_at, word_at};
use ev_types::{Answer, ChainPlace, Gen, Host, Op, Seq, Verdict, Way};
use serde_json::Value;
use std::alloc::{AllocError, Global};

impl Element for Gen {
    ghost reads = { generation_of };

    fn read(_alloc: Global, tree: &Value) -> Result<Option<Gen>, AllocError> {
        Ok(generation_of(tree))
    }
}

impl Element for u64 {
    ghost reads = { number64 };

    fn read(_alloc: Global, tree: &Value) -> Result<Option<u64>, AllocError> {
        Ok(number64(tree))
    }
}

impl Element for Verdict {
    ghost reads = { verdict_of };

    fn read(_alloc: Global, tree: &Value) -> Result<Option<Verdict>, AllocError> {
        match tree.as_str() {
            Some(word) => Ok(verdict_named(word)),
            None => Ok(None),
        }
    }
}

// The answer that a member would be.
pub(crate) fn answer_at(
    alloc: Global,
    tree: &Value,
    key: &str,
) -> Result<Option<Answer>, AllocError>
    ensures { IfOk result (λ answer. answer ≡ member_of answer_of key.now (view tree.now)) }
{
    match tree.get(key) {
        Some(answer) => read_answer(alloc, answer),
        None => Ok(None),
    }
}

// The answer that a tree would be.
#[tactic(auto, unfolding(crate::specs::Trees::answer_of))]
fn read_answer(alloc: Global, tree: &Value) -> Result<Option<Answer>, AllocError>
    ensures { IfOk result (λ answer. answer ≡ answer_of (view tree.now)) }
{
    match tree.as_str() {
        Some(word) => Ok(answer_named(word)),
        None => answer_with(
            alloc,
            tree.get("requests"),
            tree.get("version"),
            tree.get("reaped"),
            tree,
        ),
    }
}

// The answer that a tree with these members would be.
fn answer_with(
    alloc: Global,
    requests: Option<&Value>,
    version: Option<&Value>,
    reaped: Option<&Value>,
    tree: &Value,
) -> Result<Option<Answer>, AllocError>
    ensures { IfOk result (λ answer. answer ≡ answer_found requests.entry version.entry reaped.entry (view tree.now)) }
{
    if let Some(requests) = requests {
        return sent_answer(alloc, requests, tree.get("verdicts"));
    }
    if let Some(version) = version {
        return version_answer(alloc, version, tree.get("closed"), tree);
    }
    match reaped {
        Some(reaped) => reaped_answer(alloc, reaped),
        None => result_answer(alloc, tree),
    }
}

// Requests, and the verdicts where there are any.
fn sent_answer(
    alloc: Global,
    requests: &Value,
    verdicts: Option<&Value>,
) -> Result<Option<Answer>, AllocError>
    ensures { IfOk result (λ answer. answer ≡ sent_answer (view requests.now) (tree_found verdicts.entry)) }
{
    let Some(requests) = read_list(alloc, requests)? else {
        return Ok(None);
    };
    let Some(verdicts) = verdicts else {
        return Ok(Some(Answer::Moved { requests }));
    };
    match read_list(alloc, verdicts)? {
        Some(verdicts) => Ok(Some(Answer::Replied { requests, verdicts })),
        None => Ok(None),
    }
}

// A version, and where it is a settle's the connections that were closed and those that moved.
fn version_answer(
    alloc: Global,
    version: &Value,
    closed: Option<&Value>,
    tree: &Value,
) -> Result<Option<Answer>, AllocError>
    ensures { IfOk result (λ answer. answer
        ≡ version_answer (view version.now) (tree_found closed.entry) (view tree.now)) }
{
    let Some(version) = number64(version) else {
        return Ok(None);
    };
    let Some(closed) = closed else {
        return Ok(Some(Answer::Version(version)));
    };
    let Some(closed) = read_list(alloc, closed)? else {
        return Ok(None);
    };
    match moved_at(alloc, tree)? {
        Some(moved) => Ok(Some(Answer::Settled {
            closed,
            moved,
            version,
        })),
        None => Ok(None),
    }
}

// The connections that moved; none are given where they are absent.
fn moved_at(alloc: Global, tree: &Value) -> Result<Option<Seq<u64>>, AllocError>
    ensures { IfOk result (λ moved. moved ≡ moved_at (view tree.now)) }
{
    match tree.get("moved") {
        Some(moved) => read_list(alloc, moved),
        None => Ok(Some(Seq::new(alloc))),
    }
}

// Generations that were destroyed.
fn reaped_answer(alloc: Global, reaped: &Value) -> Result<Option<Answer>, AllocError>
    ensures { IfOk result (λ answer. answer ≡ option_map Answer.Reaped (list_of generation_of (view reaped.now))) }
{
    match read_list(alloc, reaped)? {
        Some(numbers) => Ok(Some(Answer::Reaped(numbers))),
        None => Ok(None),
    }
}

// A connection that a listener takes.
fn result_answer(alloc: Global, tree: &Value) -> Result<Option<Answer>, AllocError>
    ensures { IfOk result (λ answer. answer ≡ result_answer (view tree.now)) }
{
    let Some(word) = word_at(tree, "result") else {
        return Ok(None);
    };
    match generation_at(tree, "listener") {
        Some(listener) => taken_answer(alloc, word, listener, tree),
        None => Ok(None),
    }
}

// What becomes of a connection that a listener takes, by the word for it.
fn taken_answer(
    alloc: Global,
    word: &str,
    listener: Gen,
    tree: &Value,
) -> Result<Option<Answer>, AllocError>
    ensures { IfOk result (λ answer. answer ≡ taken_answer word.now listener (view tree.now)) }
{
    let Some(chain) = chain_at(tree) else {
        return Ok(None);
    };
    match way_of(alloc, word, tree)? {
        Some(way) => Ok(Some(Answer::On {
            listener,
            chain,
            way,
        })),
        None => Ok(None),
    }
}

// The chain that was found, where one was.
fn chain_at(tree: &Value) -> Option<Option<ChainPlace>>
    ensures { result ≡ chain_at (view tree.now) }
{
    match tree.get("chain") {
        Some(chain) => given_place(chain),
        None => Some(None),
    }
}

// A chain's place that is given.
fn given_place(tree: &Value) -> Option<Option<ChainPlace>>
    ensures { result ≡ given_place (view tree.now) }
{
    match place_of(tree) {
        Some(place) => Some(Some(place)),
        None => None,
    }
}

// A chain's place, by its number or by the word for it.
fn place_of(tree: &Value) -> Option<ChainPlace>
    ensures { result ≡ place_by (as_str (view tree.now)) (view tree.now) }
{
    match tree.as_str() {
        Some(word) => place_named(word),
        None => numbered_place(number32(tree)),
    }
}

// The chain of a number, where there is one.
fn numbered_place(place: Option<u32>) -> Option<ChainPlace>
    ensures { result ≡ option_map (λ place. At place) place }
{
    match place {
        Some(place) => Some(ChainPlace::At(place)),
        None => None,
    }
}

// What becomes of a connection, by the word for it.
fn way_of(alloc: Global, word: &str, tree: &Value) -> Result<Option<Way<Host>>, AllocError>
    ensures { IfOk result (λ way. way ≡ way_of word.now (view tree.now)) }
{
    match word {
        "served" => served_way(alloc, tree),
        "local" => Ok(local_way(tree)),
        "elsewhere" => Ok(elsewhere_way(cluster_at(tree))),
        "noSecret" => Ok(no_secret_way(cluster_at(tree))),
        _ => Ok(way_named(word)),
    }
}

// A connection that is answered at once.
fn local_way(tree: &Value) -> Option<Way<Host>>
    ensures { result ≡ local_way (view tree.now) }
{
    match number16_at(tree, "status") {
        Some(status) => Some(Way::Local { status }),
        None => None,
    }
}

// A connection that goes where no script tells, by a cluster where one is named.
fn elsewhere_way(cluster: Option<Option<Gen>>) -> Option<Way<Host>>
    ensures { result ≡ option_map (λ cluster. Elsewhere cluster) cluster }
{
    match cluster {
        Some(cluster) => Some(Way::Elsewhere { cluster }),
        None => None,
    }
}

// A connection for which a secret isn't there: the cluster's where one is named, else the chain's.
fn no_secret_way(cluster: Option<Option<Gen>>) -> Option<Way<Host>>
    ensures { result ≡ option_map (λ cluster. NoSecret cluster) cluster }
{
    match cluster {
        Some(cluster) => Some(Way::NoSecret { cluster }),
        None => None,
    }
}

// The cluster that is named, where one is.
fn cluster_at(tree: &Value) -> Option<Option<Gen>>
    ensures { result ≡ cluster_at (view tree.now) }
{
    match tree.get("cluster") {
        Some(cluster) => given_generation(cluster),
        None => Some(None),
    }
}

// A generation's number that is given.
fn given_generation(tree: &Value) -> Option<Option<Gen>>
    ensures { result ≡ given_generation (view tree.now) }
{
    match generation_of(tree) {
        Some(number) => Some(Some(number)),
        None => None,
    }
}

// A connection that goes to a host.
fn served_way(alloc: Global, tree: &Value) -> Result<Option<Way<Host>>, AllocError>
    ensures { IfOk result (λ way. way ≡ served_way (view tree.now)) }
{
    let Some(cluster) = generation_at(tree, "cluster") else {
        return Ok(None);
    };
    match read_host(alloc, tree)? {
        Some(host) => Ok(Some(Way::Served { cluster, host })),
        None => Ok(None),
    }
}

// The host that two members are.
fn read_host(alloc: Global, tree: &Value) -> Result<Option<Host>, AllocError>
    ensures { IfOk result (λ host. host ≡ host_of (view tree.now)) }
{
    let Some(address) = name_at(alloc, tree, "address")? else {
        return Ok(None);
    };
    match number16_at(tree, "port") {
        Some(port) => Ok(Some(Host { address, port })),
        None => Ok(None),
    }
}

// Whether the operation may be answered so.
pub(crate) fn is_answered_with(op: Op, answer: &Answer) -> bool
    ensures { result ≡ is_answered_with op answer.now }
{
    match answer {
        Answer::Ignored => is_main_side(op),
        Answer::Done => matches!(op, Op::Disconnect | Op::DrainTimeout | Op::Close),
        Answer::Moved { .. } => is_moving(op),
        Answer::Replied { .. } => matches!(op, Op::Response),
        Answer::Version(_) | Answer::Unchanged => matches!(op, Op::Publish),
        Answer::Reaped(_) => matches!(op, Op::Reap),
        Answer::NotOpen => matches!(op, Op::Close),
        Answer::Settled { .. } => matches!(op, Op::Settle),
        _ => matches!(op, Op::Accept),
    }
}

// Whether the operation may be ignored.
fn is_main_side(op: Op) -> bool
    ensures { result ≡ is_answered_with op Answer.Ignored }
{
    is_moving(op) || matches!(op, Op::Disconnect | Op::Response | Op::DrainTimeout)
}

// Whether the operation may be answered with requests alone.
fn is_moving(op: Op) -> bool
    ensures { result ≡ is_answered_with op (Answer.Moved []) }
{
    matches!(
        op,
        Op::Connect | Op::Health | Op::FetchTimeout | Op::TtlExpired
    )
}
