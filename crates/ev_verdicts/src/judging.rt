ghost use Rattle.std.specs.Prelude.{◌≡◌, ◌&&◌, [], ◌∷◌, ◌++◌, IfOk, OnOk, IsSome, Some, length, if◌then◌else◌};
ghost use Rattle.ev_types.specs.declared.contents.Kind.{Kind};
ghost use Rattle.ev_types.specs.declared.contents.Kind.TheVariants.{Lds};
ghost use Rattle.ev_types.specs.declared.events.Verdict.TheVariants.{Renewed, Unasked};
ghost use Rattle.ev_model.specs.Verdicts.{against, changes_chains, listener_verdict, returns_to, serving_verdict, update_verdict, value_verdict};
ghost use Rattle.ev_verdicts.specs.Judged.{judged, good_by, is_held, made_by, made_with, stays, AreVerdicts, response_judged, judged_first, by_its_body, is_taken_for, has_another};

use crate::addresses::address_of;
use crate::known::Known;
use crate::made::Made;
use crate::rules::rule_of;
use ev_keys::Keys;
use ev_lookups::{LiveRow, Mentions};
use ev_types::{Body, Content, Item, Kind, Listener, Rule, Seq, SocketAddress, Verdict};
use std::alloc::{AllocError, Global};
use std::hash::{DefaultHasher, Hash};

/// The verdict on each resource of a response, in its order, by what is known before it,
/// for a caller who has what the response mentions. Each resource costs a few look-ups,
/// and a heap allocation where it is a listener; nothing that is known is copied.
///
/// It is out of memory where a list or table has no room.
pub fn verdicts_by_mentions<K: Known>(
    alloc: Global,
    known: &K,
    mentions: &Mentions<'_>,
) -> Result<Seq<Verdict>, AllocError>
    requires { IsSome mentions.now.kind }
    ensures verdicts { IfOk result (λ verdicts. AreVerdicts (K.answers known.now) mentions.now verdicts) }
    ensures one_each { IfOk result (λ verdicts. length verdicts ≡ length mentions.now.items) }
{
    let Some(kind) = mentions.response().kind else {
        return Ok(Seq::new(alloc));
    };
    judge_all(alloc, kind, known, mentions)
}

// The verdicts on the resources of a response of this kind.
fn judge_all<K: Known>(
    alloc: Global,
    kind: Kind,
    known: &K,
    mentions: &Mentions<'_>,
) -> Result<Seq<Verdict>, AllocError>
    ensures verdicts { IfOk result (λ verdicts. verdicts ≡ response_judged (K.answers known.now) kind mentions.now) }
    ensures one_each { IfOk result (λ verdicts. length verdicts ≡ length mentions.now.items) }
{
    let response = mentions.response();
    judge_items(alloc, kind, known, mentions, response.items.as_slice())
}

// The verdicts on these resources of the response that mentions them.
fn judge_items<K: Known>(
    alloc: Global,
    kind: Kind,
    known: &K,
    mentions: &Mentions<'_>,
    items: &[Item],
) -> Result<Seq<Verdict>, AllocError>
    ensures verdicts { IfOk result (λ it. it ≡ judged_first (K.answers known.now) kind mentions.now items.now) }
    ensures one_each { IfOk result (λ verdicts. length verdicts ≡ length items.now) }
{
    let mut made = Made::new(alloc, keys_of(items));
    let mut verdicts = Vec::new(alloc);
    for item in items {
        made = judge_next(alloc, kind, known, mentions, made, item, &mut verdicts)?;
    }
    Ok(Seq::from_vec(verdicts))
}

// Puts the verdict on the next resource after the others, and gives what the response made with it.
fn judge_next<'a, K: Known>(
    alloc: Global,
    kind: Kind,
    known: &K,
    mentions: &Mentions<'_>,
    made: Made<'a>,
    item: &'a Item,
    verdicts: &mut Vec<Verdict>,
) -> Result<Made<'a>, AllocError>
    ensures verdict { OnOk result (verdicts.new.items
        ≡ verdicts.old.items ++ judged (K.answers known.now) kind mentions.now made.entry item.now ∷ []) }
    ensures made { IfOk result (λ new. new ≡ made_with (K.answers known.now) kind mentions.now made.entry item.now) }
{
    let verdict = judge(alloc, kind, known, mentions, &made, item)?;
    verdicts.push(verdict)?;
    note(alloc, made, &verdict, item)
}

// The keys of the names and the addresses of these resources.
fn keys_of(items: &[Item]) -> Keys {
    let mut fed = DefaultHasher::new();
    for item in items {
        feed(&mut fed, item);
    }
    Keys::after(fed)
}

// Feeds the name of a resource and the address of a listener.
fn feed(fed: &mut DefaultHasher, item: &Item) {
    item.name.as_str().hash(fed);
    if let Body::Good(content) = &item.body {
        if let Some(address) = address_of(content) {
            address.hash(fed);
        }
    }
}

// The verdict on one resource.
fn judge<K: Known>(
    alloc: Global,
    kind: Kind,
    known: &K,
    mentions: &Mentions<'_>,
    made: &Made<'_>,
    item: &Item,
) -> Result<Verdict, AllocError>
    ensures { IfOk result (λ verdict. verdict ≡ judged (K.answers known.now) kind mentions.now made.now item.now) }
{
    match rule_of(kind, known, mentions, item) {
        Some(rule) => Ok(Verdict::Refused(rule)),
        None => judge_body(alloc, kind, known, mentions, made, item),
    }
}

// The verdict by the body of a resource that breaks no other rule.
fn judge_body<K: Known>(
    alloc: Global,
    kind: Kind,
    known: &K,
    mentions: &Mentions<'_>,
    made: &Made<'_>,
    item: &Item,
) -> Result<Verdict, AllocError>
    ensures { IfOk result (λ verdict. verdict ≡ by_its_body (K.answers known.now) kind mentions.now made.now item.now) }
{
    match &item.body {
        Body::Good(content) => {
            judge_content(
                alloc,
                kind,
                known,
                mentions,
                made,
                item.name.as_str(),
                content,
            )
        }
        Body::Bad(rule) => Ok(Verdict::Refused(*rule)),
        Body::Beat => Ok(judge_beat(kind, known, item)),
    }
}

// The verdict on a good resource that breaks no rule of its form.
fn judge_content<K: Known>(
    alloc: Global,
    kind: Kind,
    known: &K,
    mentions: &Mentions<'_>,
    made: &Made<'_>,
    name: &str,
    content: &Content,
) -> Result<Verdict, AllocError>
    ensures { IfOk result (λ it. it ≡ good_by (K.answers known.now) mentions.now made.now name.now content.now kind) }
{
    match kind {
        Kind::Cds => Ok(compare(known.newest(Kind::Cds, name), content)),
        Kind::Lds => {
            if is_taken(alloc, known, mentions, made, name, content)? {
                Ok(Verdict::Refused(Rule::V15))
            } else {
                Ok(compare_listener(known, name, content))
            }
        }
        Kind::Eds | Kind::Rds | Kind::Sds | Kind::Ecds => {
            Ok(keep_watched(known.is_watched(kind, name)))
        }
    }
}

// The verdict on a heartbeat that isn't refused.
fn judge_beat<K: Known>(kind: Kind, known: &K, item: &Item) -> Verdict
    ensures { result ≡ (if (K.answers known.now).kept kind item.now.name item.now.version then Renewed else Unasked) }
{
    if known.is_kept(kind, item.name.as_str(), item.version.as_str()) {
        Verdict::Renewed
    } else {
        Verdict::Unasked
    }
}

// The verdict on a value: it is kept where its name is watched.
fn keep_watched(watched: bool) -> Verdict
    ensures { result ≡ value_verdict watched }
{
    if watched {
        Verdict::Kept
    } else {
        Verdict::Unasked
    }
}

// The verdict on a cluster or listener: it is the same where the newest generation has this content.
fn compare(newest: Option<LiveRow<'_>>, content: &Content) -> Verdict
    ensures { result ≡ against newest.entry content.now }
{
    let Some(live) = newest else {
        return Verdict::New;
    };
    if *live.content == *content {
        Verdict::Same
    } else {
        Verdict::New
    }
}

// The verdict on a listener whose address is free.
fn compare_listener<K: Known>(known: &K, name: &str, content: &Content) -> Verdict
    ensures { result ≡ listener_verdict ((K.answers known.now).newest Lds name.now) ((K.answers known.now).serving Lds name.now) content.now }
{
    let Some(live) = known.newest(Kind::Lds, name) else {
        return Verdict::New;
    };
    if *live.content == *content {
        Verdict::Same
    } else {
        compare_serving(known.serving(Kind::Lds, name), content)
    }
}

// The verdict on a listener by the one that serves.
fn compare_serving(serving: Option<LiveRow<'_>>, content: &Content) -> Verdict
    ensures { result ≡ serving_verdict serving.entry content.now }
{
    let Some(live) = serving else {
        return Verdict::New;
    };
    match (live.content, content) {
        (Content::Listener(active), Content::Listener(update)) => {
            compare_update(active.get(), update.get())
        }
        _ => Verdict::New,
    }
}

// The verdict on an update of the listener that serves.
fn compare_update(active: &Listener, update: &Listener) -> Verdict
    ensures { result ≡ update_verdict active.now update.now }
{
    if returns_to(active, update) {
        Verdict::Back
    } else if changes_chains(active, update) {
        Verdict::InPlace
    } else {
        Verdict::New
    }
}

// Whether the update is the listener again.
fn returns_to(active: &Listener, update: &Listener) -> bool
    ensures { result ≡ returns_to active.now update.now }
{
    !update.body_text.as_str().is_empty() && *active == *update
}

// Whether the update differs from the listener in its chains alone.
fn changes_chains(active: &Listener, update: &Listener) -> bool
    ensures { result ≡ changes_chains active.now update.now }
{
    !update.frame_text.as_str().is_empty()
        && !update.address.udp
        && active.frame_text == update.frame_text
        && update.filter_chains.len() > 0
}

// Whether a listener of another name has the address of this content.
fn is_taken<K: Known>(
    alloc: Global,
    known: &K,
    mentions: &Mentions<'_>,
    made: &Made<'_>,
    name: &str,
    content: &Content,
) -> Result<bool, AllocError>
    ensures { IfOk result (λ it. it ≡ is_taken_for mentions.now (K.answers known.now) made.now name.now content.now) }
{
    match address_of(content) {
        Some(address) => is_held(alloc, known, mentions, made, name, address),
        None => Ok(false),
    }
}

// Whether a listener of another name has the address.
fn is_held<K: Known>(
    alloc: Global,
    known: &K,
    mentions: &Mentions<'_>,
    made: &Made<'_>,
    name: &str,
    address: &SocketAddress,
) -> Result<bool, AllocError>
    ensures { IfOk result (λ it. it ≡ is_held Lds mentions.now (K.answers known.now) made.now name.now address.now) }
{
    let holders = known.holders(alloc, address)?;
    let held = has_another(holders.as_slice(), mentions, made, name);
    Ok(held || made.has_another_at(address, name))
}

// Whether one of these that is still live has another name.
fn has_another(
    holders: &[LiveRow<'_>],
    mentions: &Mentions<'_>,
    made: &Made<'_>,
    name: &str,
) -> bool
    ensures { result ≡ has_another Lds mentions.now made.now name.now holders.now }
{
    holders
        .iter()
        .any(|live| stays(mentions, made, live) && live.name != name)
}

// Whether a listener that was live before the response still is.
fn stays(mentions: &Mentions<'_>, made: &Made<'_>, live: &LiveRow<'_>) -> bool
    ensures { result ≡ stays Lds mentions.now made.now live.now }
{
    !(live.kind.is(Kind::Lds)
        && (mentions.is_removed(live.name) || live.warming && made.has(live.name)))
}

// What the response did with this verdict on a resource.
fn note<'a>(
    alloc: Global,
    made: Made<'a>,
    verdict: &Verdict,
    item: &'a Item,
) -> Result<Made<'a>, AllocError>
    ensures { IfOk result (λ new. new ≡ made_by verdict.now item.now.name item.now.body made.entry) }
{
    match (verdict, &item.body) {
        (Verdict::New | Verdict::InPlace, Body::Good(content)) => {
            made.with(alloc, item.name.as_str(), address_of(content))
        }
        (Verdict::Back, Body::Good(_)) => made.with(alloc, item.name.as_str(), None),
        _ => Ok(made),
    }
}
