ghost use Rattle.std.specs.Prelude.{◌≡◌, ◌<◌};
ghost use Rattle.ev_tree.specs.Scalars.{u32_text};
ghost use Rattle.ev_journal_read.specs.Words.{number_behind, actor_named, op_named, rule_of, verdict_named, answer_named, place_named, way_named};

use ev_tree::MAX_U32_DIGITS;
use ev_types::{Actor, Answer, ChainPlace, Host, Op, Rule, Verdict, Way, is_numeral};

// The number that 1 to 10 digits write, if it is below 2^32.
#[tactic(auto, unfolding(ev_tree::specs::Scalars::u32_text))]
fn number_of(digits: &str) -> Option<u32>
    ensures { result ≡ u32_text digits.now }
{
    if is_numeral(digits, MAX_U32_DIGITS) {
        digits.parse::<u32>().ok()
    } else {
        None
    }
}

// The number after a letter.
fn number_behind(letter: char, word: &str) -> Option<u32>
    requires { letter < 128 }
    ensures { result ≡ number_behind letter word.now }
{
    number_of(word.strip_prefix(letter)?)
}

// An actor by its word.
pub(crate) fn actor_named(word: &str) -> Option<Actor>
    ensures { result ≡ actor_named word.now }
{
    match word {
        "stream" => Some(Actor::Stream),
        "health" => Some(Actor::Health),
        "timer" => Some(Actor::Timer),
        "main" => Some(Actor::Main),
        _ => Some(Actor::Worker(number_behind('w', word)?)),
    }
}

// An operation by its word.
pub(crate) fn op_named(word: &str) -> Option<Op>
    ensures { result ≡ op_named word.now }
{
    match word {
        "connect" => Some(Op::Connect),
        "disconnect" => Some(Op::Disconnect),
        "response" => Some(Op::Response),
        "health" => Some(Op::Health),
        "fetchTimeout" => Some(Op::FetchTimeout),
        "drainTimeout" => Some(Op::DrainTimeout),
        "ttlExpired" => Some(Op::TtlExpired),
        "publish" => Some(Op::Publish),
        "reap" => Some(Op::Reap),
        "accept" => Some(Op::Accept),
        "close" => Some(Op::Close),
        "settle" => Some(Op::Settle),
        _ => None,
    }
}

// The verdict that refuses by a rule, whose number has 8 bits.
fn rule_of(number: u32) -> Option<Verdict>
    ensures { result ≡ rule_of number }
{
    if number < 256 {
        Some(Verdict::Refused(Rule::new(number as u8)))
    } else {
        None
    }
}

// A verdict by its word.
pub(crate) fn verdict_named(word: &str) -> Option<Verdict>
    ensures { result ≡ verdict_named word.now }
{
    match word {
        "new" => Some(Verdict::New),
        "same" => Some(Verdict::Same),
        "inPlace" => Some(Verdict::InPlace),
        "back" => Some(Verdict::Back),
        "kept" => Some(Verdict::Kept),
        "unasked" => Some(Verdict::Unasked),
        "renewed" => Some(Verdict::Renewed),
        _ => rule_of(number_behind('V', word)?),
    }
}

// An answer that is a word.
pub(crate) fn answer_named(word: &str) -> Option<Answer>
    ensures { result ≡ answer_named word.now }
{
    match word {
        "ignored" => Some(Answer::Ignored),
        "done" => Some(Answer::Done),
        "unchanged" => Some(Answer::Unchanged),
        "inUse" => Some(Answer::InUse),
        "noListener" => Some(Answer::NoListener),
        "noChain" => Some(Answer::NoChain),
        "notOpen" => Some(Answer::NotOpen),
        _ => None,
    }
}

// A chain's place that is a word: that of the default chain.
pub(crate) fn place_named(word: &str) -> Option<ChainPlace>
    ensures { result ≡ place_named word.now }
{
    match word {
        "default" => Some(ChainPlace::Default),
        _ => None,
    }
}

// What becomes of a connection where a word says all of it.
pub(crate) fn way_named(word: &str) -> Option<Way<Host>>
    ensures { result ≡ way_named word.now }
{
    match word {
        "undecided" => Some(Way::Undecided),
        "noRoute" => Some(Way::NoRoute),
        "redirect" => Some(Way::Redirect),
        "noCluster" => Some(Way::NoCluster),
        "noEndpoint" => Some(Way::NoEndpoint),
        _ => None,
    }
}
