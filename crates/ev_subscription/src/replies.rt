ghost use Rattle.std.specs.Prelude.{◌≡◌, ◌++◌, [], ◌∷◌, IfOk, OnOk, length, string_bytes};
ghost use Rattle.ev_model.specs.Requests.{reply_of, refusals, refusal_text, joined, message_of};
ghost use Rattle.ev_subscription.specs.Texts.{separated};

use ev_types::{Item, Kind, Request, Response, Rule, Seq, Text, TryCopy, Verdict};
use std::alloc::{AllocError, Global};

/// The reply to a response of this kind: it names the response's nonce, and refuses exactly where a resource is
/// refused, with the outer name and the rule of each that is.
pub fn reply_of(
    alloc: Global,
    kind: Kind,
    response: &Response,
    verdicts: &[Verdict],
) -> Result<Request, AllocError>
    requires { length verdicts.now ≡ length response.now.items }
    ensures { IfOk result (λ reply. reply ≡ reply_of kind response.now verdicts.now) }
{
    let nonce = response.nonce.copy(alloc)?;
    let error = message_of(alloc, verdicts, response.items.as_slice())?;
    Ok(Request {
        kind,
        node: None,
        subscribe: Seq::new(alloc),
        unsubscribe: Seq::new(alloc),
        versions: Seq::new(alloc),
        nonce: Some(nonce),
        error,
    })
}

// The message of a reply, where a resource is refused.
fn message_of(
    alloc: Global,
    verdicts: &[Verdict],
    items: &[Item],
) -> Result<Option<Text>, AllocError>
    requires { length verdicts.now ≡ length items.now }
    ensures { IfOk result (λ message. message ≡ message_of (refusals verdicts.now items.now)) }
{
    let texts = refusals(alloc, verdicts, items)?;
    if texts.len() == 0 {
        return Ok(None);
    }
    let message = joined(alloc, texts.as_slice())?;
    Ok(Some(Text::new(alloc, message.as_str())?))
}

// What is said of the refused resources, in order.
fn refusals(alloc: Global, verdicts: &[Verdict], items: &[Item]) -> Result<Vec<Text>, AllocError>
    requires { length verdicts.now ≡ length items.now }
    ensures { IfOk result (λ texts. texts.items ≡ refusals verdicts.now items.now) }
{
    let mut texts = Vec::new(alloc);
    for (place, verdict) in verdicts.iter().enumerate() {
        push_refusal(alloc, verdict, &items[place], &mut texts)?;
    }
    Ok(texts)
}

// Adds what is said of a resource to the others, where it is refused.
fn push_refusal(
    alloc: Global,
    verdict: &Verdict,
    item: &Item,
    texts: &mut Vec<Text>,
) -> Result<(), AllocError>
    ensures { OnOk result (texts.new.items ≡ texts.old.items ++ refusals (verdict.now ∷ []) (item.now ∷ [])) }
{
    if let Verdict::Refused(rule) = verdict {
        texts.push(refusal_text(alloc, item.name.as_str(), *rule)?)?;
    }
    Ok(())
}

// What is said of one refused resource.
fn refusal_text(alloc: Global, name: &str, rule: Rule) -> Result<Text, AllocError>
    ensures { IfOk result (λ text. text ≡ refusal_text name.now rule) }
{
    let number = rule.number();
    let text = format!(in alloc; "{name}: V{number}")?;
    Text::new(alloc, text.as_str())
}

// The texts with a semicolon and a space between them.
#[tactic(auto, using(crate::proofs::TextLemmas::joined_more))]
fn joined(alloc: Global, texts: &[Text]) -> Result<String, AllocError>
    ensures { IfOk result (λ text. string_bytes text ≡ joined texts.now) }
{
    let mut text = String::new(alloc);
    for (place, next) in texts.iter().enumerate() {
        push_text(&mut text, place, next.as_str())?;
    }
    Ok(text)
}

// Appends a text after this many others.
fn push_text(text: &mut String, others: usize, next: &str) -> Result<(), AllocError>
    ensures { OnOk result (string_bytes text.new ≡ string_bytes text.old ++ separated others next.now) }
{
    if others > 0 {
        text.push_str("; ")?;
    }
    text.push_str(next)?;
    Ok(())
}
