ghost use Rattle.std.specs.Prelude.{◌≡◌, ◌<◌, ◌||◌, ◌++◌, [], ◌∷◌, None, false, true, not, is_some, length, if◌then◌else◌, IfOk, IfSome, OnOk};
ghost use Rattle.std.specs.List.{list_all};
ghost use Rattle.ev_model.specs.Rows.{made_names};
ghost use Rattle.ev_model.specs.Phase.{have_come};
ghost use Rattle.ev_indexes.specs.Indexes.{IsIndexed};
ghost use Rattle.ev_state.specs.InitTargets.{comes_in, names_noted};

use ev_indexes::State;
use ev_types::{Item, Kind, Response, Seq, Text, TryCopy, Verdict};
use std::alloc::{AllocError, Global};
use std::marker::Model;

/// The names that the first response of a kind made generations for, and whether they are late. It also has the place
/// of a name that was seen waiting, which is asked first.
#[derive(Drop)]
pub(crate) struct First {
    names: Option<Seq<Text>>,
    late: bool,
    place: usize,
}

impl Model for First {
    ghost use Rattle.ev_state.specs.InitTargets.{FirstParts};

    ghost Value = { FirstParts };

    ghost view = { λ f. record { names = f.names; late = f.late } };
}

impl First {
    /// No response came yet.
    pub(crate) fn new() -> First
        ensures names { result.names ≡ None }
        ensures late { result.late ≡ false }
    {
        First {
            names: None,
            late: false,
            place: 0,
        }
    }

    /// Notes the names that a response made generations for by these verdicts, where it is the first one.
    pub(crate) fn note(
        &mut self,
        alloc: Global,
        response: &Response,
        verdicts: &[Verdict],
    ) -> Result<(), AllocError>
        requires one_each { length verdicts.now ≡ length response.now.items }
        ensures names { OnOk result (self.new.names ≡ names_noted self.old verdicts.now response.now) }
        ensures late { OnOk result (self.new.late ≡ self.old.late) }
    {
        if self.names.is_some() {
            return Ok(());
        }
        let names = made_names(alloc, verdicts, response.items.as_slice())?;
        self.names = Some(names);
        Ok(())
    }

    /// They are late from now on, where no response came and they weren't late before, which the answer says.
    pub(crate) fn time_out(&mut self) -> bool
        ensures heard { result ≡ not (is_some self.old.names || self.old.late) }
        ensures late { self.new ≡ (if result then record self.old { late = true } else self.old) }
    {
        if self.names.is_some() || self.late {
            return false;
        }
        self.late = true;
        true
    }

    /// Whether they have come or are late. The name that was seen waiting is asked first, then those after it, then
    /// those before it, up to the first that waits.
    pub(crate) fn have_come(&mut self, kind: Kind, known: &State) -> bool
        requires indexed { IsIndexed known.now }
        ensures value { result ≡ have_come self.old.late (comes_in kind known.now) self.old.names }
        ensures same { self.new ≡ self.old }
    {
        if self.late {
            return true;
        }
        let Some(names) = &self.names else {
            return false;
        };
        match waiting(kind, known, names.as_slice(), self.place) {
            Some(place) => {
                self.place = place;
                false
            }
            None => true,
        }
    }
}

// The place of a name that waits, looked for from a place on and around the list.
fn waiting(kind: Kind, known: &State, names: &[Text], from: usize) -> Option<usize>
    requires indexed { IsIndexed known.now }
    ensures { is_some result ≡ not (list_all (comes_in kind known.now) names.now) }
{
    let from = from.min(names.len());
    match first_waiting(kind, known, &names[from..]) {
        Some(further) => Some(from + further),
        None => first_waiting(kind, known, &names[..from]),
    }
}

// The place of the first of these names that waits.
fn first_waiting(kind: Kind, known: &State, names: &[Text]) -> Option<usize>
    requires indexed { IsIndexed known.now }
    ensures waits { is_some result ≡ not (list_all (comes_in kind known.now) names.now) }
    ensures within { IfSome result (λ place. place < length names.now) }
{
    for (place, name) in names.iter().enumerate() {
        if !known.has_come(kind, name.as_str()) {
            return Some(place);
        }
    }
    None
}

// The names of the resources that are new, in order.
fn made_names(alloc: Global, verdicts: &[Verdict], items: &[Item]) -> Result<Seq<Text>, AllocError>
    requires { length verdicts.now ≡ length items.now }
    ensures { IfOk result (λ names. names ≡ made_names verdicts.now items.now) }
{
    let mut names = Vec::new(alloc);
    for (place, verdict) in verdicts.iter().enumerate() {
        push_made(alloc, verdict, &items[place], &mut names)?;
    }
    Ok(Seq::from_vec(names))
}

// Adds the name of a resource to the others, where it is new.
fn push_made(
    alloc: Global,
    verdict: &Verdict,
    item: &Item,
    names: &mut Vec<Text>,
) -> Result<(), AllocError>
    ensures { OnOk result (names.new.items ≡ names.old.items ++ made_names (verdict.now ∷ []) (item.now ∷ [])) }
{
    if let Verdict::New = verdict {
        names.push(item.name.copy(alloc)?)?;
    }
    Ok(())
}
