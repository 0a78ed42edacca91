ghost use Rattle.std.specs.Prelude.{◌≡◌, ◌∷◌, ◌++◌, [], map, option_map, IfOk, OnOk};
ghost use Rattle.std.specs.BTreeSet.{contains};
ghost use Rattle.std.specs.Ordering.{nat_cmp};
ghost use Rattle.ev_script.specs.Members.{tree_told};
ghost use Rattle.serde_json.specs.View.{view};
ghost use Rattle.ev_expand.specs.Expanding.{IsExpanded};
ghost use Rattle.ev_expand.specs.Following.{due_shown};
ghost use Rattle.ev_expand.specs.Fronts.{event_of};
ghost use Rattle.ev_expand.specs.Numbers.{ArePlaces, guarded_so_far};
ghost use Rattle.ev_dns.specs.Known.{TakesGiven, due_found};
ghost use Rattle.ev_dns.specs.Lines.{resolution_in};
ghost use Rattle.ev_dns.specs.Marking.{open_after};
ghost use Rattle.ev_dns.specs.Resolving.{dns_rules};
ghost use Rattle.ev_dns.specs.State.{FromBehind, IsBehind, IsTouched};
ghost use Rattle.ev_dns.specs.Templates.{by_names};
ghost use Rattle.ev_types.specs.declared.events.Profile.{Profile};

use crate::answers::Answers;
use crate::complete::Complete;
use crate::lines::{Resolution, resolution_in};
use crate::looking::due_among;
use crate::templates::template_key;
use crate::touching::touched_by;
use crate::waiting::Waiting;
use ev_expand::{Due, ExpandError, Expansion, Key, Numbers, expand_with};
use ev_keys::Keys;
use ev_script::{LineTree, is_op};
use ev_types::{Event, Item, Name, Profile, TryCopy};
use serde_json::{Value, json};
use std::alloc::{AllocError, Global};
use std::collections::BTreeSet;

// What is known after the lines so far.
#[derive(Drop)]
pub(crate) struct Resolutions {
    // Whether a stream is open.
    pub connected: bool,
    // The host names that were answered.
    pub answers: Answers,
    // What the places that aren't complete wait for.
    pub waiting: Waiting,
    // The complete places.
    pub complete: Complete,
}

impl Resolutions {
    // Nothing is known. It takes no memory.
    pub(crate) fn new(alloc: Global, keys: Keys) -> Resolutions
        ensures { (profile : Profile) → IsBehind profile result [] }
    {
        Resolutions {
            connected: false,
            answers: Answers::new(alloc, keys),
            waiting: Waiting::new(alloc, keys),
            complete: Complete::new(alloc, keys),
        }
    }

    // Takes a line, and gives the places that it touches.
    fn hear(
        &mut self,
        alloc: Global,
        profile: Profile,
        line: &Value,
        event: &Option<Event>,
        numbers: &Numbers,
        items: &[Option<usize>],
    ) -> Result<BTreeSet<usize>, AllocError>
        requires event { event.now ≡ event_of profile (view line.now) }
        requires places { ArePlaces (by_names profile) (view line.now) (guarded_so_far numbers.now) items.now }
        ensures touched { FromBehind profile self.old numbers.now (view line.now)
            (λ before. IfOk result (λ set. IsTouched profile before (view line.now) self.new.complete.places set)) }
        ensures behind { FromBehind profile self.old numbers.now (view line.now)
            (λ before. OnOk result (IsBehind profile self.new (before ++ view line.now ∷ []))) }
    {
        self.connected = open_after(self.connected, event);
        let resolution = resolution_in(alloc, line)?;
        let name = name_of(alloc, &resolution)?;
        let woken = self.waiting.wake(alloc, numbers.len(), &name)?;
        take_given(alloc, &mut self.answers, resolution)?;
        let answers = &self.answers;
        let finished = self
            .waiting
            .advance_all(alloc, answers, numbers, woken.as_slice())?;
        self.complete
            .enter_all(alloc, numbers, finished.as_slice())?;
        touched_by(alloc, &self.complete.served, items, &name)
    }

    // What is due after a line that touches these places, by whether a stream was open before it.
    fn find_due(
        &self,
        alloc: Global,
        numbers: &Numbers,
        was_open: bool,
        touched: &BTreeSet<usize>,
    ) -> Result<Vec<Due>, AllocError>
        ensures due { IfOk result (λ due. map due_shown due.items
            ≡ due_found self.now.answers (guarded_so_far numbers.now) self.now.connected was_open
            (contains nat_cmp touched.now) (contains nat_cmp self.now.complete.places)) }
    {
        if !self.connected {
            return Ok(Vec::new(alloc));
        }
        let complete = &self.complete.places;
        if was_open {
            return due_among(alloc, numbers, &self.answers, complete, touched);
        }
        due_among(alloc, numbers, &self.answers, complete, complete)
    }
}

impl Expansion for Resolutions {
    ghost use Rattle.std.proofs.Common.{refl};
    ghost use Rattle.ev_dns.specs.Resolving.{dns_rules};
    ghost use Rattle.ev_dns.specs.State.{IsBehind};

    ghost rules = { dns_rules };

    ghost reads = { λ profile. refl };

    ghost is_behind = { IsBehind };

    fn prefix(&self) -> &'static str {
        "dns/"
    }

    fn nonce(&self) -> &'static str {
        "dns-"
    }

    fn is_written(&self, line: &Value) -> bool {
        !is_op("resolved", line)
    }

    fn key(
        &self,
        alloc: Global,
        profile: Profile,
        _item: &Item,
        entry: &Value,
    ) -> Result<Option<Key>, AllocError> {
        template_key(alloc, profile, entry)
    }

    fn own(&self, alloc: Global, _profile: Profile, _entry: &Value) -> Result<Value, AllocError> {
        json!(in alloc; null)
    }

    fn due(
        &mut self,
        alloc: Global,
        profile: Profile,
        line: &Value,
        event: &Option<Event>,
        numbers: &Numbers,
        items: &[Option<usize>],
    ) -> Result<Vec<Due>, AllocError> {
        let was_open = self.connected;
        let touched = self.hear(alloc, profile, line, event, numbers, items)?;
        self.find_due(alloc, numbers, was_open, &touched)
    }
}

// The host name that is resolved, where there is a resolution.
fn name_of(alloc: Global, resolution: &Option<Resolution>) -> Result<Option<Name>, AllocError>
    ensures { IfOk result (λ name. name ≡ option_map (λ r. r.name) resolution.now) }
{
    match resolution {
        Some(resolution) => Ok(Some(resolution.name.copy(alloc)?)),
        None => Ok(None),
    }
}

// Takes a resolution, where there is one.
fn take_given(
    alloc: Global,
    answers: &mut Answers,
    resolution: Option<Resolution>,
) -> Result<(), AllocError>
    ensures { OnOk result (TakesGiven answers.old answers.new resolution) }
{
    match resolution {
        Some(resolution) => answers.take(alloc, resolution),
        None => Ok(()),
    }
}

// Whether a stream is open after an event.
fn open_after(connected: bool, event: &Option<Event>) -> bool
    ensures { result ≡ open_after connected event.now }
{
    match event {
        Some(Event::Connect) => true,
        Some(Event::Disconnect) => false,
        _ => connected,
    }
}

/// The text of a script whose clusters have names to be resolved, by its header and its lines, which are read by this
/// profile: resolutions of host names are lines of their own. Its tables hash by these keys.
///
/// # Errors
/// `Private` exactly for the first line that uses a name that begins with `dns/` for endpoints. `Large` where there
/// is none, exactly for the line with whose output the text goes above a limit of inputs. `OutOfMemory` where memory
/// runs out, and for 4,294,967,290 lines or more, which no input has.
pub fn expand(
    alloc: Global,
    keys: Keys,
    profile: Profile,
    head: &Value,
    lines: &[LineTree],
) -> Result<Vec<u8>, ExpandError>
    ensures { IsExpanded (dns_rules profile) (view head.now) (map tree_told lines.now) result }
{
    expand_with(
        alloc,
        keys,
        profile,
        Resolutions::new(alloc, keys),
        head,
        lines,
    )
}
