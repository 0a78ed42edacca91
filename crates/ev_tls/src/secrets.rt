ghost use Rattle.std.specs.Prelude.{◌≡◌, ◌&&◌, ℕ, [], not, nat_eq, map, IfOk, OnOk};
ghost use Rattle.std.specs.Str.{bytes_eq};
ghost use Rattle.ev_script.specs.Members.{tree_told};
ghost use Rattle.serde_json.specs.View.{view};
ghost use Rattle.ev_expand.specs.Expanding.{IsExpanded};
ghost use Rattle.indexmap.specs.IndexSet.{contains};
ghost use Rattle.ev_tls.specs.Looking.{AreMarks};
ghost use Rattle.ev_tls.specs.Marking.{GainsPlaces, is_marked, is_place};
ghost use Rattle.ev_tls.specs.Sealing.{tls_rules};
ghost use Rattle.ev_tls.specs.State.{IsBehind};
ghost use Rattle.ev_types.specs.declared.events.Profile.{Profile};

use crate::complete::{Complete, insert_place};
use crate::hearing::{News, hear, is_quiet, open_after};
use crate::known::{Told, Values};
use crate::looking::{Marked, look};
use crate::references::{body_in, key_by, own_endpoints};
use crate::waiting::Waiting;
use ev_expand::{Due, ExpandError, Expansion, Key, Numbers, expand_with};
use ev_keys::Keys;
use ev_script::LineTree;
use ev_types::{Event, Item, Name, Profile};
use indexmap::IndexSet;
use serde_json::Value;
use std::alloc::{AllocError, Global};

// What is known after the lines so far.
#[derive(Drop)]
pub(crate) struct Secrets {
    // Whether a stream is open.
    pub connected: bool,
    // What has come.
    pub told: Told,
    // The last value of each name of endpoints.
    pub values: Values,
    // What the places that aren't complete wait for.
    pub waiting: Waiting,
    // The complete places.
    pub complete: Complete,
}

impl Secrets {
    // Nothing is known. It takes no memory.
    pub(crate) fn new(alloc: Global, keys: Keys) -> Secrets
        ensures { (profile : Profile) → IsBehind profile result [] }
    {
        Secrets {
            connected: false,
            told: Told::new(alloc, keys),
            values: Values::new(alloc, keys),
            waiting: Waiting::new(alloc, keys),
            complete: Complete::new(alloc, keys),
        }
    }
}

impl Expansion for Secrets {
    ghost use Rattle.std.proofs.Common.{refl};
    ghost use Rattle.ev_tls.specs.Sealing.{tls_rules};
    ghost use Rattle.ev_tls.specs.State.{IsBehind};

    ghost rules = { tls_rules };

    ghost reads = { λ profile. refl };

    ghost is_behind = { IsBehind };

    fn prefix(&self) -> &'static str {
        "tls/"
    }

    fn nonce(&self) -> &'static str {
        "tls-"
    }

    fn is_written(&self, _line: &Value) -> bool {
        true
    }

    fn key(
        &self,
        alloc: Global,
        profile: Profile,
        item: &Item,
        entry: &Value,
    ) -> Result<Option<Key>, AllocError> {
        if profile.is_envoy() {
            return Ok(None);
        }
        key_by(alloc, &item.body, body_in(entry))
    }

    fn own(&self, alloc: Global, _profile: Profile, entry: &Value) -> Result<Value, AllocError> {
        own_endpoints(alloc, body_in(entry))
    }

    fn due(
        &mut self,
        alloc: Global,
        profile: Profile,
        line: &Value,
        event: &Option<Event>,
        numbers: &Numbers,
        items: &[Option<usize>],
    ) -> Result<Vec<Due>, AllocError> {
        if profile.is_envoy() {
            return Ok(Vec::new(alloc));
        }
        if is_quiet(event) {
            return Ok(Vec::new(alloc));
        }
        let was_open = self.connected;
        self.connected = open_after(was_open, event);
        let News { told, values } = hear(alloc, profile, self.connected, line, event)?;
        let finished = self.waiting.go_on(alloc, &mut self.told, told, numbers)?;
        let given = self.values.take_all(alloc, values)?;
        let marks = marks(alloc, was_open, self.connected, finished, items, given)?;
        let due = look(alloc, numbers, &self.values, &self.complete, &marks)?;
        self.complete.enter_all(alloc, numbers, &marks.finished)?;
        Ok(due)
    }
}

// What a look has to know of the line.
fn marks(
    alloc: Global,
    was_open: bool,
    connected: bool,
    finished: IndexSet<usize>,
    items: &[Option<usize>],
    given: IndexSet<Name, Keys>,
) -> Result<Marked, AllocError>
    ensures marks { IfOk result (λ marks. AreMarks was_open connected items.now (contains bytes_eq given) marks) }
    ensures finished { IfOk result (λ marks. marks.finished ≡ finished) }
{
    Ok(Marked {
        connected,
        opened: connected && !was_open,
        finished,
        items: places_of(alloc, items)?,
        given,
    })
}

// The set of the places that are given.
fn places_of(alloc: Global, items: &[Option<usize>]) -> Result<IndexSet<usize>, AllocError>
    ensures { IfOk result (λ set. (place : ℕ) → contains nat_eq set place ≡ is_marked items.now place) }
{
    let mut set = IndexSet::new(alloc);
    for item in items {
        put_place(&mut set, *item)?;
    }
    Ok(set)
}

// Puts a place into the set, where one is given.
fn put_place(set: &mut IndexSet<usize>, item: Option<usize>) -> Result<(), AllocError>
    ensures { OnOk result (GainsPlaces (is_place item) set.old set.new) }
{
    match item {
        Some(place) => insert_place(set, place),
        None => Ok(()),
    }
}

/// The text of a script whose clusters wait for their secrets, by its header and its lines, which are read by this
/// profile. As Envoy reads them clusters wait by themselves, so nothing is guarded. Its tables hash by these keys.
///
/// # Errors
/// `Private` exactly for the first line that uses a name that begins with `tls/` for endpoints. `Large` where there
/// is none, exactly for the line with whose output the text goes above a limit of inputs. `OutOfMemory` where memory
/// runs out, and for 2^32 lines and more.
pub fn expand(
    alloc: Global,
    keys: Keys,
    profile: Profile,
    head: &Value,
    lines: &[LineTree],
) -> Result<Vec<u8>, ExpandError>
    ensures { IsExpanded (tls_rules profile) (view head.now) (map tree_told lines.now) result }
{
    expand_with(alloc, keys, profile, Secrets::new(alloc, keys), head, lines)
}
