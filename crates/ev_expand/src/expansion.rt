use crate::following::Due;
use crate::keys::Key;
use crate::numbers::Numbers;
use ev_types::{Event, Item, Profile};
use serde_json::Value;
use std::alloc::{AllocError, Global};

/// What a command makes of the lines of a script, one after another. The profile is how the lines are read: that of
/// the header.
pub trait Expansion {
    ghost use Rattle.std.specs.Prelude.{◌≡◌, List, IfOk};
    ghost use Rattle.serde_json.specs.Data.{Data};
    ghost use Rattle.serde_json.specs.View.{view};
    ghost use Rattle.ev_types.specs.declared.contents.Kind.TheVariants.{Cds};
    ghost use Rattle.ev_types.specs.declared.events.Profile.{Profile};
    ghost use Rattle.ev_wire.specs.Responses.{item_of};
    ghost use Rattle.ev_expand.specs.Expanding.{Rules};
    ghost use Rattle.ev_expand.specs.Fronts.{event_of};
    ghost use Rattle.ev_expand.specs.Growing.{TakesLine, TellsDue};
    ghost use Rattle.ev_expand.specs.Numbers.{ArePlaces, guarded_so_far};

    // What the command does in a profile.
    ghost rules: { Profile → Rules };

    // It reads the lines by that profile.
    ghost reads: { (profile : Profile) → (rules profile).guard.profile ≡ profile };

    // The value is as it is after these lines.
    ghost is_behind: { Profile → Self → List Data → Type 0 };

    /// What begins a private name.
    fn prefix(&self) -> &'static str
        ensures { (profile : Profile) → result.now ≡ (rules profile).prefix };

    /// What begins the nonce of a line that is added.
    fn nonce(&self) -> &'static str
        ensures { (profile : Profile) → result.now ≡ (rules profile).nonce };

    /// Whether a line itself is written.
    fn is_written(&self, line: &Value) -> bool
        ensures { (profile : Profile) → result ≡ (rules profile).is_written (view line.now) };

    /// The key of a resource of a response of clusters, where it is guarded. The item is what the resource is read as.
    ///
    /// # Errors
    /// `AllocError` where there is no memory for it.
    fn key(
        &self,
        alloc: Global,
        profile: Profile,
        item: &Item,
        entry: &Value,
    ) -> Result<Option<Key>, AllocError>
        requires { item.now ≡ item_of (rules profile).guard.profile Cds (view entry.now) }
        ensures { IfOk result (λ key. key ≡ (rules profile).guard.key_of (view entry.now)) };

    /// What is kept of the first resource of a key.
    ///
    /// # Errors
    /// `AllocError` where there is no memory for it.
    fn own(&self, alloc: Global, profile: Profile, entry: &Value) -> Result<Value, AllocError>
        ensures { IfOk result (λ own. view own ≡ (rules profile).guard.own_of (view entry.now)) };

    /// Takes the next line, and says which places are due after it, with their endpoints. The event is what the line
    /// is read as, the numbers are those after the line, and `items` are the places of the keys of its guarded
    /// resources.
    ///
    /// # Errors
    /// `AllocError` where there is no memory for it; what the command knows then is unspecified.
    fn due(
        &mut self,
        alloc: Global,
        profile: Profile,
        line: &Value,
        event: &Option<Event>,
        numbers: &Numbers,
        items: &[Option<usize>],
    ) -> Result<Vec<Due>, AllocError>
        requires event { event.now ≡ event_of (rules profile).guard.profile (view line.now) }
        requires places { ArePlaces (rules profile).guard (view line.now) (guarded_so_far numbers.now) items.now }
        ensures due { TellsDue (rules profile) (is_behind profile) self.old numbers.now (view line.now) result }
        ensures behind { TakesLine (rules profile) (is_behind profile) self.old self.new numbers.now
            (view line.now) result };
}
