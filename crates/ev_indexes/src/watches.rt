//! What is known of names of each kind that generations depend on.
//! Values are kept beside the marks of their names, for all kinds alike:
//! a content is shared, so there is one place for all.

ghost use Rattle.std.specs.Prelude.{◌≡◌, if◌then◌else◌, ◌≢◌, ◌++◌, [], None, Decides, IsSome, IfOk, OnOk, OnErr};
ghost use Rattle.std.specs.Map.{lookup};
ghost use Rattle.std.specs.Option.{option_copied};
ghost use Rattle.indexmap.specs.IndexMap.{get};
ghost use Rattle.ev_lookups.specs.Keys.{key_same, named};
ghost use Rattle.ev_lookups.specs.declared.kind_keys.Key as declared;
ghost use Rattle.ev_indexes.specs.Kept.{Sets};
ghost use Rattle.ev_indexes.specs.Due.{has_number};
ghost use Rattle.ev_indexes.specs.Watched.{Turns, unwatched, has_watcher, watchers_of, watched_too, watched_less, with_arrival};

use crate::Numbers;
use crate::names::key;
use ev_keys::Keys;
use ev_lookups::{Key, KeyText};
use ev_types::{Arrival, Content, Gen, Kind, Name, Seq, TryCopy};
use indexmap::IndexMap;
use std::alloc::{AllocError, Global};
use std::marker::Model;

/// What is known of a name that is watched: the generations that wait for it without a limit,
/// and those that wait for it at most until the initial fetch timeout; one may stand in both.
/// How many numbers were allocated when something was last received for the name, and when its wait last timed out:
/// that answers the generations up to the last of these numbers, and none that has to be told anew.
/// And its last value.
#[derive(Drop)]
pub struct Watch {
    pub unlimited: Numbers,
    pub limited: Numbers,
    pub told: Option<u32>,
    pub timed: Option<u32>,
    pub value: Option<Content>,
}

impl Watch {
    /// Whether a generation depends on the name.
    pub fn has_watcher(&self) -> bool
        ensures { result ≡ has_watcher self.now }
    {
        has_number(&self.unlimited) || has_number(&self.limited)
    }

    /// Puts the numbers of the generations that depend on the name to the others.
    /// One that waits for it both ways is put twice.
    pub fn put_watchers(&self, numbers: &mut Seq<Gen>) -> Result<(), AllocError>
        ensures { OnOk result (numbers.new ≡ numbers.old ++ watchers_of self.now) }
    {
        put_all(numbers, self.unlimited.as_slice())?;
        put_all(numbers, self.limited.as_slice())?;
        Ok(())
    }
}

// Whether there is a number.
fn has_number(numbers: &Numbers) -> bool
    ensures { result ≡ has_number numbers.now }
{
    !numbers.is_empty()
}

/// Puts numbers to the others.
pub fn put_all(numbers: &mut Seq<Gen>, more: &[Gen]) -> Result<(), AllocError>
    ensures { OnOk result (numbers.new ≡ numbers.old ++ more.now) }
{
    for number in more {
        numbers.push(*number)?;
    }
    Ok(())
}

/// By kind and name what is known of it. A name of which nothing is known has no entry.
#[derive(Drop)]
pub struct Watches {
    watches: IndexMap<Key, Watch, Keys>,
}

impl Model for Watches {
    ghost use Rattle.ev_indexes.specs.Kept.{HasNoDefault};
    ghost use Rattle.ev_indexes.specs.Watched.{WatchesKept, unwatched};

    ghost Value = { WatchesKept };

    ghost view = { λ w. w.watches.entries };

    ghost invariant = { λ w. HasNoDefault unwatched w.watches.entries };
}

impl Watches {
    /// No name is watched. Names are hashed by these keys. It takes no memory.
    pub fn new(alloc: Global, keys: Keys) -> Watches
        ensures { result ≡ [] }
    {
        Watches {
            watches: IndexMap::with_hasher(alloc, keys),
        }
    }

    /// What is known of a name of a kind, where something is.
    pub fn get(&self, kind: Kind, name: &Name) -> Option<&Watch>
        ensures { option_copied result ≡ lookup (key_same (named kind name.now)) self.now }
    {
        self.get_text(kind, name.as_str())
    }

    /// The same for a text, of which nothing is known where it is no name.
    pub fn get_text(&self, kind: Kind, text: &str) -> Option<&Watch>
        ensures { option_copied result ≡ lookup (key_same (named kind text.now)) self.now }
    {
        self.watches.get(&KeyText::new(kind, text))
    }

    /// One more generation depends on the name; the one that was put last isn't put again.
    /// Without memory it is unspecified.
    pub fn watch(
        &mut self,
        alloc: Global,
        kind: Kind,
        name: &Name,
        number: Gen,
        limited: bool,
    ) -> Result<(), AllocError>
        ensures { OnOk result (Turns (watched_too number limited) self.old self.new (named kind name.now)) }
    {
        let Some(watch) = self.watches.get_mut(&key(kind, name)) else {
            return self.begin(alloc, kind, name, number, limited);
        };
        add(watch, number, limited)
    }

    // A first generation depends on a name of which nothing is known.
    fn begin(
        &mut self,
        alloc: Global,
        kind: Kind,
        name: &Name,
        number: Gen,
        limited: bool,
    ) -> Result<(), AllocError>
        requires { lookup (key_same (named kind name.now)) self.old ≡ None }
        ensures { OnOk result (Turns (watched_too number limited) self.old self.new (named kind name.now)) }
    {
        let name = name.copy(alloc)?;
        let watch = first_watch(alloc, number, limited)?;
        let Ok(_) = self.watches.insert(Key { kind, name }, watch) else {
            return Err(AllocError);
        };
        Ok(())
    }

    /// A generation no longer depends on the name. It takes no memory.
    pub fn unwatch(&mut self, kind: Kind, name: &Name, number: Gen)
        ensures { Turns (watched_less number) self.old self.new (named kind name.now) }
    {
        let key = key(kind, name);
        let Some(watch) = self.watches.get_mut(&key) else {
            return;
        };
        leave(watch, number);
        if is_nothing(watch) {
            take_out(&mut self.watches, &key);
        }
    }

    /// Something was received for the name, when so many numbers were allocated. Without memory it is unspecified.
    pub fn tell(
        &mut self,
        alloc: Global,
        made: u32,
        kind: Kind,
        name: &Name,
        arrival: &Arrival,
    ) -> Result<(), AllocError>
        requires { IsSome (lookup (key_same (named kind name.now)) self.old) }
        ensures { OnOk result (Turns (with_arrival made arrival.now) self.old self.new (named kind name.now)) }
    {
        let Some(watch) = self.watches.get_mut(&key(kind, name)) else {
            unreachable!()
        };
        note(alloc, watch, made, arrival)
    }

    /// Forgets all that is known of the name. It takes no memory.
    pub fn forget(&mut self, kind: Kind, name: &Name)
        ensures { Sets unwatched self.old self.new (named kind name.now) unwatched }
    {
        take_out(&mut self.watches, &key(kind, name));
    }
}

// Takes out the entry of a name.
fn take_out(watches: &mut IndexMap<Key, Watch, Keys>, key: &KeyText<'_>)
    ensures { (other : declared.Key) → get key_same watches.new other
        ≡ (if key_same key.now other then None else get key_same watches.old other) }
{
    watches.swap_remove(key);
}

// What is known of a name once a first generation depends on it.
fn first_watch(alloc: Global, number: Gen, limited: bool) -> Result<Watch, AllocError>
    ensures watch { IfOk result (λ watch. watch ≡ watched_too number limited unwatched) }
    ensures some { IfOk result (λ watch. watch ≢ unwatched) }
{
    let mut watch = nothing(alloc);
    add(&mut watch, number, limited)?;
    Ok(watch)
}

// Nothing is known.
fn nothing(alloc: Global) -> Watch
    ensures { result ≡ unwatched }
{
    Watch {
        unlimited: Numbers::new(alloc),
        limited: Numbers::new(alloc),
        told: None,
        timed: None,
        value: None,
    }
}

// Whether nothing is known.
fn is_nothing(watch: &Watch) -> bool
    ensures { Decides result (watch.now ≡ unwatched) }
{
    watch.told.is_none()
        && watch.timed.is_none()
        && watch.value.is_none()
        && watch.unlimited.is_empty()
        && watch.limited.is_empty()
}

// One more generation depends on a name.
fn add(watch: &mut Watch, number: Gen, limited: bool) -> Result<(), AllocError>
    ensures ok { OnOk result (watch.new ≡ watched_too number limited watch.old) }
    ensures some { OnOk result (watch.new ≢ unwatched) }
    ensures err { OnErr result (watch.old ≢ unwatched → watch.new ≢ unwatched) }
{
    if limited {
        watch.limited.put(number)?;
    } else {
        watch.unlimited.put(number)?;
    }
    Ok(())
}

// A generation no longer depends on a name.
fn leave(watch: &mut Watch, number: Gen)
    ensures { watch.new ≡ watched_less number watch.old }
{
    watch.unlimited.leave_out(number);
    watch.limited.leave_out(number);
}

// Something was received for a name.
fn note(alloc: Global, watch: &mut Watch, made: u32, arrival: &Arrival) -> Result<(), AllocError>
    ensures ok { OnOk result (watch.new ≡ with_arrival made arrival.now watch.old) }
    ensures some { OnOk result (watch.new ≢ unwatched) }
    ensures err { OnErr result (watch.new ≡ watch.old) }
{
    match arrival {
        Arrival::Value(content) => {
            watch.value = Some(content.copy(alloc)?);
            watch.told = Some(made);
        }
        Arrival::Absent | Arrival::Bad => watch.told = Some(made),
        Arrival::TimedOut => watch.timed = Some(made),
        Arrival::Ended(content) => watch.value = Some(content.copy(alloc)?),
    }
    Ok(())
}
