//! The chains of an update that stay as the listener before has them. A chain is found by its text, in a table of the
//! chains before, so that each costs one look-up.

ghost use Rattle.std.specs.Prelude.{◌≡◌, ◌++◌, IfOk, OnOk, filter_map, option_to_list};
ghost use Rattle.ev_indexes.specs.Indexes.{IsIndexed};
ghost use Rattle.ev_indexes.specs.Origins.{AreKept};
ghost use Rattle.ev_model.specs.Origins.{kept_as, kept_from, kept_of, placed, placed_from};
ghost use Rattle.ev_model.specs.Rows.{serving_row};
ghost use Rattle.ev_warming.specs.Chains.{AddsOrigin, HaveOrigins, default_kept, kept_by};

use ev_indexes::{KeptPlaces, State, Steps, kept_places, origin_of};
use ev_keys::Keys;
use ev_lookups::NameKey;
use ev_types::{
    ChainPlace, Content, FilterChain, GenRow, KeptChain, Kind, Listener, Name, Origin, Seq,
};
use indexmap::IndexMap;
use std::alloc::{AllocError, Global};
use std::hash::{DefaultHasher, Hash};
use std::sync::ledger::Ledger;

// By text where the first chain of that text began.
type Origins<'a> = IndexMap<NameKey<'a>, Origin, Keys>;

/// The chains of a content that are kept of the generation that serves a name, where one does. It costs at most one
/// look-up of a row, and a walk over the chains of both.
pub(crate) fn kept_from<L: Ledger>(
    state: &State,
    alloc: Global,
    kind: Kind,
    name: &Name,
    content: &Content,
    steps: &mut Steps<L>,
) -> Result<Seq<KeptChain>, AllocError>
    requires indexed { IsIndexed state.now }
    ensures { IfOk result (λ kept. kept ≡ kept_from (serving_row kind name.now state.now.table.rows) content.now) }
{
    let Some(number) = state.names.standing(kind, name).active else {
        return Ok(Seq::new(alloc));
    };
    match state.table.row(number, steps) {
        Some(row) => kept_of(alloc, row, content),
        None => Ok(Seq::new(alloc)),
    }
}

// The chains of a content that are kept of a generation.
fn kept_of(alloc: Global, row: &GenRow, content: &Content) -> Result<Seq<KeptChain>, AllocError>
    ensures { IfOk result (λ kept. kept ≡ kept_of row.now content.now) }
{
    match (&row.content, content) {
        (Content::Listener(before), Content::Listener(update)) => {
            kept_between(alloc, row, before.get(), update.get())
        }
        _ => Ok(Seq::new(alloc)),
    }
}

// The chains of a listener that are kept of a generation with the chains of the one before.
fn kept_between(
    alloc: Global,
    row: &GenRow,
    before: &Listener,
    update: &Listener,
) -> Result<Seq<KeptChain>, AllocError>
    ensures { IfOk result (λ kept. kept ≡ filter_map (kept_as row.now (placed before.now)) (placed update.now)) }
{
    let places = kept_places(alloc, row.kept.as_slice())?;
    kept_with_places(alloc, row, &places, before, update)
}

// The same, with where the chains began that the generation kept itself.
fn kept_with_places(
    alloc: Global,
    row: &GenRow,
    places: &KeptPlaces,
    before: &Listener,
    update: &Listener,
) -> Result<Seq<KeptChain>, AllocError>
    requires kept { AreKept row.now.kept places.now }
    ensures { IfOk result (λ kept. kept ≡ filter_map (kept_as row.now (placed before.now)) (placed update.now)) }
{
    let origins = origins(alloc, row, places, before.filter_chains.as_slice())?;
    let mut kept = kept_matched(alloc, &origins, update.filter_chains.as_slice())?;
    push_default(
        row,
        places,
        &before.default_filter_chain,
        &update.default_filter_chain,
        &mut kept,
    )?;
    Ok(Seq::from_vec(kept))
}

// By text where these chains of a generation began.
fn origins<'a>(
    alloc: Global,
    row: &GenRow,
    places: &KeptPlaces,
    chains: &'a [FilterChain],
) -> Result<Origins<'a>, AllocError>
    requires kept { AreKept row.now.kept places.now }
    ensures { IfOk result (λ origins. HaveOrigins row.now (placed_from 0 chains.now) origins) }
{
    let mut origins = IndexMap::with_hasher(alloc, keys_of(chains));
    let Ok(mut place) = u32::try_from(chains.len()) else {
        return Err(AllocError);
    };
    'chains: while place > 0 {
        place -= 1;
        let origin = origin_of(row.number, places, ChainPlace::At(place));
        put_origin(&mut origins, &chains[place as usize], origin)?;
    }
    Ok(origins)
}

// The keys of the texts of these chains.
fn keys_of(chains: &[FilterChain]) -> Keys {
    let mut fed = DefaultHasher::new();
    for chain in chains {
        chain.body_text.as_str().hash(&mut fed);
    }
    Keys::after(fed)
}

// Where a chain began, in place of another one of its text.
fn put_origin<'a>(
    origins: &mut Origins<'a>,
    chain: &'a FilterChain,
    origin: Origin,
) -> Result<(), AllocError>
    ensures { OnOk result (AddsOrigin origins.old origins.new chain.now origin) }
{
    let Ok(_) = origins.insert(NameKey::new(chain.body_text.as_str()), origin) else {
        return Err(AllocError);
    };
    Ok(())
}

// Those of these chains whose text is that of one before, with where this one began.
fn kept_matched(
    alloc: Global,
    origins: &Origins<'_>,
    chains: &[FilterChain],
) -> Result<Vec<KeptChain>, AllocError>
    ensures { IfOk result (λ kept. kept.items ≡ filter_map (kept_by origins.now) (placed_from 0 chains.now)) }
{
    let mut kept = Vec::new(alloc);
    let mut place = 0u32;
    for chain in chains {
        push_kept(origins, ChainPlace::At(place), chain, &mut kept)?;
        place = place.checked_add(1).ok_or(AllocError)?;
    }
    Ok(kept)
}

// Puts a chain to the others, where its text is that of one before.
fn push_kept(
    origins: &Origins<'_>,
    place: ChainPlace,
    chain: &FilterChain,
    kept: &mut Vec<KeptChain>,
) -> Result<(), AllocError>
    ensures { OnOk result (kept.new.items ≡ kept.old.items
        ++ option_to_list (kept_by origins.now (record { place = place; chain = chain.now }))) }
{
    if let Some(origin) = origins.get(&NameKey::new(chain.body_text.as_str())) {
        kept.push(KeptChain {
            place,
            origin: *origin,
        })?;
    }
    Ok(())
}

// Puts a default chain to the others, where its text is that of the default chain before.
fn push_default(
    row: &GenRow,
    places: &KeptPlaces,
    before: &Option<FilterChain>,
    update: &Option<FilterChain>,
    kept: &mut Vec<KeptChain>,
) -> Result<(), AllocError>
    requires kept { AreKept row.now.kept places.now }
    ensures { OnOk result (kept.new.items ≡ kept.old.items
        ++ option_to_list (default_kept row.now before.now update.now)) }
{
    let (Some(before), Some(update)) = (before, update) else {
        return Ok(());
    };
    if update.body_text.as_str() == before.body_text.as_str() {
        kept.push(KeptChain {
            place: ChainPlace::Default,
            origin: origin_of(row.number, places, ChainPlace::Default),
        })?;
    }
    Ok(())
}
