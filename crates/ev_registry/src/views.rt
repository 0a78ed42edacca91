ghost use Rattle.std.specs.Prelude.{◌≡◌, ◌≤◌, ◌++◌, map, option_map, option_to_list, IfOk, OnOk};
ghost use Rattle.ev_model.specs.World.{World};
ghost use Rattle.ev_indexes.specs.Tables.{row_in};
ghost use Rattle.ev_model_laws.specs.Numbers.{IsNumbered};
ghost use Rattle.ev_proxy.specs.Proxies.{IsAt};
ghost use Rattle.ev_registry.specs.Views.{view_row};

use ev_proxy::Proxy;
use ev_types::{Gen, GenRow, Kind, Name, Phase, RowStatus, Seq, TryCopy};
use std::alloc::{AllocError, Global};

/// A generation, its status, and how many connections are open on it.
#[derive(Drop)]
pub struct ViewRow {
    pub kind: Kind,
    pub number: Gen,
    pub name: Name,
    pub status: RowStatus,
    /// Those to it as their listener or their cluster.
    pub connections: u64,
}

/// What is known, as it is shown: the generations by number, how far the proxy has booted,
/// and the version of the last picture.
#[derive(Drop)]
pub struct View {
    pub rows: Seq<ViewRow>,
    pub phase: Phase,
    pub version: u64,
}

// The generations by number. It costs look-ups of each number that was allocated.
pub(crate) fn rows_of(alloc: Global, proxy: &Proxy) -> Result<Seq<ViewRow>, AllocError>
    ensures { IfOk result (λ rows. (world : World) → IsAt proxy.now world → IsNumbered world
        → rows ≡ map (view_row world) world.rows) }
{
    let mut rows = Seq::new(alloc);
    for drawn in 0..proxy.made() {
        put_row(&mut rows, alloc, proxy, Gen::new(drawn + 1))?;
    }
    Ok(rows)
}

// Appends the generation of a number, where there is one, to the others.
fn put_row(
    rows: &mut Seq<ViewRow>,
    alloc: Global,
    proxy: &Proxy,
    number: Gen,
) -> Result<(), AllocError>
    ensures { OnOk result ((world : World) → IsAt proxy.now world
        → rows.new ≡ rows.old ++ option_to_list (option_map (view_row world) (row_in number world.rows))) }
{
    let Some(row) = proxy.row(number) else {
        return Ok(());
    };
    rows.push(row_of(alloc, proxy, row)?)
}

// A generation as it is shown.
fn row_of(alloc: Global, proxy: &Proxy, row: &GenRow) -> Result<ViewRow, AllocError>
    ensures { IfOk result (λ shown. (world : World) → IsAt proxy.now world → shown ≡ view_row world row.now) }
{
    Ok(ViewRow {
        kind: row.kind,
        number: row.number,
        name: row.name.copy(alloc)?,
        status: row.status,
        connections: proxy.connections(row.number),
    })
}
