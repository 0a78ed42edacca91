ghost use Rattle.std.specs.Prelude.{◌≡◌, ◌+◌, ◌-◌, ◌<◌, ◌≤◌, ◌^◌, length, map, IfOk, OnOk, false};
ghost use Rattle.std.specs.List.{range_with_len};
ghost use Rattle.ev_model.specs.Publishing.{ascending};
ghost use Rattle.ev_chains.specs.Rows.{has_clash, match_of};
ghost use Rattle.ev_chains.specs.State.{numbered, made_by, kept_in, gone_in};

use crate::listed::Listed;
use crate::rows::{Chain, Row};
use ev_types::{Gen, Seq};
use std::alloc::{AllocError, Global};

/// What changes where a listener is accepted: numbers of chains, each from the least.
#[derive(Drop)]
pub struct Changed {
    /// Those that served and drain now.
    pub drained: Seq<u32>,
    /// Those that served and go on.
    pub kept: Seq<u32>,
    /// Those that are new.
    pub made: Seq<u32>,
}

// The chains of a listener with their numbers, and how many numbers are allocated then.
#[derive(Drop)]
pub(crate) struct Numbered {
    pub rows: Vec<Row>,
    pub made: u32,
}

// Gives each chain the number of the serving chain that equals it, and otherwise the next one.
pub(crate) fn number_chains(
    alloc: Global,
    made: u32,
    serving: &Listed,
    chains: Vec<Chain>,
) -> Result<Numbered, AllocError>
    requires apart { has_clash (map match_of serving.now) ≡ false }
    requires room { made + length chains.items < 2 ^ 32 }
    ensures rows { IfOk result (λ n. n.rows.items ≡ numbered made serving.now chains.items) }
    ensures made { IfOk result (λ n. n.made ≡ made_by made serving.now chains.items) }
    ensures grows { IfOk result (λ n. made ≤ n.made) }
{
    let mut rows = Vec::new(alloc);
    let mut made_now = made;
    for chain in chains {
        let number = match serving.number_of(alloc, &chain)? {
            Some(number) => number,
            None => {
                made_now += 1;
                Gen::new(made_now)
            }
        };
        rows.push(Row { number, chain })?;
    }
    Ok(Numbered {
        rows,
        made: made_now,
    })
}

// The numbers of rows that stay, and of those that go.
#[derive(Drop)]
pub(crate) struct Parted {
    pub kept: Vec<u32>,
    pub gone: Vec<Gen>,
}

// Parts the rows that served by whether one of the next has an equal chain.
pub(crate) fn part_rows(alloc: Global, rows: &[Row], next: &Listed) -> Result<Parted, AllocError>
    requires apart { has_clash (map match_of next.now) ≡ false }
    ensures kept { IfOk result (λ parted. parted.kept.items ≡ kept_in next.now rows.now) }
    ensures gone { IfOk result (λ parted. parted.gone.items ≡ gone_in next.now rows.now) }
{
    let mut kept = Vec::new(alloc);
    let mut gone = Vec::new(alloc);
    for row in rows {
        match next.number_of(alloc, &row.chain)? {
            Some(_) => kept.push(row.number.number())?,
            None => gone.push(row.number)?,
        }
    }
    Ok(Parted { kept, gone })
}

// The numbers of chains.
pub(crate) fn plain_numbers(alloc: Global, numbers: &[Gen]) -> Result<Vec<u32>, AllocError>
    ensures { IfOk result (λ plain. plain.items ≡ numbers.now) }
{
    let mut plain = Vec::with_capacity(alloc, numbers.len())?;
    for number in numbers {
        plain.push(number.number())?;
    }
    Ok(plain)
}

// Numbers from the least.
pub(crate) fn ascending(mut numbers: Vec<u32>) -> Result<Seq<u32>, AllocError>
    ensures { IfOk result (λ sorted. sorted ≡ ascending numbers.items) }
{
    numbers.sort()?;
    Ok(Seq::from_vec(numbers))
}

// The numbers above one, up to another.
pub(crate) fn numbers_above(alloc: Global, low: u32, high: u32) -> Result<Seq<u32>, AllocError>
    requires { low ≤ high }
    ensures { IfOk result (λ numbers. numbers ≡ range_with_len (low + 1) (high - low)) }
{
    let mut numbers = Vec::new(alloc);
    for number in low..high {
        numbers.push(number + 1)?;
    }
    Ok(Seq::from_vec(numbers))
}
