ghost use Rattle.std.specs.Prelude.{◌≡◌, ◌≤◌, IfOk};
ghost use Rattle.ev_soak.specs.Soak.{soak_script};

use crate::draws::Draws;
use crate::lines::draw_line;
use ev_types::{Actor, Event, Line, Profile, Script, Seq, Text};
use std::alloc::{AllocError, Global};

/// The most lines that a script of a seed has after its header.
pub const MAX_SOAK: u32 = 100_000;

/// The script of a seed, with this many lines after its header: 1 to `MAX_SOAK`.
#[tactic(auto, using(crate::proofs::SoakLemmas::is_script))]
pub fn script(alloc: Global, seed: u64, count: u32) -> Result<Script, AllocError>
    requires within { (1 ≤ count) × (count ≤ MAX_SOAK) }
    ensures { IfOk result (λ script. script ≡ soak_script seed count) }
{
    let lines = Seq::from_vec(draw_lines(alloc, seed, count)?);
    Ok(Script {
        workers: 2,
        auto: true,
        profile: Profile::Own,
        node: Text::new(alloc, "soak")?,
        lines,
        count: count + 1,
    })
}

// Its lines.
#[tactic(auto, using(crate::proofs::SoakLemmas::one_more, crate::proofs::SoakLemmas::all_drawn))]
fn draw_lines(alloc: Global, seed: u64, count: u32) -> Result<Vec<Line>, AllocError>
    requires within { (1 ≤ count) × (count ≤ MAX_SOAK) }
    ensures { IfOk result (λ lines. lines.items ≡ (soak_script seed count).lines) }
{
    let mut draws = Draws { state: seed };
    let mut lines = Vec::with_capacity(alloc, count as usize)?;
    lines.push(Line {
        at: 2,
        actor: Actor::Stream,
        event: Event::Connect,
    })?;
    for place in 1..count {
        lines.push(draw_line(alloc, &mut draws, place + 2)?)?;
    }
    Ok(lines)
}
