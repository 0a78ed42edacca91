ghost use Rattle.std.specs.Prelude.{◌≡◌, ◌≤◌, ◌⊎◌, Err};
ghost use Rattle.ev_io.specs.Outside.{Rose};
ghost use Rattle.ev_app.specs.declared.commands.Command.TheVariants.{Chains};
ghost use Rattle.ev_app.specs.Texts.{IsMadeBy};

use crate::made::Made;
use crate::status::Status;
use ev_chain_lines::make_chains;
use ev_chains::{chains_stay, connections_stay};
use ev_io::{ScriptFault, Source};
use std::alloc::Global;

// Makes the answers to the lines of filter chains that the source's bytes are.
#[tactic(auto, using(crate::proofs::ChainLemmas::chained, crate::proofs::ChainLemmas::not_chained))]
pub(crate) fn make_of_chains<S: Source>(alloc: Global, source: &mut S) -> Result<Made, ScriptFault>
    ensures made { IsMadeBy Chains (S.left source.old) (S.left source.new) result }
    ensures failed { result ≡ Err ScriptFault.Read → Rose (S.faults source.old) (S.faults source.new) }
    ensures unended { result ≡ Err ScriptFault.Read → S.ended source.new ≡ S.ended source.old }
    ensures same_count { (S.faults source.new ≡ S.faults source.old) ⊎ (result ≡ Err ScriptFault.Read) }
    ensures count { S.faults source.old ≤ S.faults source.new }
{
    // what holds of every list of events
    connections_stay();
    chains_stay();
    match make_chains(alloc, source) {
        Ok(text) => Ok(Made {
            text,
            status: Status::Done,
        }),
        Err(fault) => Err(fault),
    }
}
