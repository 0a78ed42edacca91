ghost use Rattle.std.specs.Prelude.{◌≡◌, ◌≢◌, ◌≤◌, ◌⊎◌, Ok, Err};
ghost use Rattle.ev_io.specs.Outside.{Rose};
ghost use Rattle.ev_script.specs.Faults.{Input};
ghost use Rattle.ev_script.specs.ReadTrees.{IsTreesAnswer};
ghost use Rattle.ev_dns.specs.Lines.{dns_lines};
ghost use Rattle.ev_app.specs.declared.commands.Command.TheVariants.{Dns};
ghost use Rattle.ev_app.specs.Texts.{IsMadeBy};
ghost use Rattle.ev_app.specs.Dns.{IsDnsAnswer};

use crate::expansions::fault_of;
use crate::made::Made;
use crate::status::Status;
use crate::trees::read_trees_of;
use ev_dns::{ResolvedOperation, answers_are_last, resolve};
use ev_io::{ScriptFault, Source};
use ev_script::{ScriptTrees, WithOperation};
use std::alloc::Global;

// Makes the text of the script that the source's bytes are, with resolutions,
// in which clusters wait for the addresses of their hosts.
#[tactic(auto, using(crate::proofs::DnsLemmas::answered, crate::proofs::DnsLemmas::not_read))]
pub(crate) fn make_dns<S: Source>(alloc: Global, source: &mut S) -> Result<Made, ScriptFault>
    ensures made { IsMadeBy Dns (S.left source.old) (S.left source.new) result }
    ensures failed { result ≡ Err ScriptFault.Read → Rose (S.faults source.old) (S.faults source.new) }
    ensures unended { result ≡ Err ScriptFault.Read → S.ended source.new ≡ S.ended source.old }
    ensures same_count { (S.faults source.new ≡ S.faults source.old) ⊎ (result ≡ Err ScriptFault.Read) }
    ensures count { S.faults source.old ≤ S.faults source.new }
{
    let trees = read_trees_of(alloc, &WithOperation(ResolvedOperation), source)?;
    dns_made(alloc, &trees)
}

// What answers the trees of a script with resolutions, or why nothing does.
#[tactic(auto, using(crate::proofs::DnsLemmas::dns_not_told))]
fn dns_made(alloc: Global, trees: &ScriptTrees) -> Result<Made, ScriptFault>
    requires trees { (input : Input) × IsTreesAnswer dns_lines input (Ok trees.now) }
    ensures answer { IsDnsAnswer trees.now result }
    ensures read { result ≢ Err ScriptFault.Read }
{
    // what is reported of endpoints in each run of a script that is written
    answers_are_last();
    match resolve(alloc, trees) {
        Ok(text) => Ok(Made {
            text,
            status: Status::Done,
        }),
        Err(error) => Err(fault_of(error)),
    }
}
