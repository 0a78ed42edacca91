ghost use Rattle.std.specs.Prelude.{◌≡◌, ◌≢◌, ◌≤◌, ◌⊎◌, Ok, Err};
ghost use Rattle.ev_io.specs.Outside.{Rose};
ghost use Rattle.ev_script.specs.Faults.{Input, plain_lines};
ghost use Rattle.ev_script.specs.ReadTrees.{IsTreesAnswer};
ghost use Rattle.ev_app.specs.declared.commands.Command.TheVariants.{Tls};
ghost use Rattle.ev_app.specs.Texts.{IsMadeBy};
ghost use Rattle.ev_app.specs.Tls.{IsTlsAnswer};

use crate::expansions::fault_of;
use crate::made::Made;
use crate::status::Status;
use crate::trees::read_trees_of;
use ev_io::{ScriptFault, Source};
use ev_script::{LineTrees, ScriptTrees};
use ev_tls::{accepts_are_sealed, seal};
use std::alloc::Global;

// Makes the text of the script that the source's bytes are, in which clusters wait for their secrets.
#[tactic(auto, using(crate::proofs::TlsLemmas::answered, crate::proofs::TlsLemmas::not_read))]
pub(crate) fn make_tls<S: Source>(alloc: Global, source: &mut S) -> Result<Made, ScriptFault>
    ensures made { IsMadeBy Tls (S.left source.old) (S.left source.new) result }
    ensures failed { result ≡ Err ScriptFault.Read → Rose (S.faults source.old) (S.faults source.new) }
    ensures unended { result ≡ Err ScriptFault.Read → S.ended source.new ≡ S.ended source.old }
    ensures same_count { (S.faults source.new ≡ S.faults source.old) ⊎ (result ≡ Err ScriptFault.Read) }
    ensures count { S.faults source.old ≤ S.faults source.new }
{
    let trees = read_trees_of(alloc, &LineTrees, source)?;
    tls_made(alloc, &trees)
}

// What answers the trees of a script, or why nothing does.
#[tactic(auto, using(crate::proofs::TlsLemmas::tls_not_told))]
fn tls_made(alloc: Global, trees: &ScriptTrees) -> Result<Made, ScriptFault>
    requires trees { (input : Input) × IsTreesAnswer plain_lines input (Ok trees.now) }
    ensures answer { IsTlsAnswer trees.now result }
    ensures read { result ≢ Err ScriptFault.Read }
{
    // what is accepted in each run of a script that is written
    accepts_are_sealed();
    match seal(alloc, trees) {
        Ok(text) => Ok(Made {
            text,
            status: Status::Done,
        }),
        Err(error) => Err(fault_of(error)),
    }
}
