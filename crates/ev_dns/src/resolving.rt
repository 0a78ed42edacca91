ghost use Rattle.std.specs.Prelude.{◌≡◌, false, Some, Ok, IfOk, OnOk};
ghost use Rattle.serde_json.specs.View.{view};
ghost use Rattle.ev_types.specs.Scripts.{IsScript};
ghost use Rattle.ev_script.specs.Faults.{Input, plain_lines, HasNoFault};
ghost use Rattle.ev_script.specs.ReadTrees.{IsTreesAnswer};
ghost use Rattle.ev_script.specs.Script.{script_of};
ghost use Rattle.ev_dns.specs.Lines.{dns_lines};
ghost use Rattle.ev_dns.specs.Resolving.{dns_rules};
ghost use Rattle.ev_expand.specs.Expanding.{IsExpanded};
ghost use Rattle.ev_expand.specs.Said.{lines_in, input_of_text, expanded_script};

use crate::expand;
use ev_expand::ExpandError;
use ev_script::ScriptTrees;
use std::alloc::Global;

/// The text of a script whose clusters wait for the addresses of their hosts, by the trees of a script's lines and of
/// resolutions. It is a script without fault, within the bounds of scripts.
///
/// # Errors
/// `Private` exactly for the first line that uses a name that begins with `dns/` for endpoints. `Large` where there
/// is none, exactly for the line with whose output the text goes above a limit of inputs. `OutOfMemory` where memory
/// runs out, and for 2^32 lines and more.
pub fn resolve(alloc: Global, trees: &ScriptTrees) -> Result<Vec<u8>, ExpandError>
    requires read { (input : Input) × IsTreesAnswer dns_lines input (Ok trees.now) }
    ensures expanded { IsExpanded (dns_rules trees.now.header.profile) (view trees.now.head)
        (lines_in trees.now) result }
    ensures sound { IfOk result (λ text. HasNoFault plain_lines (input_of_text text.items)) }
    ensures script { IfOk result (λ text. script_of false text.items
        ≡ Some (expanded_script (dns_rules trees.now.header.profile) trees.now)) }
    ensures kept { OnOk result (IsScript (expanded_script (dns_rules trees.now.header.profile) trees.now)) }
{
    expand(
        alloc,
        trees.keys,
        trees.header.profile,
        &trees.head,
        &trees.lines,
    )
}
