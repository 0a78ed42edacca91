ghost use Rattle.std.specs.Prelude.{◌≡◌};
ghost use Rattle.ev_app.specs.Expansions.{fault_of};

use ev_expand::ExpandError;
use ev_io::ScriptFault;

/// The kind of the fault that the text grows beyond the limits of inputs.
const GROWS_TOO_LARGE: u8 = 10;

/// The kind of the fault that a line uses a name which the command keeps to itself.
const USES_A_PRIVATE_NAME: u8 = 11;

// The fault that says why there is no text.
pub(crate) fn fault_of(error: ExpandError) -> ScriptFault
    ensures { result ≡ fault_of error }
{
    match error {
        ExpandError::Private { line } => ScriptFault::Bad {
            line,
            kind: USES_A_PRIVATE_NAME,
        },
        ExpandError::Large { line } => ScriptFault::Bad {
            line,
            kind: GROWS_TOO_LARGE,
        },
        ExpandError::OutOfMemory => ScriptFault::OutOfMemory,
    }
}
