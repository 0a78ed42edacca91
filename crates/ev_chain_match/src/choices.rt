ghost use Rattle.std.specs.Prelude.{◌≡◌, None};

use ev_listeners::RoutedChain;
use ev_model::Choice;
use ev_types::{Gen, Way};

/// The choice at a listener by the chain that takes the connection, and the way behind it.
pub fn choose_on(listener: Gen, chain: &RoutedChain, way: Way<u32>) -> Choice
    ensures { result ≡ Choice.On listener chain.now.place chain.now.origin way }
{
    Choice::On {
        listener,
        chain: chain.place(),
        origin: chain.origin(),
        way,
    }
}

/// The choice where nothing in a script decides which chain takes a connection.
pub fn leave_undecided(listener: Gen) -> Choice
    ensures { result ≡ Choice.On listener None None Way.Undecided }
{
    Choice::On {
        listener,
        chain: None,
        origin: None,
        way: Way::Undecided,
    }
}
