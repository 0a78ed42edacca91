ghost use Rattle.std.specs.Prelude.{◌≡◌, ◌<◌};
ghost use Rattle.ev_soak.specs.Soak.{form_of};

// What a line does.
#[derive(Clone, Copy, Debug)]
pub(crate) enum Form {
    // A response with a cluster.
    Clusters,
    // A response with the hosts of a cluster.
    Endpoints,
    // A response with a listener.
    Listeners,
    // A response with a listener's routes.
    RouteTables,
    // A health result.
    HealthResults,
    // A cluster's hosts are waited for no longer.
    FetchTimeouts,
    // A listener has drained.
    DrainTimeouts,
    // A response that removes a cluster.
    Removals,
    // A worker settles.
    Settles,
    // A worker accepts a connection.
    Accepts,
    // A worker closes a connection.
    Closes,
}

// The form of a line, by what is drawn from 14 for it.
#[tactic(auto, unfolding(crate::specs::Soak::form_of))]
pub(crate) fn form_of(number: u32) -> Form
    requires { number < 14 }
    ensures { result ≡ form_of number }
{
    match number {
        0 => Form::Clusters,
        1 => Form::Endpoints,
        2 => Form::Listeners,
        3 => Form::RouteTables,
        4 => Form::HealthResults,
        5 => Form::FetchTimeouts,
        6 => Form::DrainTimeouts,
        7 => Form::Removals,
        8 => Form::Settles,
        9..=11 => Form::Accepts,
        _ => Form::Closes,
    }
}
