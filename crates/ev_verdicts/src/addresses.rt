ghost use Rattle.std.specs.Prelude.{◌≡◌, option_map};
ghost use Rattle.ev_model.specs.Verdicts.{listening_address};

use ev_types::{Content, SocketAddress};

/// The address of a content, where it is a listener.
pub(crate) fn address_of(content: &Content) -> Option<&SocketAddress>
    ensures { option_map (λ address. address.now) result ≡ listening_address content.now }
{
    match content {
        Content::Listener(listener) => Some(&listener.get().address),
        Content::Cluster(_)
        | Content::Assignment(_)
        | Content::Routes(_)
        | Content::Secret
        | Content::Extension => None,
    }
}
