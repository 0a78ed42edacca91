//! Ends of connections.
ghost use Rattle.std.specs.Prelude.{◌≡◌};
ghost use Rattle.ev_model.specs.Choice.{delivered_of, meant_of};

use ev_types::{Ask, Host, Ip};
use std::marker::Model;

/// The end that a connection is taken to come to. It takes no memory.
#[derive(Drop)]
pub struct LocalEnd<'a> {
    host: &'a Host,
    ip: Option<Ip>,
}

impl<'a> Model for LocalEnd<'a> {
    ghost use Rattle.ev_types.specs.declared.events.Peer.{Peer};

    ghost Value = { Peer };

    ghost view = { λ e. record { host = e.host.now; ip = e.ip } };
}

impl<'a> LocalEnd<'a> {
    /// Where a connection is meant to go.
    pub fn meant_by(ask: &'a Ask) -> LocalEnd<'a>
        ensures { result ≡ meant_of ask.now }
    {
        LocalEnd {
            host: &ask.address,
            ip: ask.ip,
        }
    }

    /// Where it was delivered.
    pub fn delivered_by(ask: &'a Ask) -> LocalEnd<'a>
        ensures { result ≡ delivered_of ask.now }
    {
        match &ask.redirected_to {
            Some(end) => LocalEnd {
                host: &end.host,
                ip: end.ip,
            },
            None => LocalEnd::meant_by(ask),
        }
    }

    /// Its address and port.
    pub(crate) fn host(&self) -> &'a Host
        ensures { result.now ≡ self.now.host }
    {
        self.host
    }

    /// Its port.
    pub fn port(&self) -> u16
        ensures { result ≡ self.now.host.port }
    {
        self.host.port
    }

    /// The IP address that its address writes, if it writes one.
    pub fn ip(&self) -> Option<Ip>
        ensures { result ≡ self.now.ip }
    {
        self.ip
    }
}
