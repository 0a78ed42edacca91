use ev_types::{Content, Gen, Kind};
use std::marker::Model;

/// A live generation: one that warms or serves. Its name and content are borrowed from where they are.
#[derive(Drop)]
pub struct LiveRow<'a> {
    /// `Cds` for a cluster, `Lds` for a listener.
    pub kind: Kind,
    pub number: Gen,
    pub name: &'a str,
    pub content: &'a Content,
    /// Whether it still warms.
    pub warming: bool,
}

impl<'a> Model for LiveRow<'a> {
    ghost use Rattle.ev_types.specs.declared.rows.Live.{Live};

    ghost Value = { Live };

    ghost view = { λ r. record { kind = r.kind; number = r.number; name = r.name.now; content = r.content.now; warming = r.warming } };
}
