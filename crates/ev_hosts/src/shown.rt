use crate::chosen::ChosenHosts;
use ev_model::Secrets;
use ev_types::{Gen, Name, TryCopy};
use std::alloc::{AllocError, Global};
use std::marker::Model;

/// An active cluster as workers see it, with the hosts that may be chosen, in the order of its assignment,
/// which it shares. Contracts see it as the model's cluster of a picture.
#[derive(Drop)]
pub struct ShownCluster {
    pub number: Gen,
    pub name: Name,
    pub hosts: ChosenHosts,
    /// Whether Envoy, or an extension of it, finds the host of each connection by itself.
    pub elsewhere: bool,
    /// What is known of its secrets.
    pub secrets: Secrets,
}

impl Model for ShownCluster {
    ghost use Rattle.ev_model.specs.declared.pictures.ServedCluster.{ServedCluster};

    ghost Value = { ServedCluster };

    ghost view = { λ c. record {
      number = c.number;
      name = c.name;
      hosts = c.hosts;
      elsewhere = c.elsewhere;
      secrets = c.secrets;
    } };
}

impl TryCopy for ShownCluster {
    fn copy(&self, alloc: Global) -> Result<ShownCluster, AllocError> {
        Ok(ShownCluster {
            number: self.number,
            name: self.name.copy(alloc)?,
            hosts: self.hosts.copy(alloc)?,
            elsewhere: self.elsewhere,
            secrets: self.secrets,
        })
    }
}

impl PartialEq for ShownCluster {
    ghost use Rattle.std.specs.Cmp.{decided, partial_equiv_from_equiv};
    ghost use Rattle.ev_model.specs.Picture.{served_cluster_same, served_cluster_decides};

    ghost eq = { served_cluster_same };

    ghost laws = { partial_equiv_from_equiv (decided served_cluster_same served_cluster_decides) };

    fn eq(&self, other: &ShownCluster) -> bool {
        self.number == other.number
            && self.name == other.name
            && self.hosts == other.hosts
            && self.elsewhere == other.elsewhere
            && self.secrets == other.secrets
    }
}

impl Eq for ShownCluster {
    ghost use Rattle.std.specs.Cmp.{decided};
    ghost use Rattle.ev_model.specs.Picture.{served_cluster_same, served_cluster_decides};

    ghost laws = { decided served_cluster_same served_cluster_decides };
}
