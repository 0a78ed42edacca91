use crate::names::Row;
use ev_hosts::ShownCluster;
use ev_types::Gen;

impl Row for ShownCluster {
    ghost use Rattle.ev_model.specs.Picture.{served_cluster_same};
    ghost use Rattle.ev_model.specs.declared.pictures.ServedCluster.{ServedCluster};

    ghost number_of = { λ (c : ServedCluster). c.number };

    ghost name_of = { λ (c : ServedCluster). c.name };

    ghost same = { served_cluster_same };

    fn number(&self) -> Gen {
        self.number
    }

    fn name(&self) -> &str {
        self.name.as_str()
    }

    fn is_same(&self, other: &ShownCluster) -> bool {
        *self == *other
    }
}
