ghost use Rattle.std.specs.Prelude.{◌≡◌, fold};
ghost use Rattle.std.specs.List.{flat_map};
ghost use Rattle.ev_expand.specs.Keys.{row_hash_input, discovery_hash_input};

use ev_types::{Cluster, Discovery, HostRow, Name, Seq, Text, TryCopy};
use std::alloc::{AllocError, Global};
use std::hash::{Hash, Hasher};

/// What is guarded: a cluster as it was read, its name included, the text of its body and the secrets that it waits
/// for left out, and the names that it refers to. Guarded items of equal keys have one number.
#[derive(Drop)]
pub struct Key {
    pub cluster: Cluster,
    pub names: Seq<Name>,
}

impl Key {
    ghost use Rattle.std.specs.Prelude.{◌≡◌, IfOk};
    ghost use Rattle.ev_expand.specs.Keys.{key_with};

    /// The key of a cluster that refers to these names.
    ///
    /// # Errors
    /// `AllocError` where there is no memory for it.
    pub fn of(alloc: Global, cluster: &Cluster, names: Seq<Name>) -> Result<Key, AllocError>
        ensures { IfOk result (λ key. key ≡ key_with cluster.now names) }
    {
        Ok(Key {
            cluster: Cluster {
                name: cluster.name.copy(alloc)?,
                discovery: cluster.discovery.copy(alloc)?,
                checked: cluster.checked,
                secrets: Seq::new(alloc),
                secrets_by_match: None,
                body_text: Text::from_string(String::new(alloc)),
            },
            names,
        })
    }
}

impl PartialEq for Key {
    ghost use Rattle.std.specs.Cmp.{decided, partial_equiv_from_equiv};
    ghost use Rattle.ev_expand.specs.Keys.{key_same, key_decides};

    ghost eq = { key_same };

    ghost laws = { partial_equiv_from_equiv (decided key_same key_decides) };

    fn eq(&self, other: &Key) -> bool {
        self.cluster == other.cluster && self.names == other.names
    }
}

impl Eq for Key {
    ghost use Rattle.std.specs.Cmp.{decided};
    ghost use Rattle.ev_expand.specs.Keys.{key_same, key_decides};

    ghost laws = { decided key_same key_decides };
}

impl Hash for Key {
    ghost use Rattle.std.proofs.Common.{ap};
    ghost use Rattle.ev_expand.specs.Keys.{key_hash_input, key_decides};

    ghost hash_input = { key_hash_input };

    ghost respects_eq = { λ a b same. ap key_hash_input ((key_decides a b).0 same) };

    fn hash<H: Hasher>(&self, state: &mut H) {
        self.cluster.name.hash(state);
        hash_discovery(&self.cluster.discovery, state);
        self.cluster.checked.hash(state);
        Name::hash_slice(self.names.as_slice(), state);
    }
}

// Feeds a discovery, with all its hosts: many contents under one name are apart. Whether endpoints have to come anew
// is fed to nothing, since it is one for all clusters of a script.
fn hash_discovery<H: Hasher>(discovery: &Discovery, state: &mut H)
    ensures { state.new ≡ fold H.write state.old (discovery_hash_input discovery.now) }
{
    match discovery {
        Discovery::Static(assignment) => hash_rows(assignment.get().rows(), state),
        Discovery::Eds {
            service,
            limited,
            ..
        } => {
            service.hash(state);
            limited.hash(state);
        }
        Discovery::Elsewhere => {}
    }
}

// Feeds the rows in order.
fn hash_rows<H: Hasher>(rows: &[HostRow], state: &mut H)
    ensures { state.new ≡ fold H.write state.old (flat_map row_hash_input rows.now) }
{
    for row in rows {
        hash_row(row, state);
    }
}

// Feeds a row.
fn hash_row<H: Hasher>(row: &HostRow, state: &mut H)
    ensures { state.new ≡ fold H.write state.old (row_hash_input row.now) }
{
    row.host.hash(state);
    row.weight.hash(state);
    row.priority.hash(state);
    row.usable.hash(state);
}
