ghost use Rattle.ev_model_laws.specs.VersionsKept.{KeepsVersions};

/// A law of the machine: of each kind and name at most one version is kept, and the versions are in the order of their
/// names, after any entries. It does nothing.
pub fn versions_are_kept_once()
    ensures { KeepsVersions }
{}
