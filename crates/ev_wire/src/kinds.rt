ghost use Rattle.std.specs.Prelude.{◌≡◌};
ghost use Rattle.ev_wire.specs.Kinds.{is_read, read_in, kind_with, name_field};

use ev_types::{Kind, Profile};

// Whether a profile reads this kind of resource: secrets and extensions are read as Envoy reads them alone.
fn is_read(profile: Profile, kind: Kind) -> bool
    ensures { result ≡ is_read profile kind }
{
    match kind {
        Kind::Cds | Kind::Eds | Kind::Lds | Kind::Rds => true,
        Kind::Sds | Kind::Ecds => profile.is_envoy(),
    }
}

/// A kind of resource, where the profile reads it.
pub fn read_in(profile: Profile, kind: Kind) -> Option<Kind>
    ensures { result ≡ read_in profile kind }
{
    if is_read(profile, kind) {
        Some(kind)
    } else {
        None
    }
}

/// The kind of resource that has this type URL, or none for a type that the profile doesn't read.
pub fn kind_with(profile: Profile, url: &str) -> Option<Kind>
    ensures { result ≡ kind_with profile url.now }
{
    match Kind::of_url(url) {
        Some(kind) => read_in(profile, kind),
        None => None,
    }
}

/// The field with a resource's own name.
pub fn name_field(kind: Kind) -> &'static str
    ensures { result.now ≡ name_field kind }
{
    match kind {
        Kind::Cds | Kind::Lds | Kind::Rds | Kind::Sds | Kind::Ecds => "name",
        Kind::Eds => "cluster_name",
    }
}
