ghost use Rattle.std.specs.Prelude.{◌≡◌, ◌≤◌, ◌<◌};
ghost use Rattle.ev_types.specs.Ips.{ip_of, width, first_bits, range_within};

use std::net::IpAddr;
use std::str::FromStr;

/// An IP address, by its bits. An IPv4 address that is mapped into IPv6 is an IPv6 one.
#[derive(Clone, Copy, Debug)]
pub enum Ip {
    V4(u32),
    V6(u128),
}

impl Ip {
    /// The address that a text writes, as `IpAddr::from_str` takes it:
    /// IPv4 by four decimal numbers without leading zeros, IPv6 by RFC 4291 without a zone.
    /// There is none where the text writes none.
    #[tactic(auto, using(crate::proofs::IpLemmas::none_is_read))]
    pub fn read(text: &str) -> Option<Ip>
        ensures { result ≡ ip_of text.now }
    {
        match IpAddr::from_str(text) {
            Ok(IpAddr::V4(address)) => Some(Ip::V4(address.to_bits())),
            Ok(IpAddr::V6(address)) => Some(Ip::V6(address.to_bits())),
            Err(_) => None,
        }
    }
}

impl PartialEq for Ip {
    ghost use Rattle.std.specs.Cmp.{decided, partial_equiv_from_equiv};
    ghost use Rattle.ev_types.specs.Ips.{ip_same, ip_decides};

    ghost eq = { ip_same };

    ghost laws = { partial_equiv_from_equiv (decided ip_same ip_decides) };

    fn eq(&self, other: &Ip) -> bool {
        match (self, other) {
            (Ip::V4(bits), Ip::V4(other)) => *bits == *other,
            (Ip::V6(bits), Ip::V6(other)) => *bits == *other,
            _ => false,
        }
    }
}

impl Eq for Ip {
    ghost use Rattle.std.specs.Cmp.{decided};
    ghost use Rattle.ev_types.specs.Ips.{ip_same, ip_decides};

    ghost laws = { decided ip_same ip_decides };
}

/// The IP addresses that begin with the same bits.
#[derive(Clone, Copy, Debug)]
pub struct CidrRange {
    /// How many bits count, from the first on: at most 32 of IPv4, at most 128 of IPv6.
    pub prefix_len: u8,
    /// These bits, as a number.
    pub prefix: Ip,
}

impl CidrRange {
    /// The range of the addresses that have the first bits of this one. There is none where the address has fewer bits.
    pub fn about(ip: Ip, length: u32) -> Option<CidrRange>
        ensures { result ≡ range_within ip length }
    {
        let width = match ip {
            Ip::V4(_) => 32,
            Ip::V6(_) => 128,
        };
        if length > width {
            return None;
        }
        Some(CidrRange {
            prefix_len: length as u8,
            prefix: first_bits(ip, length),
        })
    }
}

// The first bits of an address.
fn first_bits(ip: Ip, length: u32) -> Ip
    requires { length ≤ width ip }
    ensures { result ≡ first_bits length ip }
{
    match ip {
        Ip::V4(_) if length == 0 => Ip::V4(0),
        Ip::V4(bits) => Ip::V4(bits >> (32 - length)),
        Ip::V6(_) if length == 0 => Ip::V6(0),
        Ip::V6(bits) => Ip::V6(bits >> (128 - length)),
    }
}

impl PartialEq for CidrRange {
    ghost use Rattle.std.specs.Cmp.{decided, partial_equiv_from_equiv};
    ghost use Rattle.ev_types.specs.Ips.{cidr_range_same, cidr_range_decides};

    ghost eq = { cidr_range_same };

    ghost laws = { partial_equiv_from_equiv (decided cidr_range_same cidr_range_decides) };

    fn eq(&self, other: &CidrRange) -> bool {
        self.prefix_len == other.prefix_len && self.prefix == other.prefix
    }
}

impl Eq for CidrRange {
    ghost use Rattle.std.specs.Cmp.{decided};
    ghost use Rattle.ev_types.specs.Ips.{cidr_range_same, cidr_range_decides};

    ghost laws = { decided cidr_range_same cidr_range_decides };
}
