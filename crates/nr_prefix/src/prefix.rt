//! Prefixes.

ghost use Rattle.std.specs.Prelude.{◌≡◌, ◌<◌, ◌≤◌, IfSome, is_some, nat_le, true};
ghost use Rattle.std.specs.Cmp.{partial_order_from_own_ties};
ghost use Rattle.std.specs.Cmp.Rules.{comparing};
ghost use Rattle.std.specs.Ordering.{MatchOrdering, as_partial_cmp};
ghost use Rattle.std.proofs.Common.{rules};
ghost use Rattle.nr_spec_bgp.specs.Prefixes.{IsCidr, front, masked, covers, comes_before};
ghost use Rattle.nr_prefix.specs.Order.{by_address};

use std::cmp::Ordering;
use std::marker::Model;

/// An IPv4 address and how many of its bits count (RFC 4632, section 3.1). The bits after the length are 0.
#[derive(Clone, Copy, Debug, PartialEq, Eq)]
pub struct Prefix {
    addr: u32,
    len: u8,
}

impl Model for Prefix {
    ghost use Rattle.nr_spec_bgp.specs.Prefixes.{Cidr, IsCidr};

    ghost Value = { Cidr };

    ghost view = { λ p. record { addr = p.addr; len = p.len } };

    ghost invariant = { λ p. IsCidr (record { addr = p.addr; len = p.len }) };

    ghost inverse = { λ c. record { addr = c.addr; len = c.len } };
}

// The first `len` bits of an address, as a number.
fn front(addr: u32, len: u8) -> u32
    requires { len ≤ 32 }
    ensures { result ≡ front addr len }
{
    if len == 0 { 0 } else { addr >> (32 - len) }
}

// The address with the bits after the length set to 0.
fn masked(addr: u32, len: u8) -> u32
    requires { len ≤ 32 }
    ensures { result ≡ (masked addr len).addr }
{
    if len == 0 {
        0
    } else {
        front(addr, len) << (32 - len)
    }
}

impl Prefix {
    /// The prefix of an address. Bits after the length are left out. `None` exactly where the length is
    /// above 32.
    #[tactic(auto, using(crate::proofs::Masking::masked_is_cidr))]
    pub fn new(addr: u32, len: u8) -> Option<Prefix>
        ensures some { IfSome result (λ p. p ≡ masked addr len) }
        ensures taken { is_some result ≡ nat_le len 32 }
    {
        if len > 32 {
            return None;
        }
        Some(Prefix {
            addr: masked(addr, len),
            len,
        })
    }

    /// The address.
    pub fn addr(&self) -> u32
        ensures { result ≡ self.now.addr }
    {
        self.addr
    }

    /// How many bits of the address count.
    pub fn len(&self) -> u8
        ensures value { result ≡ self.now.len }
        ensures bound { result ≤ 32 }
        ensures cidr { IsCidr self.now }
    {
        self.len
    }

    /// Whether the other is at least as long as this one and agrees in the bits of this one.
    pub fn covers(&self, other: &Prefix) -> bool
        ensures { result ≡ covers self.now other.now }
    {
        self.len <= other.len && front(other.addr, self.len) == front(self.addr, self.len)
    }
}

/// By address, then by length.
impl Ord for Prefix {
    ghost cmp = { by_address };

    ghost total = { Prim.search (comparing, rules) };

    ghost matches_partial_cmp = { Prim.search (comparing, rules) };

    ghost matches_eq = { Prim.search (comparing, rules) };

    fn cmp(&self, other: &Prefix) -> Ordering
        ensures value { result ≡ by_address self.now other.now }
        ensures order { MatchOrdering result (comes_before self.now other.now ≡ true) (self.now ≡ other.now)
            (comes_before other.now self.now ≡ true) }
    {
        self.addr.cmp(&other.addr).then(self.len.cmp(&other.len))
    }
}

impl PartialOrd for Prefix {
    ghost partial_cmp = { as_partial_cmp by_address };

    ghost laws = { partial_order_from_own_ties (Prim.search (comparing, rules)) (Prim.search (comparing, rules)) };

    fn partial_cmp(&self, other: &Prefix) -> Option<Ordering> {
        Some(self.cmp(other))
    }
}
