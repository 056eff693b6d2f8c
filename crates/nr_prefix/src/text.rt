//! The text of a prefix: `a.b.c.d/l`.

ghost use Rattle.std.specs.Prelude.{◌≡◌, ◌<◌, ◌≤◌, ◌-◌, ◌++◌, length, IfSome, OnOk, OnErr, option_map};
ghost use Rattle.std.specs.Fmt.{decimal};
ghost use Rattle.nr_spec_bgp.specs.PrefixText.{cidr_in, cidr_text, numeral, digits_len, number_in, behind, address_in};

use crate::prefix::Prefix;
use nr_bytes::{Memory, put_bytes};

// The value of a digit.
fn digit(c: u8) -> u32
    ensures { result ≡ c - 48 }
{
    u32::from(c.saturating_sub(b'0'))
}

// The number that one to three digits write.
fn numeral(digits: &[u8]) -> Option<u32>
    ensures { result ≡ numeral digits.now }
{
    match digits {
        [a] => Some(digit(*a)),
        [b'0', ..] => None,
        [a, b] => Some(digit(*a) * 10 + digit(*b)),
        [a, b, c] => Some(digit(*a) * 100 + digit(*b) * 10 + digit(*c)),
        _ => None,
    }
}

// How many digits stand in front of the text.
fn digits_len(text: &[u8]) -> usize
    ensures value { result ≡ digits_len text.now }
    ensures bound { result ≤ length text.now }
{
    text.iter().take_while(|c| c.is_ascii_digit()).count()
}

// The number, of at most this value, that the digits in front of the text write, and what stands after
// them.
#[tactic(auto, unfolding(nr_spec_bgp::specs::PrefixText::number_in))]
fn number_in(most: u32, text: &[u8]) -> Option<(u32, &[u8])>
    ensures value { option_map (λ x. (x.0, x.1.now)) result ≡ number_in most text.now }
    ensures bound { IfSome result (λ x. x.0 ≤ most) }
{
    let (digits, rest) = text.split_at(digits_len(text));
    let n = numeral(digits)?;
    if n <= most { Some((n, rest)) } else { None }
}

// What stands after this byte in front of the text.
fn behind(byte: u8, text: &[u8]) -> Option<&[u8]>
    ensures { option_map (λ rest. rest.now) result ≡ behind byte text.now }
{
    match text {
        [first, rest @ ..] if *first == byte => Some(rest),
        _ => None,
    }
}

#[tactic(auto, unfolding(nr_spec_bgp::specs::PrefixText::address_in))]
fn address_in(text: &[u8]) -> Option<(u32, &[u8])>
    ensures { option_map (λ x. (x.0, x.1.now)) result ≡ address_in text.now }
{
    let (a, text) = number_in(255, text)?;
    let text = behind(b'.', text)?;
    let (b, text) = number_in(255, text)?;
    let text = behind(b'.', text)?;
    let (c, text) = number_in(255, text)?;
    let text = behind(b'.', text)?;
    let (d, text) = number_in(255, text)?;
    Some(((a << 24) + (b << 16) + (c << 8) + d, text))
}

#[tactic(auto, unfolding(nr_spec_bgp::specs::PrefixText::cidr_in))]
fn cidr_in(text: &[u8]) -> Option<Prefix>
    ensures { result ≡ cidr_in text.now }
{
    let (addr, text) = address_in(text)?;
    let text = behind(b'/', text)?;
    let (len, text) = number_in(32, text)?;
    if text.is_empty() {
        Prefix::new(addr, len as u8)
    } else {
        None
    }
}

impl Prefix {
    /// The prefix that the text `a.b.c.d/l` writes, in decimal numbers of at most 255 and 32 without
    /// leading zeros. Bits after the length are left out. `None` for any other text.
    pub fn parse(text: &[u8]) -> Option<Prefix>
        ensures { result ≡ cidr_in text.now }
    {
        cidr_in(text)
    }

    /// Appends the text `a.b.c.d/l`. `Memory` leaves the vector as it was.
    pub fn write(&self, out: &mut Vec<u8>) -> Result<(), Memory>
        ensures ok { OnOk result (out.new.items ≡ out.old.items ++ cidr_text self.now) }
        ensures memory { OnErr result (out.new.items ≡ out.old.items) }
    {
        let alloc = *out.allocator();
        let len = self.len();
        let a = self.addr() >> 24;
        let b = (self.addr() >> 16) % 256;
        let c = (self.addr() >> 8) % 256;
        let d = self.addr() % 256;
        let text = format!(in alloc; "{a}.{b}.{c}.{d}/{len}")?;
        put_bytes(out, text.as_bytes())
    }
}
