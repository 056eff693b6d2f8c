//! Numbers, addresses, prefixes and communities, from the whole text of a token. No number has a leading
//! zero.

ghost use Rattle.std.specs.Prelude.{◌≡◌, ◌≤◌, ◌<◌, ◌==◌, length, position, IfSome};
ghost use Rattle.std.specs.List.{list_all};
ghost use Rattle.std.specs.Char.{is_ascii_digit};
ghost use Rattle.nr_spec_rules.specs.Figures as spec;
ghost use Rattle.nr_rule_tokens.specs.Views.{parts_of};

use hex::FromHex;

fn all_digits(text: &[u8]) -> bool
    ensures { result ≡ list_all is_ascii_digit text.now }
{
    text.iter().all(|b| b.is_ascii_digit())
}

fn is_numeral(text: &[u8]) -> bool
    ensures { result ≡ spec.is_numeral text.now }
{
    match text {
        [] => false,
        [first, more @ ..] => all_digits(text) && (*first != b'0' || more.is_empty()),
    }
}

// The number that the text is, if it is at most `most`.
#[tactic(auto, unfolding(nr_spec_rules::specs::Figures::number_to))]
fn number_to(most: u32, text: &[u8]) -> Option<u32>
    ensures value { result ≡ spec.number_to most text.now }
    ensures bound { IfSome result (λ n. n ≤ most) }
{
    if !is_numeral(text) {
        return None;
    }
    let mut n: u64 = 0;
    for digit in text {
        n = 10 * n + u64::from(digit.saturating_sub(b'0'));
        if n > u64::from(most) {
            return None;
        }
    }
    Some(n as u32)
}

fn place_of(byte: u8, text: &[u8]) -> Option<usize>
    ensures value { result ≡ position (λ b. b == byte) text.now }
    ensures within { IfSome result (λ at. at < length text.now) }
{
    text.iter().position(|b| *b == byte)
}

// What stands before the first such byte, and what after it.
#[tactic(auto, unfolding(nr_spec_rules::specs::Figures::cut))]
fn cut(byte: u8, text: &[u8]) -> Option<(&[u8], &[u8])>
    ensures { parts_of result ≡ spec.cut byte text.now }
{
    let at = place_of(byte, text)?;
    Some((&text[..at], &text[at + 1..]))
}

/// `a`, a number below 2^32.
#[tactic(auto, unfolding(nr_spec_rules::specs::Figures::number_of))]
pub fn number(text: &[u8]) -> Option<u32>
    ensures { result ≡ spec.number_of text.now }
{
    number_to(u32::MAX, text)
}

/// `a.b.c.d`, as a number of 32 bits.
#[tactic(auto, unfolding(nr_spec_rules::specs::Figures::address_of))]
pub fn address(text: &[u8]) -> Option<u32>
    ensures { result ≡ spec.address_of text.now }
{
    let (a, behind_a) = cut(b'.', text)?;
    let (b, behind_b) = cut(b'.', behind_a)?;
    let (c, d) = cut(b'.', behind_b)?;
    let first = number_to(255, a)?;
    let second = number_to(255, b)?;
    let third = number_to(255, c)?;
    let fourth = number_to(255, d)?;
    Some(((first * 256 + second) * 256 + third) * 256 + fourth)
}

/// `a.b.c.d/l`: the address as it is written, and the length.
#[tactic(auto, unfolding(nr_spec_rules::specs::Figures::prefix_of))]
pub fn prefix(text: &[u8]) -> Option<(u32, u8)>
    ensures value { result ≡ spec.prefix_of text.now }
    ensures bound { IfSome result (λ p. p.1 ≤ 32) }
{
    let (before, behind) = cut(b'/', text)?;
    let addr = address(before)?;
    let len = number_to(32, behind)?;
    Some((addr, len as u8))
}

/// `a:b`, as one number of 32 bits (RFC 1997).
#[tactic(auto, unfolding(nr_spec_rules::specs::Figures::community_of))]
pub fn community(text: &[u8]) -> Option<u32>
    ensures { result ≡ spec.community_of text.now }
{
    let (before, behind) = cut(b':', text)?;
    let high = number_to(65535, before)?;
    let low = number_to(65535, behind)?;
    Some(high * 65536 + low)
}

/// `#` and 64 hexadecimal digits, as 32 bytes.
pub fn root(text: &[u8]) -> Option<[u8; 32]>
    ensures { result ≡ spec.digest_of text.now }
{
    match text {
        [] => None,
        [_, digits @ ..] => <[u8; 32] as FromHex>::from_hex(digits).ok(),
    }
}
