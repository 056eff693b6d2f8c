//! Numbers in the words of the command line.

ghost use Rattle.std.specs.Prelude.{◌≡◌, ◌≤◌, IsTrue, IfSome, option_map};
ghost use Rattle.std.specs.Str.{all_ascii_digits};
ghost use Rattle.std.specs.Str.Parse.{digits_value};
ghost use Rattle.nr_spec_commands.specs.Words.{is_decimal, number_in, number_from, period_between};
ghost use Rattle.nr_evidence.specs.Views.{period_of};

use nr_evidence::Period;

// The greatest number that a word may write.
const MOST_NUMBER: u64 = 9_223_372_036_854_775_807;

/// The greatest number of an AS.
pub const MOST_ASN: u64 = 4_294_967_295;

fn are_digits(word: &[u8]) -> bool
    ensures { result ≡ all_ascii_digits word.now }
{
    for byte in word {
        if !byte.is_ascii_digit() {
            return false;
        }
    }
    true
}

// One to nineteen decimal digits.
fn is_decimal_word(word: &str) -> bool
    ensures { result ≡ is_decimal word.now }
{
    1 <= word.len() && word.len() <= 19 && are_digits(word.as_bytes())
}

// The number that digits write, of which there are too few to pass the greatest `u64`.
fn value_of(word: &str) -> u64
    requires { IsTrue (is_decimal word.now) }
    ensures { result ≡ digits_value 10 word.now }
{
    match word.parse::<u64>() {
        Ok(value) => value,
        Err(_) => unreachable!(),
    }
}

/// The number that a word writes: one to nineteen decimal digits, and at most 9,223,372,036,854,775,807.
pub fn number_of(word: &str) -> Option<u64>
    ensures { result ≡ number_in word.now }
{
    if !is_decimal_word(word) {
        return None;
    }
    let value = value_of(word);
    if MOST_NUMBER < value {
        return None;
    }
    Some(value)
}

/// The number that a word writes, where it isn't below the least nor above the most.
pub fn number_between(least: u64, most: u64, word: &str) -> Option<u64>
    ensures value { result ≡ number_from least most word.now }
    ensures least { IfSome result (λ n. least ≤ n) }
    ensures most { IfSome result (λ n. n ≤ most) }
{
    let n = number_of(word)?;
    if n < least || most < n {
        return None;
    }
    Some(n)
}

/// The period from one number to another that isn't below it.
pub fn period_from(from: u64, to: u64) -> Option<Period>
    ensures { option_map period_of result ≡ period_between from to }
{
    if to < from {
        return None;
    }
    Some(Period { from, to })
}
