//! Sets of prefixes.

ghost use Rattle.std.specs.Prelude.{◌≡◌, map};
ghost use Rattle.std.specs.List.{list_any};
ghost use Rattle.nr_spec_bgp.specs.Prefixes.{is_in, fits};
ghost use Rattle.nr_prefix.specs.Views.{pattern_of, set_of};

use crate::prefix::Prefix;

/// The prefixes that one covers, up to a greatest length.
#[derive(Clone, Copy, Debug, PartialEq, Eq)]
pub struct Pattern {
    pub prefix: Prefix,
    pub most: u8,
}

impl Pattern {
    fn has(&self, p: &Prefix) -> bool
        ensures { result ≡ fits p.now (pattern_of self.now) }
    {
        self.prefix.covers(p) && p.len() <= self.most
    }
}

// Whether some pattern has the prefix.
fn has_any(patterns: &[Pattern], p: &Prefix) -> bool
    ensures { result ≡ list_any (λ w. fits p.now (pattern_of w)) patterns.now }
{
    patterns.iter().any(|pattern| pattern.has(p))
}

/// Whether the prefix fits one of the patterns.
#[tactic(auto, using(crate::proofs::Sets::any_of_map))]
pub fn contains(patterns: &[Pattern], p: &Prefix) -> bool
    ensures { result ≡ is_in (map pattern_of patterns.now) p.now }
{
    has_any(patterns, p)
}

/// A set of prefixes, written as patterns.
#[derive(Debug, Drop)]
pub struct PrefixSet {
    pub patterns: Vec<Pattern>,
}

impl PrefixSet {
    /// Whether the prefix fits one of the patterns.
    pub fn contains(&self, p: &Prefix) -> bool
        ensures { result ≡ is_in (set_of self.now) p.now }
    {
        contains(&self.patterns, p)
    }
}
