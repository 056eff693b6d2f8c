//! The text of a prefix in a promise file, and by itself.

ghost use Rattle.std.specs.Prelude.{◌≡◌, ◌<◌, ◌≤◌, ◌^◌, ℕ, List, Some};
ghost use Rattle.nr_spec_bgp.specs.Prefixes.{Cidr, masked};
ghost use Rattle.nr_spec_bgp.specs.PrefixText.{cidr_in};
ghost use Rattle.nr_spec_rules.specs.Figures.{prefix_of};

/// What a promise file takes for an address and a length is the text of the prefix of that address.
pub fn prefix_of_a_promise_is_a_prefix_text()
    ensures { (text : List ℕ) (addr len : ℕ) → prefix_of text ≡ Some (addr, len)
        → (cidr_in text ≡ Some (masked addr len)) × (addr < 2 ^ 32) × (len ≤ 32) }
{}

/// Each text of a prefix is taken in a promise file, as an address of that prefix and its length.
pub fn prefix_text_is_a_prefix_of_a_promise()
    ensures { (text : List ℕ) (p : Cidr) → cidr_in text ≡ Some p
        → (addr : ℕ) × (len : ℕ) × (prefix_of text ≡ Some (addr, len)) × (p ≡ masked addr len) }
{}
