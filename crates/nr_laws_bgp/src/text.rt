//! Laws of the text of prefixes.

ghost use Rattle.std.specs.Prelude.{◌≡◌, ◌≤◌, ◌<◌, ◌^◌, ◌++◌, ◌∷◌, ℕ, List, Some};
ghost use Rattle.std.specs.Fmt.{decimal};
ghost use Rattle.nr_spec_bgp.specs.Prefixes.{Cidr, IsCidr, masked};
ghost use Rattle.nr_spec_bgp.specs.PrefixText.{address_text, cidr_text, cidr_in};

/// The text of a prefix reads as that prefix.
pub fn prefix_text_is_read()
    ensures { (p : Cidr) → IsCidr p → cidr_in (cidr_text p) ≡ Some p }
{}

/// Only the text of an address and a length is read, and as the prefix of that address.
pub fn read_text_is_a_prefix()
    ensures { (text : List ℕ) (p : Cidr) → cidr_in text ≡ Some p
        → (addr : ℕ) × (len : ℕ) × (addr < 2 ^ 32) × (len ≤ 32)
        × (text ≡ address_text addr ++ 47 ∷ decimal len) × (p ≡ masked addr len) }
{}
