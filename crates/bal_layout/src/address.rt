//! What addresses are: laws that say what the geometry's calls give.
ghost use Rattle.std.specs.Prelude.{◌≡◌, ℕ, ◌<◌};
ghost use Rattle.bal_layout.specs.Addresses.{address_in, card_of, offset_of, region_of};
ghost use Rattle.bal_layout.specs.Regions.{region_of_card};
ghost use Rattle.bal_layout.specs.Shape.{Shape, IsShape};

/// An address is a region and a place in it, and each way back is exact. No card lies in two regions, so that a region's
/// cards can be cleaned with it.
pub fn an_address_is_a_region_and_an_offset()
    ensures region { (s : Shape) (region offset : ℕ) → offset < s.words → region_of s (address_in s region offset) ≡ region }
    ensures offset { (s : Shape) (region offset : ℕ) → offset < s.words → offset_of s (address_in s region offset) ≡ offset }
    ensures address { (s : Shape) (address : ℕ) → address_in s (region_of s address) (offset_of s address) ≡ address }
    ensures card { (s : Shape) (a b : ℕ) → IsShape s → card_of a ≡ card_of b → region_of s a ≡ region_of s b }
    ensures region_of_card { (s : Shape) (a : ℕ) → IsShape s → region_of_card s (card_of a) ≡ region_of s a }
{}
