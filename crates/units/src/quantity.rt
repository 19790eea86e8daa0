// The order of levels, currents and times: each is compared by its number.
ghost use Rattle.std.specs.Prelude.{◌≡◌, Bool, ◌&&◌, cond, ℕ, leb, ltb, min, max, ℤ};
ghost use Rattle.std.specs.Int.Signed.{le_z, lt_z};
ghost use Rattle.std.specs.Ordering.{partial_le, partial_lt, ord_min, ord_max};
ghost use Rattle.std.proofs.Common.{rules};
ghost use Rattle.units.specs.Comparisons.{within_is, from_to_is, higher_is, lower_is};
ghost use Rattle.units.specs.Range.{within, from_to, higher, lower};

use crate::{Milliamps, Millis, Millivolts};

pub trait Quantity: Ord + Copy {
    ghost at_most: { Self → Self → Bool };

    ghost below: { Self → Self → Bool };

    // Its number, and what a range, the lesser and the greater are of the numbers.
    ghost Number: { Type 0 };

    ghost number: { Self → Number };

    ghost inside: { Number → Number → Number → Bool };

    ghost lesser: { Number → Number → Number };

    ghost greater: { Number → Number → Number };

    // `<=`, `<`, `min` and `max` go by the numbers.
    ghost at_most_is: { (a b : Self) → partial_le Self.partial_cmp a b ≡ at_most a b };

    ghost below_is: { (a b : Self) → partial_lt Self.partial_cmp a b ≡ below a b };

    ghost lesser_is: { (a b : Self) → ord_min Self.cmp a b ≡ cond (at_most a b) a b };

    ghost greater_is: { (a b : Self) → ord_max Self.cmp a b ≡ cond (at_most a b) b a };

    // `within`, `min` and `max` give what is said of the numbers.
    ghost inside_is: { (from to x : Self) → inside (number from) (number to) (number x) ≡ (partial_le Self.partial_cmp from x && partial_le Self.partial_cmp x to) };

    ghost lesser_number: { (a b : Self) → number (ord_min Self.cmp a b) ≡ lesser (number a) (number b) };

    ghost greater_number: { (a b : Self) → number (ord_max Self.cmp a b) ≡ greater (number a) (number b) };

    // From one end to the other; the ends belong.
    final fn within(self, from: Self, to: Self) -> bool
        ensures ends_belong { result ≡ (at_most from self && at_most self to) }
        ensures in_range { result ≡ inside (number from) (number to) (number self) }
    {
        from <= self && self <= to
    }
}

impl Quantity for Millivolts {
    ghost at_most = { λ low high. le_z low.0 high.0 };

    ghost below = { λ low high. lt_z low.0 high.0 };

    ghost Number = { ℤ };

    ghost number = { λ level. level.0 };

    ghost inside = { within };

    ghost lesser = { λ level other. lower level other };

    ghost greater = { λ level other. higher level other };

    ghost at_most_is = { Prim.search rules };

    ghost below_is = { Prim.search rules };

    ghost lesser_is = { Prim.search rules };

    ghost greater_is = { Prim.search rules };

    ghost inside_is = { Prim.search (rules, within_is) };

    ghost lesser_number = { Prim.search (rules, lower_is) };

    ghost greater_number = { Prim.search (rules, higher_is) };
}

impl Quantity for Milliamps {
    ghost at_most = { λ less more. leb less.0 more.0 };

    ghost below = { λ less more. ltb less.0 more.0 };

    ghost Number = { ℕ };

    ghost number = { λ current. current.0 };

    ghost inside = { from_to };

    ghost lesser = { λ current other. min current other };

    ghost greater = { λ current other. max current other };

    ghost at_most_is = { Prim.search rules };

    ghost below_is = { Prim.search rules };

    ghost lesser_is = { Prim.search rules };

    ghost greater_is = { Prim.search rules };

    ghost inside_is = { Prim.search (rules, from_to_is) };

    ghost lesser_number = { Prim.search rules };

    ghost greater_number = { Prim.search rules };
}

impl Quantity for Millis {
    ghost at_most = { λ early late. leb early.0 late.0 };

    ghost below = { λ early late. ltb early.0 late.0 };

    ghost Number = { ℕ };

    ghost number = { λ time. time.0 };

    ghost inside = { from_to };

    ghost lesser = { λ time other. min time other };

    ghost greater = { λ time other. max time other };

    ghost at_most_is = { Prim.search rules };

    ghost below_is = { Prim.search rules };

    ghost lesser_is = { Prim.search rules };

    ghost greater_is = { Prim.search rules };

    ghost inside_is = { Prim.search (rules, from_to_is) };

    ghost lesser_number = { Prim.search rules };

    ghost greater_number = { Prim.search rules };
}
