//! Places of faults, and their order.

ghost use Rattle.std.specs.Prelude.{◌≡◌, true, false};
ghost use Rattle.pram_values.specs.Place.{is_place_before};
ghost use Rattle.pram_values.specs.declared.place.Place as specification;

/// Where a statement faults.
#[derive(Clone, Copy, Debug, PartialEq, Eq)]
pub enum Place {
    /// Outside pardo, where one processor acts.
    All,
    /// At the processor of this index.
    Processor(i64),
    /// At the cell of this number.
    Cell(u32),
}

impl Place {
    /// Whether a fault here is told in place of one there, where both have one position.
    pub fn is_before(self, other: Place) -> bool
        ensures { result ≡ is_place_before self other }
    {
        match (self, other) {
            (_, Place::All) => false,
            (Place::All, _) => true,
            (Place::Processor(i), Place::Processor(j)) => i < j,
            (Place::Processor(_), Place::Cell(_)) => true,
            (Place::Cell(_), Place::Processor(_)) => false,
            (Place::Cell(c), Place::Cell(d)) => c < d,
        }
    }
}

/// Places are in a strict linear order.
#[tactic(auto, using(crate::proofs::PlaceOrder::never_before_itself, crate::proofs::PlaceOrder::before_is_passed_on, crate::proofs::PlaceOrder::one_is_before))]
pub fn place_order()
    // No place comes before itself.
    ensures irreflexive { (p : specification.Place) → is_place_before p p ≡ false }
    // A place before a second, which is before a third, is before the third.
    ensures transitive { (p q r : specification.Place) → is_place_before p q ≡ true → is_place_before q r ≡ true →
        is_place_before p r ≡ true }
    // Of two different places one comes before the other.
    ensures connected { (p q : specification.Place) → is_place_before p q ≡ false → is_place_before q p ≡ false → p ≡ q }
{}
