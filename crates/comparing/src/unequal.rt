//! The first place at which two lists of values differ.

ghost use Rattle.std.specs.Prelude.{◌≡◌, ◌+◌, ◌<◌, ◌^◌, IfSome, slice_get};
ghost use Rattle.comparing.specs.Unequal as spec;
ghost use Rattle.comparing.specs.Unequal.{unequals};

/// What two lists have at a place, counted from where one begins in each: a value, or none where a list is over.
#[derive(Clone, Copy)]
pub struct Beside {
    pub place: u64,
    pub first: Option<i64>,
    pub second: Option<i64>,
}

fn value_at(values: &[i64], place: usize) -> Option<i64>
    ensures { result ≡ slice_get values.now place }
{
    values.get(place).copied()
}

fn is_same(first: Option<i64>, second: Option<i64>) -> bool
    ensures { result ≡ spec.same_value first second }
{
    match (first, second) {
        (Some(first), Some(second)) => first == second,
        (None, None) => true,
        (Some(_), None) | (None, Some(_)) => false,
    }
}

/// The first of `count` places at which two lists differ, where one begins with the place `first_start` of the one and `second_start`
/// of the other.
pub(crate) fn first_unequal(
    first: &[i64],
    first_start: usize,
    second: &[i64],
    second_start: usize,
    count: usize,
) -> Option<Beside>
    requires first_fits { first_start + count < 2 ^ 64 }
    requires second_fits { second_start + count < 2 ^ 64 }
    ensures unequal { result ≡ slice_get (unequals first.now first_start second.now second_start count) 0 }
    ensures within { IfSome result (λ b. b.place < count) }
{
    for place in 0..count {
        let one = value_at(first, first_start + place);
        let other = value_at(second, second_start + place);
        if !is_same(one, other) {
            return Some(Beside {
                place: place as u64,
                first: one,
                second: other,
            });
        }
    }
    None
}
