//! The values of an input.

ghost use Rattle.pram_meaning.specs.Values.{AreValues};

/// They have 64 bits: that is known of a value which is read.
pub(crate) fn have_64_bits(input: &[i64])
    ensures { AreValues input.now }
{
    'values: for place in 0..input.len() {
        let _value = input[place];
    }
}
