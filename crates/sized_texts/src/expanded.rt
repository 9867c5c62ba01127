//! A text of the language, and where its bytes came from.

ghost use Rattle.std.specs.Prelude.{◌≡◌, ◌++◌, ◌∷◌, [], decimal, map, OnOk};

use itoa::Buffer;
use std::alloc::{AllocError, Global};

/// A text of the language, and for each of its bytes the offset in the text with sizes that it came from.
#[derive(Drop)]
pub struct Expanded {
    pub text: Vec<u8>,
    pub places: Vec<u32>,
}

/// Puts a byte behind a text.
pub(crate) fn add_byte(to: &mut Expanded, byte: u8, place: u32) -> Result<(), AllocError>
    ensures text { OnOk result (to.new.text.items ≡ to.old.text.items ++ byte ∷ []) }
    ensures places { OnOk result (to.new.places.items ≡ to.old.places.items ++ place ∷ []) }
{
    to.text.push(byte)?;
    to.places.push(place)?;
    Ok(())
}

// Puts bytes behind a text, all of them from one place.
fn add_bytes(to: &mut Expanded, bytes: &[u8], place: u32) -> Result<(), AllocError>
    ensures text { OnOk result (to.new.text.items ≡ to.old.text.items ++ bytes.now) }
    ensures places { OnOk result (to.new.places.items ≡ to.old.places.items ++ map (λ _. place) bytes.now) }
{
    for byte in bytes {
        add_byte(to, *byte, place)?;
    }
    Ok(())
}

/// Puts a number behind a text.
pub(crate) fn add_number(to: &mut Expanded, value: u64, place: u32) -> Result<(), AllocError>
    ensures text { OnOk result (to.new.text.items ≡ to.old.text.items ++ decimal value) }
    ensures places { OnOk result (to.new.places.items ≡ to.old.places.items ++ map (λ _. place) (decimal value)) }
{
    let mut digits = Buffer::new();
    add_bytes(to, digits.format(value).as_bytes(), place)
}

/// A text of no bytes.
pub(crate) fn nothing(alloc: Global) -> Expanded
    ensures text { result.text.items ≡ [] }
    ensures places { result.places.items ≡ [] }
{
    Expanded {
        text: Vec::new(alloc),
        places: Vec::new(alloc),
    }
}
