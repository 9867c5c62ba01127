//! Signs beyond ASCII that are pasted into a text.

ghost use Rattle.std.specs.Prelude.{◌≡◌, slice_index};
ghost use Rattle.help.specs.Pasted as spec;

use crate::near_bytes::byte_at;

/// What a sign beyond ASCII stands for.
#[derive(Clone, Copy, Debug, PartialEq, Eq)]
pub enum Pasted {
    AtMost,
    AtLeast,
    Unequal,
    Times,
    Minus,
    Divided,
    Becomes,
    And,
    Or,
    Not,
    /// A curly quotation mark.
    Quote,
    /// A space at which no line is broken.
    Space,
    /// The mark at the front of a text in UTF-8.
    ByteOrder,
    /// The mark at the front of a text in UTF-16.
    Wide,
}

/// What is said of such a sign.
pub fn pasted_text(sign: Pasted) -> &'static [u8]
    ensures { result.now ≡ spec.pasted_text sign }
{
    match sign {
        Pasted::AtMost => b"this sign is no ASCII: write \"<=\"",
        Pasted::AtLeast => b"this sign is no ASCII: write \">=\"",
        Pasted::Unequal => b"this sign is no ASCII: write \"<>\"",
        Pasted::Times => b"this sign is no ASCII: write \"*\"",
        Pasted::Minus => b"this sign is no ASCII: write \"-\"",
        Pasted::Divided => b"this sign is no ASCII: write \"div\"",
        Pasted::Becomes => b"this sign is no ASCII: write \":=\"",
        Pasted::And => b"this sign is no ASCII: write \"and\"",
        Pasted::Or => b"this sign is no ASCII: write \"or\"",
        Pasted::Not => b"this sign is no ASCII: write \"not\"",
        Pasted::Quote =>
            b"this is a curly quotation mark: a program has no texts, and a comment takes the plain marks ' and \"",
        Pasted::Space => b"this is a no-break space: write a plain space",
        Pasted::ByteOrder =>
            b"this is a byte order mark: save the file without it, as UTF-8 without BOM",
        Pasted::Wide => b"this file is in UTF-16: save it as UTF-8 without BOM",
    }
}

fn behind_194(second: u8) -> Option<Pasted>
    ensures { result ≡ spec.behind_194 second }
{
    match second {
        160 => Some(Pasted::Space),
        172 => Some(Pasted::Not),
        183 => Some(Pasted::Times),
        _ => None,
    }
}

fn behind_195(second: u8) -> Option<Pasted>
    ensures { result ≡ spec.behind_195 second }
{
    match second {
        151 => Some(Pasted::Times),
        183 => Some(Pasted::Divided),
        _ => None,
    }
}

fn behind_226_128(third: u8) -> Option<Pasted>
    ensures { result ≡ spec.behind_226_128 third }
{
    match third {
        147 | 148 => Some(Pasted::Minus),
        152 | 153 | 156 | 157 => Some(Pasted::Quote),
        175 => Some(Pasted::Space),
        _ => None,
    }
}

fn behind_226_136(third: u8) -> Option<Pasted>
    ensures { result ≡ spec.behind_226_136 third }
{
    match third {
        146 => Some(Pasted::Minus),
        167 => Some(Pasted::And),
        168 => Some(Pasted::Or),
        _ => None,
    }
}

fn behind_226_137(third: u8) -> Option<Pasted>
    ensures { result ≡ spec.behind_226_137 third }
{
    match third {
        160 => Some(Pasted::Unequal),
        164 => Some(Pasted::AtMost),
        165 => Some(Pasted::AtLeast),
        _ => None,
    }
}

fn behind_226(second: u8, third: u8) -> Option<Pasted>
    ensures { result ≡ spec.behind_226 second third }
{
    if second == 128 {
        behind_226_128(third)
    } else if second == 136 {
        behind_226_136(third)
    } else if second == 137 {
        behind_226_137(third)
    } else if second == 134 && third == 144 {
        Some(Pasted::Becomes)
    } else if second == 139 && third == 133 {
        Some(Pasted::Times)
    } else {
        None
    }
}

fn byte_order(first: u8, second: u8, third: u8) -> Option<Pasted>
    ensures { result ≡ spec.byte_order first second third }
{
    if first == 239 && second == 187 && third == 191 {
        Some(Pasted::ByteOrder)
    } else if (first == 255 && second == 254) || (first == 254 && second == 255) {
        Some(Pasted::Wide)
    } else {
        None
    }
}

fn sign_of(first: u8, second: u8, third: u8) -> Option<Pasted>
    ensures { result ≡ spec.sign_of first second third }
{
    if first == 194 {
        behind_194(second)
    } else if first == 195 {
        behind_195(second)
    } else if first == 226 {
        behind_226(second, third)
    } else {
        byte_order(first, second, third)
    }
}

/// The sign beyond ASCII that begins at a place, of those for which something else is written.
pub fn pasted_at(text: &[u8], at: u32) -> Option<Pasted>
    // It is exactly the sign that these bytes are in UTF-8, or the mark of byte order in UTF-16.
    ensures { result ≡ spec.pasted_at text.now at }
{
    let at = at as usize;
    sign_of(
        byte_at(text, at),
        byte_at(text, at + 1),
        byte_at(text, at + 2),
    )
}
