//! Texts that were read.

ghost use Rattle.std.specs.Prelude.{◌≡◌};
ghost use Rattle.diagnoses.specs.Sources as spec;

use sized_texts::Expanded;

// The greatest offset of 32 bits.
const LAST_OFFSET: usize = 4_294_967_295;

/// What a text is.
#[derive(Clone, Copy, Debug, PartialEq, Eq)]
pub enum Kind {
    Program,
    Input,
    Memory,
    Listing,
}

/// A text that was read: what it is, the name of its file, and all that the file holds.
#[derive(Drop)]
pub struct Source<'a> {
    pub kind: Kind,
    pub name: &'a str,
    pub bytes: Vec<u8>,
    /// The text that its sizes give. `None`: the text stands for itself.
    pub expansion: Option<Expanded>,
}

// The end of a text, as far as an offset of 32 bits can say it.
fn end_of(bytes: &[u8]) -> u32
    ensures { result ≡ spec.end_of bytes.now }
{
    bytes.len().min(LAST_OFFSET) as u32
}

// The place of a byte of an expansion, and at its end that of the text that it is of.
fn place_in(expansion: &Expanded, bytes: &[u8], at: u32) -> u32
    ensures { result ≡ spec.place_in expansion.now bytes.now at }
{
    let places = expansion.places.as_slice();
    if (at as usize) < places.len() {
        places[at as usize]
    } else {
        end_of(bytes)
    }
}

// The same, of a place that may lie behind all offsets of 32 bits.
fn far_place_in(expansion: &Expanded, bytes: &[u8], at: usize) -> usize
    ensures { result ≡ spec.place_in expansion.now bytes.now at }
{
    let places = expansion.places.as_slice();
    if at < places.len() {
        places[at] as usize
    } else {
        bytes.len().min(LAST_OFFSET)
    }
}

impl<'a> Source<'a> {
    /// The text that is judged: what the sizes of the file's text give, or that text itself.
    pub fn text(&self) -> &[u8]
        ensures value { result.now ≡ spec.text_in self.now }
    {
        match &self.expansion {
            None => self.bytes.as_slice(),
            Some(expansion) => expansion.text.as_slice(),
        }
    }

    /// The offset in the file from which the byte at an offset of the text that is judged came. At the end of that text, and behind it, it
    /// is the end of the file's text.
    pub fn origin(&self, at: u32) -> u32
        ensures value { result ≡ spec.origin self.now at }
    {
        match &self.expansion {
            None => at,
            Some(expansion) => place_in(expansion, self.bytes.as_slice(), at),
        }
    }

    /// The same, of any place.
    pub(crate) fn far_origin(&self, at: usize) -> usize
        ensures value { result ≡ spec.origin self.now at }
    {
        match &self.expansion {
            None => at,
            Some(expansion) => far_place_in(expansion, self.bytes.as_slice(), at),
        }
    }
}
