//! The header of a message, and the four words that it has.

ghost use Rattle.std.specs.Prelude.{◌≡◌};
ghost use Rattle.superstep_machine.specs.HeaderWords as spec;
ghost use Rattle.superstep_machine.specs.Words.{bit as bit_of};

use crate::key::{Key, rank};
use crate::mark::HeaderMark;
use pram_values::{Kind, Place};

/// What stands before the words of a message.
#[derive(Clone, Copy, Debug, PartialEq, Eq)]
pub struct MessageHeader {
    /// The least key that the sender noted.
    pub key: Option<Key>,
    /// What befell it.
    pub mark: HeaderMark,
    /// At a vote, whether it has an active processor.
    pub active: bool,
    /// To how many cells the message puts.
    pub puts: u32,
}

const HALF: u64 = 4_294_967_296;

fn place_class(place: Place) -> u64
    ensures { result ≡ spec.place_class place }
{
    match place {
        Place::All => 0,
        Place::Processor(_) => 1,
        Place::Cell(_) => 2,
    }
}

fn place_number(place: Place) -> u64
    ensures { result ≡ spec.place_number place }
{
    match place {
        Place::All => 0,
        Place::Processor(index) => index.cast_unsigned(),
        Place::Cell(cell) => u64::from(cell),
    }
}

fn mark_number(mark: HeaderMark) -> u64
    ensures { result ≡ spec.mark_number mark }
{
    match mark {
        HeaderMark::Clear => 0,
        HeaderMark::OutOfMemory => 1,
        HeaderMark::OutOfReserve => 2,
    }
}

fn bit(is_set: bool) -> u64
    ensures { result ≡ bit_of is_set }
{
    if is_set { 1 } else { 0 }
}

fn moment_word(key: Option<Key>) -> u64
    ensures { result ≡ spec.moment_word key }
{
    match key {
        None => 0,
        Some(key) => u64::from(key.count) + HALF * u64::from(key.position),
    }
}

fn place_word(key: Option<Key>) -> u64
    ensures { result ≡ spec.place_word key }
{
    match key {
        None => 0,
        Some(key) => place_number(key.place),
    }
}

fn line_of(key: Option<Key>) -> u32
    ensures { result ≡ spec.line_of key }
{
    match key {
        None => 0,
        Some(key) => key.line,
    }
}

fn key_bits(key: Option<Key>) -> u64
    ensures { result ≡ spec.key_bits key }
{
    match key {
        None => 0,
        Some(key) => {
            let kind = u64::from(rank(key.kind));
            let class = place_class(key.place);
            1 + 2 * bit(key.conflict) + 4 * kind + 32 * class
        }
    }
}

fn kind_of(number: u64) -> Kind
    ensures { result ≡ spec.kind_numbered number }
{
    match number {
        0 => Kind::Overflow,
        1 => Kind::DivideByZero,
        2 => Kind::OutOfRange,
        3 => Kind::TooWide,
        4 => Kind::ReadConflict,
        _ => Kind::WriteConflict,
    }
}

fn place_of(class: u64, number: u64) -> Place
    ensures { result ≡ spec.place_numbered class number }
{
    match class {
        0 => Place::All,
        1 => Place::Processor(number.cast_signed()),
        _ => Place::Cell((number % HALF) as u32),
    }
}

fn mark_of(number: u64) -> HeaderMark
    ensures { result ≡ spec.mark_numbered number }
{
    match number {
        0 => HeaderMark::Clear,
        2 => HeaderMark::OutOfReserve,
        _ => HeaderMark::OutOfMemory,
    }
}

fn key_of(words: [u64; 4]) -> Key
    ensures { result ≡ spec.read_key words }
{
    let bits = words[3];
    Key {
        count: (words[0] % HALF) as u32,
        position: (words[0] / HALF) as u32,
        conflict: bits / 2 % 2 == 1,
        place: place_of(bits / 32 % 4, words[1]),
        kind: kind_of(bits / 4 % 8),
        line: (words[2] % HALF) as u32,
    }
}

impl MessageHeader {
    /// Its four words. Those of a header that says nothing are 0.
    pub fn to_words(self) -> [u64; 4]
        // The four words are those that the definition gives the header.
        ensures { result ≡ spec.header_words self }
    {
        let line = u64::from(line_of(self.key));
        let bits = key_bits(self.key);
        [
            moment_word(self.key),
            place_word(self.key),
            line + HALF * u64::from(self.puts),
            bits + 128 * mark_number(self.mark) + 512 * bit(self.active),
        ]
    }

    /// The header that any four words are.
    pub fn from_words(words: [u64; 4]) -> MessageHeader
        // Any four words are a header, the one that the definition reads in them.
        ensures { result ≡ spec.read_header words }
    {
        let bits = words[3];
        MessageHeader {
            key: if bits % 2 == 1 {
                Some(key_of(words))
            } else {
                None
            },
            mark: mark_of(bits / 128 % 4),
            active: bits / 512 % 2 == 1,
            puts: (words[2] / HALF) as u32,
        }
    }
}
