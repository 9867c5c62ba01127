//! Messages.

ghost use Rattle.std.specs.Prelude.{◌≡◌, map, Some, None};
ghost use Rattle.std.specs.Option.{option_map};
ghost use Rattle.help.specs.Messages as spec;

use std::alloc::Global;

/// A place of a text: a byte of it, by its offset, or a line alone, counted from 1.
#[derive(Clone, Copy, Debug, Drop, PartialEq, Eq)]
pub enum Point {
    Byte(usize),
    Line(usize),
}

/// A second place of a message, by its offset: what the sentence speaks of begins there, or ends there.
#[derive(Clone, Copy, Debug, Drop, PartialEq, Eq)]
pub enum Other {
    Begins(usize),
    Ends(usize),
}

/// What there is to say of a refusal. Sentences are one line each, without its end.
#[derive(Drop)]
pub struct Message {
    /// The place that it is about.
    pub place: Option<Point>,
    /// What it says. It is empty where there is nothing to say.
    pub sentence: Vec<u8>,
    /// A second sentence, or nothing.
    pub more: Vec<u8>,
    /// A second place, of which the sentence speaks.
    pub other: Option<Other>,
    /// What could stand where the refusal is, if that is known.
    pub expected: Vec<Vec<u8>>,
    /// The name that was meant, if one is near.
    pub meant: Option<Vec<u8>>,
}

impl Message {
    /// A sentence about a place.
    pub fn said(alloc: Global, place: Option<Point>, sentence: Vec<u8>) -> Message
        ensures { spec.message_is result ≡ spec.said place sentence.items }
    {
        Message {
            place,
            sentence,
            more: Vec::new(alloc),
            other: None,
            expected: Vec::new(alloc),
            meant: None,
        }
    }

    /// Nothing to say.
    pub fn nothing(alloc: Global) -> Message
        ensures { spec.message_is result ≡ spec.nothing }
    {
        Message::said(alloc, None, Vec::new(alloc))
    }

    /// The message with a second sentence.
    pub fn with_more(self, more: Vec<u8>) -> Message
        ensures { spec.message_is result ≡ spec.with_more (spec.message_is self) more.items }
    {
        let mut message = self;
        message.more = more;
        message
    }

    /// The message with a second place.
    pub fn with_other(self, other: Other) -> Message
        ensures { spec.message_is result ≡ spec.with_other (spec.message_is self) other }
    {
        let mut message = self;
        message.other = Some(other);
        message
    }

    /// The message with what could stand where the refusal is.
    pub fn with_expected(self, expected: Vec<Vec<u8>>) -> Message
        ensures { spec.message_is result
            ≡ spec.with_expected (spec.message_is self) (map (λ v. v.items) expected.items) }
    {
        let mut message = self;
        message.expected = expected;
        message
    }

    /// The message with the name that was meant.
    pub fn with_meant(self, meant: Option<Vec<u8>>) -> Message
        ensures { spec.message_is result
            ≡ spec.with_meant (spec.message_is self) (option_map (λ v. v.items) meant) }
    {
        let mut message = self;
        message.meant = meant;
        message
    }
}
