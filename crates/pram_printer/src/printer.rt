//! A printer of tokens that stops at the first failure of its writer.

ghost use Rattle.std.specs.Prelude.{◌≡◌, ◌++◌, ◌∷◌, []};
ghost use Rattle.pram_trees.specs.Grammar.{prefix_token};
ghost use Rattle.text_out.specs.Printing.{Prints, printing};
ghost use Rattle.pram_printer.specs.Spelling.{opening_text, spelled};

use crate::spell::{binary_text, mark_end, mark_text, opening_text};
use itoa::Buffer;
use pram_tokens::{Binary, Mark, Name, Numeral, Opening, Token};
use pram_trees::Prefix;
use text_out::Out;

/// Prints until its writer fails, and then nothing more.
#[derive(Drop)]
pub(crate) struct Printer<'a, W: Out> {
    pub(crate) out: &'a mut W,
    pub(crate) failed: bool,
}

impl<'a, W: Out> Printer<'a, W> {
    fn write(&mut self, text: &[u8])
        ensures same_out { self.new.out.ghost_name ≡ self.old.out.ghost_name }
        ensures prints { Prints (printing (W.Out.state self.old.out.now) self.old.failed)
            (printing (W.Out.state self.new.out.now) self.new.failed)
            (text.now) }
    {
        if !self.failed {
            self.failed = self.out.write_all(text).is_err();
        }
    }

    /// A token's bytes and the byte that follows them.
    pub(crate) fn put(&mut self, text: &[u8], end: u8)
        ensures same_out { self.new.out.ghost_name ≡ self.old.out.ghost_name }
        ensures prints { Prints (printing (W.Out.state self.old.out.now) self.old.failed)
            (printing (W.Out.state self.new.out.now) self.new.failed)
            (text.now ++ end ∷ []) }
    {
        self.write(text);
        self.write(&[end]);
    }

    pub(crate) fn mark(&mut self, mark: Mark)
        ensures same_out { self.new.out.ghost_name ≡ self.old.out.ghost_name }
        ensures prints { Prints (printing (W.Out.state self.old.out.now) self.old.failed)
            (printing (W.Out.state self.new.out.now) self.new.failed)
            (spelled (Token.Mark mark)) }
    {
        self.put(mark_text(mark), mark_end(mark));
    }

    pub(crate) fn opening(&mut self, opening: Opening)
        ensures same_out { self.new.out.ghost_name ≡ self.old.out.ghost_name }
        ensures prints { Prints (printing (W.Out.state self.old.out.now) self.old.failed)
            (printing (W.Out.state self.new.out.now) self.new.failed)
            (opening_text opening ++ 32 ∷ []) }
    {
        self.put(opening_text(opening), b' ');
    }

    pub(crate) fn binary(&mut self, op: Binary)
        ensures same_out { self.new.out.ghost_name ≡ self.old.out.ghost_name }
        ensures prints { Prints (printing (W.Out.state self.old.out.now) self.old.failed)
            (printing (W.Out.state self.new.out.now) self.new.failed)
            (spelled (Token.Binary op)) }
    {
        self.put(binary_text(op), b' ');
    }

    pub(crate) fn name(&mut self, name: &Name)
        ensures same_out { self.new.out.ghost_name ≡ self.old.out.ghost_name }
        ensures prints { Prints (printing (W.Out.state self.old.out.now) self.old.failed)
            (printing (W.Out.state self.new.out.now) self.new.failed)
            (spelled (Token.Name name.now)) }
    {
        self.put(name.text.as_slice(), b' ');
    }

    pub(crate) fn number(&mut self, number: Numeral)
        ensures same_out { self.new.out.ghost_name ≡ self.old.out.ghost_name }
        ensures prints { Prints (printing (W.Out.state self.old.out.now) self.old.failed)
            (printing (W.Out.state self.new.out.now) self.new.failed)
            (spelled (Token.Number number)) }
    {
        let mut buffer = Buffer::new();
        self.put(buffer.format(number.value).as_bytes(), b' ');
    }

    pub(crate) fn prefix(&mut self, prefix: Prefix)
        ensures same_out { self.new.out.ghost_name ≡ self.old.out.ghost_name }
        ensures prints { Prints (printing (W.Out.state self.old.out.now) self.old.failed)
            (printing (W.Out.state self.new.out.now) self.new.failed)
            (spelled (prefix_token prefix)) }
    {
        match prefix {
            Prefix::Not => self.put(b"not", b' '),
            Prefix::Negate => self.binary(Binary::Subtract),
        }
    }
}
