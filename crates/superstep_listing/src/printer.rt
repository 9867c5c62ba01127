//! A printer of lines that stops at the first failure of its writer.

ghost use Rattle.std.specs.Prelude.{◌≡◌, ◌<◌, ◌++◌, ◌∷◌, [], codes, length, map, slice_get, IfSome, None, Some, ◌≤◌};
ghost use Rattle.std.specs.Fmt.{signed_decimal};
ghost use Rattle.std.specs.List.{flat_map};
ghost use Rattle.text_out.specs.Printing.{Prints, printing};
ghost use Rattle.superstep_instructions.specs.Limits.{most_instructions};
ghost use Rattle.superstep_listing.specs.Listing.{ended, entry_line, entry_words, field_words, head_lines, instr_lines, instr_words, line};
ghost use Rattle.superstep_listing.specs.Listing.{spelling};
ghost use Rattle.superstep_listing.specs.Cutting.{spaced};

use crate::spell::{letter, numbers, stem};
use itoa::Buffer;
use pram_model::{Layout, Rule};
use superstep_instructions::{Code, Instr};
use text_out::Out;

/// Prints until its writer fails, and then nothing more.
#[derive(Drop)]
pub(crate) struct Printer<'a, W: Out> {
    pub(crate) out: &'a mut W,
    pub(crate) failed: bool,
}

impl<'a, W: Out> Printer<'a, W> {
    fn text(&mut self, text: &[u8])
        ensures same_out { self.new.out.ghost_name ≡ self.old.out.ghost_name }
        ensures prints { Prints (printing (W.Out.state self.old.out.now) self.old.failed)
            (printing (W.Out.state self.new.out.now) self.new.failed)
            (text.now) }
    {
        if !self.failed {
            self.failed = self.out.write_all(text).is_err();
        }
    }

    fn number(&mut self, number: i64)
        ensures same_out { self.new.out.ghost_name ≡ self.old.out.ghost_name }
        ensures prints { Prints (printing (W.Out.state self.old.out.now) self.old.failed)
            (printing (W.Out.state self.new.out.now) self.new.failed)
            (signed_decimal number) }
    {
        let mut buffer = Buffer::new();
        self.text(buffer.format(number).as_bytes());
    }

    /// Numbers, each behind a space.
    fn numbers(&mut self, numbers: &[i64])
        ensures same_out { self.new.out.ghost_name ≡ self.old.out.ghost_name }
        ensures prints { Prints (printing (W.Out.state self.old.out.now) self.old.failed)
            (printing (W.Out.state self.new.out.now) self.new.failed)
            (spaced numbers.now) }
    {
        for number in numbers {
            self.text(b" ");
            self.number(*number);
        }
    }

    /// A line of a word and a number.
    fn field(&mut self, name: &[u8], number: u32)
        ensures same_out { self.new.out.ghost_name ≡ self.old.out.ghost_name }
        ensures prints { Prints (printing (W.Out.state self.old.out.now) self.old.failed)
            (printing (W.Out.state self.new.out.now) self.new.failed)
            (line (field_words name.now number) ++ 10 ∷ []) }
    {
        self.text(name);
        self.text(b" ");
        self.number(number as i64);
        self.text(b"\n");
    }

    /// The line of a declaration.
    fn entry(&mut self, layout: &Layout, i: usize)
        requires { i < length layout.now }
        ensures same_out { self.new.out.ghost_name ≡ self.old.out.ghost_name }
        ensures prints { IfSome (slice_get layout.now i) (λ e.
            Prints (printing (W.Out.state self.old.out.now) self.old.failed)
            (printing (W.Out.state self.new.out.now) self.new.failed)
            (entry_line e ++ 10 ∷ [])) }
    {
        match layout.bounds(i) {
            None => self.cell(layout.name(i)),
            Some((low, high)) => self.array(layout.name(i), low, high),
        }
    }

    fn cell(&mut self, name: &[u8])
        ensures same_out { self.new.out.ghost_name ≡ self.old.out.ghost_name }
        ensures prints { Prints (printing (W.Out.state self.old.out.now) self.old.failed)
            (printing (W.Out.state self.new.out.now) self.new.failed)
            (line (entry_words name.now None) ++ 10 ∷ []) }
    {
        self.text(b"cell ");
        self.text(name);
        self.text(b"\n");
    }

    fn array(&mut self, name: &[u8], low: i64, high: i64)
        ensures same_out { self.new.out.ghost_name ≡ self.old.out.ghost_name }
        ensures prints { Prints (printing (W.Out.state self.old.out.now) self.old.failed)
            (printing (W.Out.state self.new.out.now) self.new.failed)
            (line (entry_words name.now (Some (low, high))) ++ 10 ∷ []) }
    {
        self.text(b"array ");
        self.text(name);
        self.text(b" ");
        self.number(low);
        self.text(b" ");
        self.number(high);
        self.text(b"\n");
    }

    /// The lines of the declarations.
    fn entries(&mut self, layout: &Layout)
        ensures same_out { self.new.out.ghost_name ≡ self.old.out.ghost_name }
        ensures prints { Prints (printing (W.Out.state self.old.out.now) self.old.failed)
            (printing (W.Out.state self.new.out.now) self.new.failed)
            (ended (map entry_line layout.now)) }
    {
        for i in 0..layout.len() {
            self.entry(layout, i);
        }
    }

    /// The line of an instruction.
    fn instr(&mut self, place: u32, instr: Instr)
        ensures same_out { self.new.out.ghost_name ≡ self.old.out.ghost_name }
        ensures prints { Prints (printing (W.Out.state self.old.out.now) self.old.failed)
            (printing (W.Out.state self.new.out.now) self.new.failed)
            (line (instr_words place instr) ++ 10 ∷ []) }
    {
        self.number(place as i64);
        self.text(b" ");
        self.text(letter(instr));
        self.text(stem(instr));
        let (operands, count) = numbers(instr);
        self.numbers(&operands[..count]);
        self.text(b"\n");
    }

    /// The lines of the instructions.
    fn instrs(&mut self, instrs: &[Instr])
        requires few { length instrs.now ≤ most_instructions }
        ensures same_out { self.new.out.ghost_name ≡ self.old.out.ghost_name }
        ensures prints { Prints (printing (W.Out.state self.old.out.now) self.old.failed)
            (printing (W.Out.state self.new.out.now) self.new.failed)
            (ended (instr_lines 0 instrs.now)) }
    {
        for (place, instr) in instrs.iter().enumerate() {
            self.instr(place as u32, *instr);
        }
    }

    /// The lines before the declarations.
    fn head(&mut self, rule: Rule, procs: u32)
        ensures same_out { self.new.out.ghost_name ≡ self.old.out.ghost_name }
        ensures prints { Prints (printing (W.Out.state self.old.out.now) self.old.failed)
            (printing (W.Out.state self.new.out.now) self.new.failed)
            (ended (head_lines rule procs)) }
    {
        self.text(b"bsp 1\nrule ");
        self.text(rule.word().as_bytes());
        self.text(b"\n");
        self.field(b"procs", procs);
    }

    /// All the lines.
    pub(crate) fn code(&mut self, code: &Code)
        ensures same_out { self.new.out.ghost_name ≡ self.old.out.ghost_name }
        ensures prints { Prints (printing (W.Out.state self.old.out.now) self.old.failed)
            (printing (W.Out.state self.new.out.now) self.new.failed)
            (spelling code.now) }
    {
        let instrs = code.instructions();
        self.head(code.rule(), code.procs());
        self.entries(code.layout());
        self.field(b"uniform", code.uniform_registers());
        self.field(b"private", code.private_registers());
        self.field(b"code", instrs.len() as u32);
        self.instrs(instrs);
    }
}
