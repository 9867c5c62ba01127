//! A printer of C texts that stops at the first failure of its writer.

ghost use Rattle.std.specs.Prelude.{◌≡◌, ◌<◌, ◌++◌, codes, length, map, slice_get, IfSome, None, Some};
ghost use Rattle.std.specs.List.{flat_map};
ghost use Rattle.text_out.specs.Printing.{Prints, printing};
ghost use Rattle.mpi_export.specs.Program as spec;

use crate::exchange_text::{EXCHANGE, HELD, JOINS, MODULE, SENDING};
use crate::opening_text::{INPUT, MEMORY, OPENING, OPTIONS};
use crate::run_text::{OUTCOME, RUN, START};
use crate::state_text::{FAULTS, HEAD, STATE, VALUES};
use itoa::Buffer;
use pram_model::{Layout, Rule};
use superstep_instructions::{Code, Instr};
use superstep_listing::{letter, numbers, stem};
use text_out::Out;

/// Prints until its writer fails, and then nothing more.
#[derive(Drop)]
pub(crate) struct Printer<'a, W: Out> {
    pub(crate) out: &'a mut W,
    pub(crate) failed: bool,
}

impl<'a, W: Out> Printer<'a, W> {
    pub(crate) fn text(&mut self, text: &[u8])
        ensures same_out { self.new.out.ghost_name ≡ self.old.out.ghost_name }
        ensures prints { Prints (printing (W.Out.state self.old.out.now) self.old.failed)
            (printing (W.Out.state self.new.out.now) self.new.failed)
            (text.now) }
    {
        if !self.failed {
            self.failed = self.out.write_all(text).is_err();
        }
    }

    /// A number in C.
    pub(crate) fn number(&mut self, number: i64)
        ensures same_out { self.new.out.ghost_name ≡ self.old.out.ghost_name }
        ensures prints { Prints (printing (W.Out.state self.old.out.now) self.old.failed)
            (printing (W.Out.state self.new.out.now) self.new.failed)
            (spec.c_number number) }
    {
        let mut buffer = Buffer::new();
        if number < 0 {
            self.text(b"~");
            self.text(buffer.format(-(number + 1)).as_bytes());
        } else {
            self.text(buffer.format(number).as_bytes());
        }
    }

    /// The definition of a number.
    fn definition(&mut self, name: &[u8], number: u32)
        ensures same_out { self.new.out.ghost_name ≡ self.old.out.ghost_name }
        ensures prints { Prints (printing (W.Out.state self.old.out.now) self.old.failed)
            (printing (W.Out.state self.new.out.now) self.new.failed)
            (spec.definition name.now number) }
    {
        let mut buffer = Buffer::new();
        self.text(b"#define ");
        self.text(name);
        self.text(b" ");
        self.text(buffer.format(number).as_bytes());
        self.text(b"\n");
    }

    fn rule(&mut self, rule: Rule)
        ensures same_out { self.new.out.ghost_name ≡ self.old.out.ghost_name }
        ensures prints { Prints (printing (W.Out.state self.old.out.now) self.old.failed)
            (printing (W.Out.state self.new.out.now) self.new.failed)
            (spec.rule_definition rule) }
    {
        self.text(b"\n#define RULE rule_");
        self.text(rule.word().as_bytes());
        self.text(b"\n");
    }

    fn cell(&mut self, name: &[u8])
        ensures same_out { self.new.out.ghost_name ≡ self.old.out.ghost_name }
        ensures prints { Prints (printing (W.Out.state self.old.out.now) self.old.failed)
            (printing (W.Out.state self.new.out.now) self.new.failed)
            (spec.declared name.now None) }
    {
        self.text(b"    {entry_cell, \"");
        self.text(name);
        self.text(b"\", 0, 0},\n");
    }

    fn array(&mut self, name: &[u8], low: i64, high: i64)
        ensures same_out { self.new.out.ghost_name ≡ self.old.out.ghost_name }
        ensures prints { Prints (printing (W.Out.state self.old.out.now) self.old.failed)
            (printing (W.Out.state self.new.out.now) self.new.failed)
            (spec.declared name.now (Some (low, high))) }
    {
        self.text(b"    {entry_array, \"");
        self.text(name);
        self.text(b"\", ");
        self.number(low);
        self.text(b", ");
        self.number(high);
        self.text(b"},\n");
    }

    /// The row of a declaration.
    fn entry(&mut self, layout: &Layout, i: usize)
        requires { i < length layout.now }
        ensures same_out { self.new.out.ghost_name ≡ self.old.out.ghost_name }
        ensures prints { IfSome (slice_get layout.now i) (λ e.
            Prints (printing (W.Out.state self.old.out.now) self.old.failed)
            (printing (W.Out.state self.new.out.now) self.new.failed)
            (spec.entry_row e)) }
    {
        match layout.bounds(i) {
            None => self.cell(layout.name(i)),
            Some((low, high)) => self.array(layout.name(i), low, high),
        }
    }

    fn entries(&mut self, layout: &Layout)
        ensures same_out { self.new.out.ghost_name ≡ self.old.out.ghost_name }
        ensures prints { Prints (printing (W.Out.state self.old.out.now) self.old.failed)
            (printing (W.Out.state self.new.out.now) self.new.failed)
            (flat_map spec.entry_row layout.now) }
    {
        for i in 0..layout.len() {
            self.entry(layout, i);
        }
    }

    fn operands(&mut self, numbers: &[i64])
        ensures same_out { self.new.out.ghost_name ≡ self.old.out.ghost_name }
        ensures prints { Prints (printing (W.Out.state self.old.out.now) self.old.failed)
            (printing (W.Out.state self.new.out.now) self.new.failed)
            (flat_map spec.operand numbers.now) }
    {
        for number in numbers {
            self.text(b", ");
            self.number(*number);
        }
    }

    /// The row of an instruction.
    fn instr(&mut self, instr: Instr)
        ensures same_out { self.new.out.ghost_name ≡ self.old.out.ghost_name }
        ensures prints { Prints (printing (W.Out.state self.old.out.now) self.old.failed)
            (printing (W.Out.state self.new.out.now) self.new.failed)
            (spec.instr_row instr) }
    {
        self.text(b"    {op_");
        self.text(letter(instr));
        self.text(stem(instr));
        let (operands, count) = numbers(instr);
        self.operands(&operands[..count]);
        self.text(b"},\n");
    }

    fn instrs(&mut self, instrs: &[Instr])
        ensures same_out { self.new.out.ghost_name ≡ self.old.out.ghost_name }
        ensures prints { Prints (printing (W.Out.state self.old.out.now) self.old.failed)
            (printing (W.Out.state self.new.out.now) self.new.failed)
            (flat_map spec.instr_row instrs.now) }
    {
        for instr in instrs {
            self.instr(*instr);
        }
    }

    /// The rule, the processors and the declarations.
    pub(crate) fn declarations(&mut self, code: &Code)
        ensures same_out { self.new.out.ghost_name ≡ self.old.out.ghost_name }
        ensures prints { Prints (printing (W.Out.state self.old.out.now) self.old.failed)
            (printing (W.Out.state self.new.out.now) self.new.failed)
            (spec.declarations code.now) }
    {
        self.rule(code.rule());
        self.definition(b"PROCS", code.procs());
        self.text(b"\nstatic const struct entry entries[] = {\n");
        self.entries(code.layout());
        self.text(b"    {entry_end, \"\", 0, 0}\n};\n\n");
    }

    /// The numbers of registers, and the instructions.
    fn instructions(&mut self, code: &Code)
        ensures same_out { self.new.out.ghost_name ≡ self.old.out.ghost_name }
        ensures prints { Prints (printing (W.Out.state self.old.out.now) self.old.failed)
            (printing (W.Out.state self.new.out.now) self.new.failed)
            (spec.instructions code.now) }
    {
        self.definition(b"UNIFORM", code.uniform_registers());
        self.definition(b"PRIVATE", code.private_registers());
        self.text(b"\nstatic const int64_t plan[][5] = {\n");
        self.instrs(code.instructions());
        self.text(b"};\n");
    }

    /// What stands behind the plan.
    fn runtime(&mut self)
        ensures same_out { self.new.out.ghost_name ≡ self.old.out.ghost_name }
        ensures prints { Prints (printing (W.Out.state self.old.out.now) self.old.failed)
            (printing (W.Out.state self.new.out.now) self.new.failed)
            spec.runtime }
    {
        self.text(&STATE);
        self.text(&FAULTS);
        self.text(&VALUES);
        self.text(&EXCHANGE);
        self.text(&JOINS);
        self.text(&HELD);
        self.text(&SENDING);
        self.text(&MODULE);
        self.text(&OPTIONS);
        self.text(&INPUT);
        self.text(&MEMORY);
        self.text(&OPENING);
        self.text(&OUTCOME);
        self.text(&RUN);
        self.text(&START);
    }

    /// All of it.
    pub(crate) fn program(&mut self, code: &Code)
        ensures same_out { self.new.out.ghost_name ≡ self.old.out.ghost_name }
        ensures prints { Prints (printing (W.Out.state self.old.out.now) self.old.failed)
            (printing (W.Out.state self.new.out.now) self.new.failed)
            (spec.c_text code.now) }
    {
        self.text(&HEAD);
        self.declarations(code);
        self.instructions(code);
        self.runtime();
    }
}
