//! The printer of a plan for one memory.

ghost use Rattle.std.specs.Prelude.{◌≡◌, ◌<◌, ◌++◌, ◌&&◌, ◌^◌, not, [], codes, decimal, length, IfOk};
ghost use Rattle.std.specs.List.{flat_map, range_with_len};
ghost use Rattle.std.proofs.Common.{eqb};
ghost use Rattle.text_out.specs.Printing.{Prints, printing};
ghost use Rattle.mpi_export.specs.Alone as spec;
ghost use Rattle.mpi_export.specs.Loops as loops;
ghost use Rattle.mpi_export.specs.Loops.{has_column, has_index, rows_of};

use crate::alone_plan::AlonePlan;
use crate::alone_text::{
    ALONE_HEAD, ALONE_OPENING, ALONE_OPTIONS, ALONE_OUTCOME, ALONE_PUTS, ALONE_START, ALONE_STATE,
    ALONE_VALUES, ALONE_WORDS,
};
use crate::opening_text::{INPUT, MEMORY};
use crate::parts::{Part, parts};
use crate::printer::Printer;
use crate::row::Row;
use itoa::Buffer;
use superstep_instructions::Instr;
use superstep_listing::{letter, stem};
use text_out::Out;

// Whether a register of each processor is its index.
fn is_index(plan: &AlonePlan, register: u16) -> bool
    ensures { result ≡ (has_index plan.now && eqb register 1) }
{
    plan.index && register == 1
}

// Whether some loop takes over what one before it left in a register.
fn is_taken_over(plan: &AlonePlan, register: usize) -> bool
    ensures { result ≡ loops.is_taken_over plan.now register }
{
    match plan.columns.get(register).copied() {
        Some(is) => is,
        None => false,
    }
}

// Whether a register of each processor has a column.
fn is_column(plan: &AlonePlan, register: usize) -> bool
    ensures { result ≡ has_column plan.now register }
{
    !(plan.index && register == 1) && is_taken_over(plan, register)
}

// Whether a register of each processor is a variable of its loop.
fn is_variable(plan: &AlonePlan, register: u16) -> bool
    ensures { result ≡ spec.is_variable plan.now register }
{
    !is_index(plan, register) && !is_column(plan, register as usize)
}

// Whether a variable is declared where it is set.
fn declares(plan: &AlonePlan, fresh: bool, register: u16) -> bool
    ensures { result ≡ (fresh && spec.is_variable plan.now register) }
{
    fresh && is_variable(plan, register)
}

impl<'a, W: Out> Printer<'a, W> {
    // A letter and a number.
    fn name(&mut self, letter: &[u8], number: usize)
        ensures same_out { self.new.out.ghost_name ≡ self.old.out.ghost_name }
        ensures prints { Prints (printing (W.Out.state self.old.out.now) self.old.failed)
            (printing (W.Out.state self.new.out.now) self.new.failed)
            (letter.now ++ decimal number) }
    {
        let mut buffer = Buffer::new();
        self.text(letter);
        self.text(buffer.format(number).as_bytes());
    }

    fn of_each(&mut self, plan: &AlonePlan, register: u16)
        ensures same_out { self.new.out.ghost_name ≡ self.old.out.ghost_name }
        ensures prints { Prints (printing (W.Out.state self.old.out.now) self.old.failed)
            (printing (W.Out.state self.new.out.now) self.new.failed)
            (spec.of_each plan.now register) }
    {
        if is_index(plan, register) {
            self.text(b"me");
        } else if is_column(plan, register as usize) {
            self.name(b"c", register as usize);
            self.text(b"[i]");
        } else {
            self.name(b"r", register as usize);
        }
    }

    // A register that gets a result.
    fn into(&mut self, plan: &AlonePlan, fresh: bool, register: u16)
        ensures same_out { self.new.out.ghost_name ≡ self.old.out.ghost_name }
        ensures prints { Prints (printing (W.Out.state self.old.out.now) self.old.failed)
            (printing (W.Out.state self.new.out.now) self.new.failed)
            (spec.into_text plan.now fresh register) }
    {
        self.when(declares(plan, fresh, register), b"int64_t ");
        self.of_each(plan, register);
    }

    fn part(&mut self, plan: &AlonePlan, fresh: bool, part: Part)
        ensures same_out { self.new.out.ghost_name ≡ self.old.out.ghost_name }
        ensures prints { Prints (printing (W.Out.state self.old.out.now) self.old.failed)
            (printing (W.Out.state self.new.out.now) self.new.failed)
            (spec.part_text plan.now fresh part) }
    {
        match part {
            Part::Number(number) => self.number(number),
            Part::OfAll(register) => self.name(b"u", register as usize),
            Part::OfEach(register) => self.of_each(plan, register),
            Part::Into(register) => self.into(plan, fresh, register),
        }
    }

    // All operands but the first, each behind a comma.
    fn more_parts(&mut self, plan: &AlonePlan, fresh: bool, parts: &[Part])
        ensures same_out { self.new.out.ghost_name ≡ self.old.out.ghost_name }
        ensures prints { Prints (printing (W.Out.state self.old.out.now) self.old.failed)
            (printing (W.Out.state self.new.out.now) self.new.failed)
            (flat_map (spec.more_part plan.now fresh) parts.now) }
    {
        for part in parts {
            self.text(b", ");
            self.part(plan, fresh, *part);
        }
    }

    fn operands_of(&mut self, plan: &AlonePlan, fresh: bool, parts: &[Part])
        ensures same_out { self.new.out.ghost_name ≡ self.old.out.ghost_name }
        ensures prints { Prints (printing (W.Out.state self.old.out.now) self.old.failed)
            (printing (W.Out.state self.new.out.now) self.new.failed)
            (spec.parts_text plan.now fresh parts.now) }
    {
        if let [first, rest @ ..] = parts {
            self.part(plan, fresh, *first);
            self.more_parts(plan, fresh, rest);
        }
    }

    // The call of an instruction's word.
    fn call(&mut self, plan: &AlonePlan, fresh: bool, instr: Instr)
        ensures same_out { self.new.out.ghost_name ≡ self.old.out.ghost_name }
        ensures prints { Prints (printing (W.Out.state self.old.out.now) self.old.failed)
            (printing (W.Out.state self.new.out.now) self.new.failed)
            (spec.call_text plan.now fresh instr) }
    {
        self.text(b"    ");
        self.text(letter(instr));
        self.text(stem(instr));
        self.text(b"(");
        let (operands, count) = parts(instr);
        self.operands_of(plan, fresh, &operands[..count]);
        self.text(b")\n");
    }

    fn label(&mut self, is_target: bool, at: usize)
        ensures same_out { self.new.out.ghost_name ≡ self.old.out.ghost_name }
        ensures prints { Prints (printing (W.Out.state self.old.out.now) self.old.failed)
            (printing (W.Out.state self.new.out.now) self.new.failed)
            (spec.label is_target at) }
    {
        if is_target {
            self.name(b"L", at);
            self.text(b":;\n");
        }
    }

    fn when(&mut self, condition: bool, text: &[u8])
        ensures same_out { self.new.out.ghost_name ≡ self.old.out.ghost_name }
        ensures prints { Prints (printing (W.Out.state self.old.out.now) self.old.failed)
            (printing (W.Out.state self.new.out.now) self.new.failed)
            (spec.when condition text.now) }
    {
        if condition {
            self.text(text);
        }
    }

    // An instruction with what stands before it.
    fn row(&mut self, plan: &AlonePlan, at: usize, row: Row)
        ensures same_out { self.new.out.ghost_name ≡ self.old.out.ghost_name }
        ensures prints { Prints (printing (W.Out.state self.old.out.now) self.old.failed)
            (printing (W.Out.state self.new.out.now) self.new.failed)
            (spec.row_text plan.now at row) }
    {
        self.when(row.ends, b"    END\n");
        self.label(row.target, at);
        self.when(row.begins, b"    EACH\n");
        self.call(plan, row.fresh, row.instr);
    }

    fn rows(&mut self, plan: &AlonePlan)
        ensures same_out { self.new.out.ghost_name ≡ self.old.out.ghost_name }
        ensures prints { Prints (printing (W.Out.state self.old.out.now) self.old.failed)
            (printing (W.Out.state self.new.out.now) self.new.failed)
            (spec.rows_text plan.now 0 (rows_of plan.now)) }
    {
        let rows = plan.rows();
        for at in 0..rows.len() {
            self.row(plan, at, rows[at]);
        }
    }

    fn registers(&mut self, count: u32)
        ensures same_out { self.new.out.ghost_name ≡ self.old.out.ghost_name }
        ensures prints { Prints (printing (W.Out.state self.old.out.now) self.old.failed)
            (printing (W.Out.state self.new.out.now) self.new.failed)
            (flat_map spec.register_row (range_with_len 0 count)) }
    {
        for register in 0..count as usize {
            self.name(b"    REGISTER(u", register);
            self.text(b")\n");
        }
    }

    // The row of a register in the table of columns.
    fn number_row(&mut self, plan: &AlonePlan, register: usize)
        ensures same_out { self.new.out.ghost_name ≡ self.old.out.ghost_name }
        ensures prints { Prints (printing (W.Out.state self.old.out.now) self.old.failed)
            (printing (W.Out.state self.new.out.now) self.new.failed)
            (spec.number_row plan.now register) }
    {
        if is_column(plan, register) {
            self.name(b"    ", register);
            self.text(b",\n");
        }
    }

    fn numbers_of_columns(&mut self, plan: &AlonePlan)
        ensures same_out { self.new.out.ghost_name ≡ self.old.out.ghost_name }
        ensures prints { Prints (printing (W.Out.state self.old.out.now) self.old.failed)
            (printing (W.Out.state self.new.out.now) self.new.failed)
            (flat_map (spec.number_row plan.now) (range_with_len 0 plan.now.private_registers)) }
    {
        for register in 0..plan.code().private_registers() as usize {
            self.number_row(plan, register);
        }
    }

    // The declaration of a column.
    fn column_row(&mut self, plan: &AlonePlan, register: usize)
        ensures same_out { self.new.out.ghost_name ≡ self.old.out.ghost_name }
        ensures prints { Prints (printing (W.Out.state self.old.out.now) self.old.failed)
            (printing (W.Out.state self.new.out.now) self.new.failed)
            (spec.column_row plan.now register) }
    {
        if is_column(plan, register) {
            self.name(b"    COLUMN(c", register);
            self.name(b", ", register);
            self.text(b")\n");
        }
    }

    fn columns(&mut self, plan: &AlonePlan)
        ensures same_out { self.new.out.ghost_name ≡ self.old.out.ghost_name }
        ensures prints { Prints (printing (W.Out.state self.old.out.now) self.old.failed)
            (printing (W.Out.state self.new.out.now) self.new.failed)
            (flat_map (spec.column_row plan.now) (range_with_len 0 plan.now.private_registers)) }
    {
        for register in 0..plan.code().private_registers() as usize {
            self.column_row(plan, register);
        }
    }

    fn column_table(&mut self, plan: &AlonePlan)
        ensures same_out { self.new.out.ghost_name ≡ self.old.out.ghost_name }
        ensures prints { Prints (printing (W.Out.state self.old.out.now) self.old.failed)
            (printing (W.Out.state self.new.out.now) self.new.failed)
            (spec.column_table plan.now) }
    {
        self.text(b"static const size_t taken_over[] = {\n");
        self.numbers_of_columns(plan);
        self.text(b"    no_column\n};\n");
    }

    fn plan_rows(&mut self, plan: &AlonePlan)
        ensures same_out { self.new.out.ghost_name ≡ self.old.out.ghost_name }
        ensures prints { Prints (printing (W.Out.state self.old.out.now) self.old.failed)
            (printing (W.Out.state self.new.out.now) self.new.failed)
            (spec.plan_rows plan.now) }
    {
        self.text(b"\n/* ---- The plan */\nstatic enum status run(void) {\n");
        self.registers(plan.code().uniform_registers());
        self.columns(plan);
        self.rows(plan);
        self.text(b"}\n");
    }

    // What stands between the tables and the plan.
    fn alone_runtime(&mut self)
        ensures same_out { self.new.out.ghost_name ≡ self.old.out.ghost_name }
        ensures prints { Prints (printing (W.Out.state self.old.out.now) self.old.failed)
            (printing (W.Out.state self.new.out.now) self.new.failed)
            spec.alone_runtime }
    {
        self.text(&ALONE_STATE);
        self.text(&ALONE_VALUES);
        self.text(&ALONE_PUTS);
        self.text(&ALONE_OPTIONS);
        self.text(&INPUT);
        self.text(&MEMORY);
        self.text(&ALONE_OPENING);
        self.text(&ALONE_OUTCOME);
        self.text(&ALONE_WORDS);
    }

    /// All of a plan for one memory.
    pub(crate) fn alone(&mut self, plan: &AlonePlan)
        ensures same_out { self.new.out.ghost_name ≡ self.old.out.ghost_name }
        ensures prints { Prints (printing (W.Out.state self.old.out.now) self.old.failed)
            (printing (W.Out.state self.new.out.now) self.new.failed)
            (spec.alone_text plan.now) }
    {
        self.text(&ALONE_HEAD);
        self.declarations(plan.code());
        self.column_table(plan);
        self.alone_runtime();
        self.plan_rows(plan);
        self.text(&ALONE_START);
    }
}
