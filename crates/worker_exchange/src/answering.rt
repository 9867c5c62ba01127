//! The answers of a reply, read by read.

ghost use Rattle.std.specs.Prelude.{◌≡◌, ◌<◌, ◌≤◌, ◌^◌, ℕ, ℤ, Some, length, map as each};
ghost use Rattle.std.specs.List.{AllByRecursion, zip};
ghost use Rattle.superstep_machine.specs.Answering.{answer as spec_answer, answers, destinations};
ghost use Rattle.superstep_machine.specs.Fitting.{IsCellBelow};
ghost use Rattle.superstep_machine.specs.Parts.{Read as SpecRead};
ghost use Rattle.instruction_steps.specs.Views.{read_is, registers_of};
ghost use Rattle.combining.specs.Asked.{value_for};
ghost use Rattle.worker_bank.specs.Columns.{value_of};
ghost use Rattle.worker_bank.specs.Bank.{registers_at, IsBank, IsSameBank};
ghost use Rattle.worker_bank.specs.Cells.{cell_in};
ghost use Rattle.worker_steps.specs.Shown.{cells_at};
ghost use Rattle.worker_steps.specs.Fitted.{AreColumns};
ghost use Rattle.worker_exchange.specs.Equipped.{HasPlace, IsAwaited};
ghost use Rattle.worker_exchange.specs.Answered.{Gives, IsAnsweredPart, IsAnswered};

use combining::Asks;
use instruction_steps::{Read, UniformState, put_number};
use superstep_instructions::Side;
use worker_bank::Bank;
use worker_steps::WorkerState;

// Each read of the uniform part gets the value that came for its cell.
fn answer_uniform(sent: &Asks, awaited: &[Read], registers: &mut [i64])
    requires few { length awaited.now ≤ 8 }
    requires cells { AllByRecursion (λ r. IsCellBelow (2 ^ 20) r.cell) awaited.now }
    requires places { AllByRecursion (HasPlace (length registers.old)) awaited.now }
    ensures answered { (value : ℕ → ℕ → ℤ) → Gives sent.now.held value → registers_of registers.new
        ≡ answers value 0 (each (λ (x : SpecRead). (x.destination, x.cell)) (each read_is awaited.now)) (registers_of registers.old) }
    ensures count { length registers.new ≡ length registers.old }
{
    'reads: for k in 0..awaited.len() {
        let read = awaited[k];
        if let Some(cell) = read.cell {
            put_number(registers, read.destination, sent.value(k as u32, cell));
        }
    }
}

// The values that came for the cells of the first processors, by a read of that number. Its first ask is likely to stand at a place;
// the answer is where the next one is likely to.
fn values_for(
    sent: &Asks,
    likely: usize,
    ordinal: u32,
    cells: &[Option<u32>],
    many: usize,
    values: &mut [i64],
) -> usize
    requires ordinal { ordinal < 8 }
    requires cells { many ≤ length cells.now }
    requires below { (j cell : ℕ) → j < many → cell_in cells.now j ≡ Some cell → cell < 2 ^ 20 }
    requires values { many ≤ length values.old }
    ensures each { (j cell : ℕ) → j < many → cell_in cells.now j ≡ Some cell →
        value_of values.new j ≡ value_for ordinal cell sent.now.held }
    ensures count { length values.new ≡ length values.old }
{
    sent.take_values(likely, ordinal, &cells[..many], values)
}

// The answers to one read, and where the first ask of the next one is likely to stand. There are no processors where a uniform one is
// awaited.
fn answer_read(
    sent: &Asks,
    likely: usize,
    ordinal: u32,
    read: Read,
    cells: &[Option<u32>],
    bank: &mut Bank,
    values: &mut Vec<i64>,
) -> usize
    requires ordinal { ordinal < 8 }
    requires bank { IsBank bank.old }
    requires read { IsAwaited (2 ^ 20) (length bank.old.columns.items) bank.old.masks.many read }
    requires cells { length cells.now ≡ bank.old.masks.most }
    requires below { (j cell : ℕ) → j < bank.old.masks.many → cell_in cells.now j ≡ Some cell → cell < 2 ^ 20 }
    requires values { length values.old.items ≡ bank.old.masks.most }
    ensures answered { (value : ℕ → ℕ → ℤ) (j : ℕ) → Gives sent.now.held value → j < bank.old.masks.many →
        registers_at bank.new j ≡ spec_answer (value ordinal) read.destination (cell_in cells.now j) (registers_at bank.old j) }
    ensures bank { IsBank bank.new }
    ensures masks { bank.new.masks ≡ bank.old.masks }
    ensures same { IsSameBank bank.old bank.new }
    ensures count { length values.new.items ≡ length values.old.items }
{
    match read.side {
        Side::Uniform => likely,
        Side::Private => {
            let next = values_for(
                sent,
                likely,
                ordinal,
                cells,
                bank.masks.many,
                values.as_mut_slice(),
            );
            bank.take_answers(read.destination, cells, values);
            next
        }
    }
}

// Each processor gets the values that came for its cells.
fn answer_own(
    sent: &Asks,
    awaited: &[Read],
    columns: &[Vec<Option<u32>>],
    bank: &mut Bank,
    values: &mut Vec<i64>,
)
    requires bank { IsBank bank.old }
    requires few { length awaited.now ≤ 8 }
    requires columns { AreColumns bank.old.masks.most columns.now }
    requires reads { AllByRecursion (IsAwaited (2 ^ 20) (length bank.old.columns.items) bank.old.masks.many) awaited.now }
    requires below { (j : ℕ) → j < bank.old.masks.many →
        AllByRecursion (IsCellBelow (2 ^ 20)) (cells_at (length awaited.now) columns.now j) }
    requires values { length values.old.items ≡ bank.old.masks.most }
    ensures answered { (value : ℕ → ℕ → ℤ) (j : ℕ) → Gives sent.now.held value → j < bank.old.masks.many → registers_at bank.new j
        ≡ answers value 0 (zip (destinations (each read_is awaited.now)) (cells_at (length awaited.now) columns.now j))
        (registers_at bank.old j) }
    ensures bank { IsBank bank.new }
    ensures masks { bank.new.masks ≡ bank.old.masks }
    ensures same { IsSameBank bank.old bank.new }
    ensures count { length values.new.items ≡ length values.old.items }
{
    let mut likely = 0;
    'reads: for k in 0..awaited.len() {
        likely = answer_read(
            sent,
            likely,
            k as u32,
            awaited[k],
            columns[k].as_slice(),
            bank,
            values,
        );
    }
}

// The uniform part gets the values that came for its cells, and awaits nothing any more.
fn answer_part(sent: &Asks, u: &mut UniformState)
    requires few { length u.old.awaited.items ≤ 8 }
    requires cells { AllByRecursion (λ r. IsCellBelow (2 ^ 20) r.cell) u.old.awaited.items }
    requires places { AllByRecursion (HasPlace (length u.old.registers.items)) u.old.awaited.items }
    ensures { IsAnsweredPart sent.now.held u.old u.new }
{
    answer_uniform(sent, u.awaited.as_slice(), u.registers.as_mut_slice());
    u.awaited.clear();
}

/// Each awaited read gets the values that came for its cells, and none is awaited any more.
pub(crate) fn answer_worker(steps: &mut WorkerState, sent: &Asks, values: &mut Vec<i64>)
    requires bank { IsBank steps.old.bank }
    requires few { length steps.old.uniform.awaited.items ≤ 8 }
    requires places { AllByRecursion (HasPlace (length steps.old.uniform.registers.items)) steps.old.uniform.awaited.items }
    requires columns { AreColumns steps.old.bank.masks.most steps.old.awaited.items }
    requires reads { AllByRecursion (IsAwaited (2 ^ 20) (length steps.old.bank.columns.items) steps.old.bank.masks.many)
        steps.old.uniform.awaited.items }
    requires below { (j : ℕ) → j < steps.old.bank.masks.many →
        AllByRecursion (IsCellBelow (2 ^ 20)) (cells_at (length steps.old.uniform.awaited.items) steps.old.awaited.items j) }
    requires values { length values.old.items ≡ steps.old.bank.masks.most }
    ensures answered { IsAnswered sent.now.held steps.old steps.new }
    ensures count { length values.new.items ≡ length values.old.items }
{
    let u = &steps.uniform;
    answer_own(
        sent,
        u.awaited.as_slice(),
        steps.awaited.as_slice(),
        &mut steps.bank,
        values,
    );
    answer_part(sent, &mut steps.uniform);
}
