//! What the instructions on masks and ranges do to a worker's processors.

ghost use Rattle.std.specs.Prelude.{◌≡◌, ◌<◌, ◌≤◌, ◌+◌, [], ℕ, Some, pos, length, slice_index_or};
ghost use Rattle.superstep_instructions.specs.Code.{SuperstepCode};
ghost use Rattle.superstep_instructions.specs.declared.instr.Instr.TheVariants as instr_is;
ghost use Rattle.superstep_machine.specs.Parts.{UniformPart, fresh};
ghost use Rattle.worker_bank.specs.Bank.{part_at, IsAfter, IsBank, IsSameBank};

use crate::bank::Bank;

// Every column has zeros.
fn zero(constants: &mut [Option<i64>])
    ensures each { (r : ℕ) → r < length constants.old → slice_index_or constants.new r (Some (pos 0)) ≡ Some (pos 0) }
    ensures count { length constants.new ≡ length constants.old }
{
    for r in 0..constants.len() {
        constants[r] = Some(0);
    }
}

impl Bank {
    /// Of the active processors those stay active whose `source` isn't 0.
    pub fn mask(&mut self, source: u16)
        requires bank { IsBank self.old }
        requires source { source < length self.old.columns.items }
        requires room { self.old.masks.depth + 1 < length self.old.masks.levels.items }
        ensures bank { IsBank self.new }
        // The mask leaves each processor as the machine's definition does, whatever it asks for.
        ensures after { (code : SuperstepCode) (u : UniformPart) → IsAfter code (instr_is.Mask source) u self.old self.new }
        ensures depth { self.new.masks.depth ≡ self.old.masks.depth + 1 }
        ensures many { self.new.masks.many ≡ self.old.masks.many }
        ensures same { IsSameBank self.old self.new }
    {
        self.freshen(source);
        self.masks.mask(self.columns[source as usize].as_slice());
    }

    /// Of those that were active before the last mask, those are active that are not now.
    pub fn flip(&mut self)
        requires bank { IsBank self.old }
        requires masked { 0 < self.old.masks.depth }
        ensures bank { IsBank self.new }
        // The flip leaves each processor as the machine's definition does, whatever it asks for.
        ensures after { (code : SuperstepCode) (u : UniformPart) → IsAfter code instr_is.Flip u self.old self.new }
        ensures depth { self.new.masks.depth ≡ self.old.masks.depth }
        ensures many { self.new.masks.many ≡ self.old.masks.many }
        ensures same { IsSameBank self.old self.new }
    {
        self.masks.flip();
    }

    /// Takes the last mask off.
    pub fn unmask(&mut self)
        requires bank { IsBank self.old }
        requires masked { 0 < self.old.masks.depth }
        ensures bank { IsBank self.new }
        // The unmask leaves each processor as the machine's definition does, whatever it asks for.
        ensures after { (code : SuperstepCode) (u : UniformPart) → IsAfter code instr_is.Unmask u self.old self.new }
        ensures depth { self.new.masks.depth + 1 ≡ self.old.masks.depth }
        ensures many { self.new.masks.many ≡ self.old.masks.many }
        ensures same { IsSameBank self.old self.new }
    {
        self.masks.unmask();
    }

    /// A new range of so many processors: all their registers are 0, and all are active. Nothing is
    /// written to the columns.
    pub fn enter(&mut self, many: usize)
        requires bank { IsBank self.old }
        requires room { many ≤ self.old.masks.most }
        ensures bank { IsBank self.new }
        // Each processor is a new one: its registers are 0, and it is under no mask.
        ensures parts { (j : ℕ) → part_at self.new [] [] j ≡ fresh }
        ensures depth { self.new.masks.depth ≡ 0 }
        ensures many { self.new.masks.many ≡ many }
        ensures same { IsSameBank self.old self.new }
    {
        zero(self.constants.as_mut_slice());
        self.masks.open(many);
    }

    /// The range ends.
    pub fn leave(&mut self)
        requires bank { IsBank self.old }
        ensures bank { IsBank self.new }
        ensures depth { self.new.masks.depth ≡ 0 }
        // Behind the range there are no processors.
        ensures many { self.new.masks.many ≡ 0 }
        ensures same { IsSameBank self.old self.new }
    {
        self.enter(0);
    }
}
