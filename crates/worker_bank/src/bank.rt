//! A worker's processors by columns.

ghost use Rattle.std.specs.Prelude.{◌≡◌, ◌≤◌, ◌<◌, ◌+◌, ◌*◌, ◌^◌, ℕ, pos, length, IfOk};
ghost use Rattle.std.specs.List.{AllByRecursion};
ghost use Rattle.worker_bank.specs.Columns.{value_of};
ghost use Rattle.worker_bank.specs.Bank.{IsBank};

use crate::masks::Masks;
use std::alloc::{AllocError, Global};

/// The registers and masks of a worker's processors: for each register a column with a value for
/// each processor, one more column to write to, the processors' numbers, and the masks. A column
/// with a constant has that value throughout, whatever stands in it.
#[derive(Drop)]
pub struct Bank {
    pub worker: u32,
    pub workers: u32,
    pub columns: Vec<Vec<i64>>,
    pub constants: Vec<Option<i64>>,
    pub spare: Vec<i64>,
    pub numbers: Vec<i64>,
    pub masks: Masks,
}

// The numbers of so many processors of a worker: every `workers`-th, from `worker` on.
fn numbers(alloc: Global, most: u32, worker: u32, workers: u32) -> Result<Vec<i64>, AllocError>
    requires { worker + workers * most < 2 ^ 32 }
    ensures count { IfOk result (λ all. length all.items ≡ most) }
    ensures each { IfOk result (λ all. (j : ℕ) → j < most → value_of all.items j ≡ pos (worker + workers * j)) }
{
    let mut all = vec![in alloc; 0; most as usize]?;
    for j in 0..most {
        all[j as usize] = i64::from(worker + workers * j);
    }
    Ok(all)
}

// So many columns, each with room for so many processors.
fn columns(alloc: Global, registers: u32, most: u32) -> Result<Vec<Vec<i64>>, AllocError>
    ensures rooms { IfOk result (λ all. AllByRecursion (λ v. length v.items ≡ most) all.items) }
    ensures count { IfOk result (λ all. length all.items ≡ registers) }
{
    let mut all = Vec::with_capacity(alloc, registers as usize)?;
    for _ in 0..registers {
        all.push(vec![in alloc; 0; most as usize]?)?;
    }
    Ok(all)
}

// So many columns of zeros.
fn zeros(alloc: Global, registers: u32) -> Result<Vec<Option<i64>>, AllocError>
    ensures count { IfOk result (λ all. length all.items ≡ registers) }
{
    let mut all = Vec::with_capacity(alloc, registers as usize)?;
    for r in 0..registers {
        all.push(Some(0))?;
    }
    Ok(all)
}

impl Bank {
    /// A bank for so many registers, at most so many processors, and so many masks, of one of the
    /// workers; it has no processors yet. All memory is asked for here: the error comes where it
    /// was refused.
    pub fn new(
        alloc: Global,
        registers: u32,
        most: u32,
        masks: usize,
        worker: u32,
        workers: u32,
    ) -> Result<Bank, AllocError>
        requires masks { masks ≤ 64 }
        requires numbers { worker + workers * most < 2 ^ 32 }
        ensures bank { IfOk result (λ b. IsBank b) }
        ensures registers { IfOk result (λ b. length b.columns.items ≡ registers) }
        ensures most { IfOk result (λ b. b.masks.most ≡ most) }
        ensures masks { IfOk result (λ b. length b.masks.levels.items ≡ masks + 1) }
        // There are no processors yet, and no masks.
        ensures none { IfOk result (λ b. (b.masks.many ≡ 0) × (b.masks.depth ≡ 0)) }
        ensures worker { IfOk result (λ b. (b.worker ≡ worker) × (b.workers ≡ workers)) }
    {
        let columns = columns(alloc, registers, most)?;
        let constants = zeros(alloc, registers)?;
        let spare = vec![in alloc; 0; most as usize]?;
        let numbers = numbers(alloc, most, worker, workers)?;
        let masks = Masks::new(alloc, most, masks)?;
        Ok(Bank {
            worker,
            workers,
            columns,
            constants,
            spare,
            numbers,
            masks,
        })
    }
}
