//! A worker before the first instruction.

ghost use Rattle.std.specs.Prelude.{◌≡◌, ◌<◌, ◌≤◌, ◌*◌, ◌^◌, ℕ, [], length, pos, IfOk, IfErr, map as each, slice_index_or};
ghost use Rattle.std.specs.List.{range_with_len};
ghost use Rattle.address_map.specs.Lawful.{Shape};
ghost use Rattle.address_map.specs.Outcome.{IsWorkers};
ghost use Rattle.superstep_machine.specs.Run.{setting, opening};
ghost use Rattle.bsp_verify.specs.WellFormed.{IsWellFormed};
ghost use Rattle.machine_limits.specs.Within.{AreValues, words_for_each as spec_words_for_each};
ghost use Rattle.combining.specs.AllModules.{column};
ghost use Rattle.worker_exchange.specs.Sends.{words_of};
ghost use Rattle.worker_exchange.specs.Shown.{IsShown};
ghost use Rattle.worker_exchange.specs.Equipped.{HaveRoom, AreBuffers, IsRunnable, MayGoOn, most_words};
ghost use Rattle.worker_exchange.specs.Opened.{IsMapWith, IsAccepted, IsRefusal};

use crate::buffers::Buffers;
use crate::local::Local;
use crate::refusal::RunRefusal;
use crate::way::Way;
use address_map::AddressMap;
use combining::{Asks, Cells};
use pram_model::Rule;
use std::alloc::{AllocError, Global};
use superstep_instructions::Code;
use superstep_machine::Purpose;
use worker_steps::WorkerState;

// How many words a message has at most for each processor.
fn words_for_each(rule: Rule) -> u32
    ensures { result ≡ spec_words_for_each rule }
{
    match rule {
        Rule::Sum => 12,
        _ => 11,
    }
}

/// For how many words a message has room in a run of this code by so many workers: none has more.
pub fn row_room(code: &Code, workers: u32) -> usize
    requires { IsWorkers workers }
    ensures value { (m : Shape) → m.parts ≡ workers → result ≡ most_words code.now m }
    ensures few { result ≤ 2 ^ 20 }
{
    let _instructions = code.instructions();
    let most = (code.procs() + (workers - 1)) / workers;
    (words_for_each(code.rule()) * most) as usize
}

// Lists of words, one for each worker, with room for so many.
fn lists(alloc: Global, workers: u32, most: usize) -> Result<Vec<Vec<u64>>, AllocError>
    ensures room { IfOk result (λ all. HaveRoom workers most all.items) }
    ensures empty { IfOk result (λ all. (j : ℕ) → column (words_of all.items) j ≡ []) }
{
    let mut all = Vec::with_capacity(alloc, workers as usize)?;
    'workers: for _j in 0..workers {
        all.push(Vec::with_capacity(alloc, most)?)?;
    }
    Ok(all)
}

// Room for the words of an exchange.
fn buffers(alloc: Global, workers: u32, most: usize) -> Result<Buffers, AllocError>
    ensures { IfOk result (λ b. AreBuffers workers most b) }
{
    let words = lists(alloc, workers, most)?;
    let counts = vec![in alloc; 0; workers as usize]?;
    let reply = Vec::with_capacity(alloc, most)?;
    Ok(Buffers {
        words,
        counts,
        reply,
        sent: 0,
    })
}

// The input's value of the cell at an offset, and 0 behind its end.
fn value_in<M: AddressMap>(map: &M, part: u32, input: &[i64], offset: u32) -> i64
    requires part { part < (M.shape map.now).parts }
    requires offset { offset < (M.shape map.now).width part }
    ensures { result ≡ slice_index_or input.now ((M.shape map.now).cell part offset) (pos 0) }
{
    match map.cell(part, offset) {
        None => 0,
        Some(cell) => match input.get(cell as usize) {
            None => 0,
            Some(value) => *value,
        },
    }
}

// The cells of a module, with the input's values.
fn opening_cells<M: AddressMap>(
    alloc: Global,
    map: &M,
    part: u32,
    input: &[i64],
) -> Result<Cells, AllocError>
    requires { part < (M.shape map.now).parts }
    ensures long { IfOk result (λ cells. length cells ≡ (M.shape map.now).width part) }
    ensures fit { IfOk result (λ cells. AreValues cells) }
    ensures values { IfOk result (λ cells. cells ≡ each (λ c. slice_index_or input.now c (pos 0))
        (each ((M.shape map.now).cell part) (range_with_len 0 ((M.shape map.now).width part)))) }
{
    let size = map.size(part);
    let mut cells = Cells::new(alloc, size)?;
    'offsets: for offset in 0..size {
        cells.set(offset, value_in(map, part, input, offset));
    }
    Ok(cells)
}

// What a worker keeps of an exchange: what is asked of its module, room for words, and for the values that come.
#[derive(Drop)]
struct ExchangeRoom {
    asked: Vec<Vec<u64>>,
    buffers: Buffers,
    values: Vec<i64>,
}

// These lists, for messages of so many words and so many processors. They have a function of their own: each `?` lets go all that was made
// before it, and what a function can let go costs its proof more than its length does.
fn room_for_exchange(
    alloc: Global,
    workers: u32,
    words: usize,
    processors: usize,
) -> Result<ExchangeRoom, AllocError>
    ensures asked { IfOk result (λ x. HaveRoom workers words x.asked.items) }
    ensures empty { IfOk result (λ x. (j : ℕ) → column (words_of x.asked.items) j ≡ []) }
    ensures buffers { IfOk result (λ x. AreBuffers workers words x.buffers) }
    ensures values { IfOk result (λ x. length x.values.items ≡ processors) }
{
    let asked = lists(alloc, workers, words)?;
    let buffers = buffers(alloc, workers, words)?;
    let values = vec![in alloc; 0; processors]?;
    Ok(ExchangeRoom {
        asked,
        buffers,
        values,
    })
}

// Whether anything speaks against a run.
fn judge<M: AddressMap>(code: &Code, map: &M, workers: u32, input: &[i64]) -> Result<(), RunRefusal>
    ensures accepted { IfOk result (λ u. IsAccepted code.now (M.shape map.now) workers input.now) }
    ensures refused { IfErr result (IsRefusal code.now (M.shape map.now) workers input.now) }
{
    if workers < 1 || workers > 32 {
        return Err(RunRefusal::BadWorkers);
    }
    let cells = code.layout().cells();
    if map.modules() != workers || map.cells() < cells {
        return Err(RunRefusal::BadMap);
    }
    if input.len() > cells as usize {
        return Err(RunRefusal::InputTooLong);
    }
    Ok(())
}

// A worker before the first instruction. All memory is asked for here but for what the output grows by.
fn open<M: AddressMap>(
    alloc: Global,
    code: &Code,
    map: &M,
    worker: u32,
    input: &[i64],
) -> Result<Local, AllocError>
    requires worker { worker < (M.shape map.now).parts }
    ensures shown { IfOk result (λ x. (bound n : ℕ) → IsShown (setting code.now (M.shape map.now) bound n) worker x
        (opening (setting code.now (M.shape map.now) bound n) input.now worker)) }
    ensures going { IfOk result (λ x. (bound : ℕ) → IsRunnable code.now (M.shape map.now) → MayGoOn code.now (M.shape map.now) bound x) }
    ensures worker { IfOk result (λ x. x.steps.bank.worker ≡ worker) }
{
    let _instructions = code.instructions();
    let workers = map.modules();
    let most = (code.procs() + (workers - 1)) / workers;
    let words = (words_for_each(code.rule()) * most) as usize;
    let steps = WorkerState::new(
        alloc,
        code.uniform_registers(),
        code.private_registers(),
        most,
        worker,
        workers,
    )?;
    let cells = opening_cells(alloc, map, worker, input)?;
    let sent = Asks::with_room(alloc, 8 * (most as usize + 1))?;
    let room = room_for_exchange(alloc, workers, words, most as usize)?;
    Ok(Local {
        steps,
        cells,
        sent,
        asked: room.asked,
        buffers: room.buffers,
        values: room.values,
        way: Way::On,
        purpose: Purpose::Close,
    })
}

impl Local {
    /// One of the workers before the first instruction: the cells of its module have the input's values, and 0 behind its end. The map
    /// has a module for each worker, and a place for each cell of the code. It takes all the memory of a run but for that by
    /// which the output grows. Asked for a worker below their number.
    pub fn new<M: AddressMap>(
        alloc: Global,
        code: &Code,
        map: &M,
        workers: u32,
        worker: u32,
        input: &[i64],
    ) -> Result<Local, RunRefusal>
        requires formed { IsWellFormed code.now }
        requires worker { IsWorkers workers → worker < workers }
        // The run is refused for the first of E13, E12 and E11 that holds, in this order, and for want of memory only
        // where none does.
        ensures refused { IfErr result (IsRefusal code.now (M.shape map.now) workers input.now) }
        // There is an answer only where none of E13, E12 and E11 holds.
        ensures accepted { IfOk result (λ x. IsAccepted code.now (M.shape map.now) workers input.now) }
        // It shows the machine's worker in its opening state, within every bound.
        ensures shown { IfOk result (λ x. (bound n : ℕ) → IsShown (setting code.now (M.shape map.now) bound n) worker x
            (opening (setting code.now (M.shape map.now) bound n) input.now worker)) }
        ensures going { IfOk result (λ x. (bound : ℕ) → MayGoOn code.now (M.shape map.now) bound x) }
        ensures worker { IfOk result (λ x. x.steps.bank.worker ≡ worker) }
    {
        judge(code, map, workers, input)?;
        match open(alloc, code, map, worker, input) {
            Ok(local) => Ok(local),
            Err(_) => Err(RunRefusal::OutOfMemory),
        }
    }
}
