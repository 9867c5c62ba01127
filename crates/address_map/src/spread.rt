//! Numbers below a power of two, dealt to the modules in turn.
ghost use Rattle.std.specs.Prelude.{◌≡◌, ◌<◌, ◌≤◌, ◌^◌, ◌*◌, ◌+◌, ◌/◌, ◌%◌, Some, None, if◌then◌else◌, nat_lt, ◌&&◌, IfOk, IfErr, IfSome};
ghost use Rattle.std.specs.Prelude.{MatchOption};
ghost use Rattle.address_map.specs.Lawful.{rows};
ghost use Rattle.address_map.specs.Outcome.{IsWorkers, IsCells, IsFault};

use crate::fault::MapFault;

// 2 ^ 32.
const ROUND: u64 = 4_294_967_296;

/// Numbers 0 to cells - 1, dealt to the modules in turn: number n is at offset n / modules of module n % modules.
#[derive(Clone, Copy, Debug)]
pub(crate) struct Spread {
    pub(crate) cells: u32,
    pub(crate) bits: u32,
    pub(crate) modules: u32,
    // 2 ^ 32 / modules, and one more: a number below 2 ^ 20 times it, without its low 32 bits, is the number divided by the modules.
    reciprocal: u64,
    ghost power: { cells ≡ 2 ^ bits },
    ghost small: { bits ≤ 20 },
    ghost fits: { cells ≤ 2 ^ 20 },
    ghost one: { 1 ≤ modules },
    ghost few: { modules ≤ 32 },
    ghost divides: { reciprocal ≡ 2 ^ 32 / modules + 1 },
}

// The power of two that a number of cells is.
fn power_of(cells: u32) -> Option<u32>
    ensures { MatchOption result (¬ (IsCells cells)) (λ e. (e ≤ 20) × (cells ≡ 2 ^ e)) }
{
    'powers: for bits in 0..21u32 {
        let power = 1u32 << bits;
        if power == cells {
            return Some(bits);
        }
    }
    None
}

impl Spread {
    #[tactic(auto, using(crate::specs::SpreadLaws::cells_small))]
    pub(crate) fn new(cells: u32, modules: u32) -> Result<Spread, MapFault>
        ensures ok { IfOk result (λ s. (s.cells ≡ cells) × (s.modules ≡ modules) × IsCells cells × IsWorkers modules) }
        ensures err { IfErr result (IsFault (IsCells cells) modules) }
    {
        if modules == 0 || modules > 32 {
            return Err(MapFault::BadWorkers);
        }
        match power_of(cells) {
            Some(bits) => Ok(Spread {
                cells,
                bits,
                modules,
                reciprocal: ROUND / u64::from(modules) + 1,
            }),
            None => Err(MapFault::BadMap),
        }
    }

    // How many numbers are dealt to a module: whole rows of the modules, and one more where the last row reaches it.
    pub(crate) fn size(self, module: u32) -> u32
        requires { «module» < self.modules }
        ensures { result ≡ rows self.cells self.modules «module» }
    {
        (self.cells + (self.modules - 1 - module)) / self.modules
    }

    // The module of a number, and its offset there. It takes no division.
    #[inline(always)]
    #[tactic(auto, using(crate::proofs::Reciprocals::divided, crate::proofs::Reciprocals::divided_small))]
    pub(crate) fn split(self, number: u32) -> (u32, u32)
        requires { number < 2 ^ 20 }
        ensures part { result.0 ≡ number % self.modules }
        ensures offset { result.1 ≡ number / self.modules }
    {
        let offset = ((u64::from(number) * self.reciprocal) >> 32) as u32;
        (number - offset * self.modules, offset)
    }

    // What a value leaves below the number of cells: its low bits.
    #[tactic(auto, using(std::proofs::lemmas::Nat::and_mask, std::proofs::lemmas::Nat::and_le_r, std::proofs::lemmas::Nat::pow_pos))]
    pub(crate) fn reduce(self, value: u64) -> u32
        ensures { result ≡ value % self.cells }
    {
        let mask = self.cells - 1;
        let low = value & u64::from(mask);
        low as u32
    }

    // The number at an offset of a module.
    pub(crate) fn number(self, module: u32, offset: u32) -> Option<u32>
        ensures number { result ≡ (if nat_lt «module» self.modules
            && nat_lt offset (rows self.cells self.modules «module») then Some (offset * self.modules + «module») else None) }
        ensures below { IfSome result (λ n. n < self.cells) }
    {
        if module >= self.modules {
            return None;
        }
        if offset >= self.size(module) {
            return None;
        }
        Some(offset * self.modules + module)
    }
}
