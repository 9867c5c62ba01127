//! The words of puts and asks: how they are written, and how any words are read.

ghost use Rattle.std.specs.Prelude.{◌≡◌, ◌≤◌, ◌<◌, ◌+◌, ◌*◌, ◌%◌, ◌++◌, ◌^◌, [], ◌∷◌, length, take, drop, FitsSigned, IfSome, None, Some};
ghost use Rattle.std.specs.Prelude.{pos, vec_capacity};
ghost use Rattle.std.specs.Int.{w64};
ghost use Rattle.superstep_machine.specs.Words.{put_words, ask_word, bit, word_of, low_word, high_word};
ghost use Rattle.superstep_machine.specs.WordReading.{put_length as length_of_put, read_value as value_of_words};
ghost use Rattle.superstep_machine.specs.Fitting.{FitsValue};
ghost use Rattle.combining.specs.Held.{put_at};
ghost use Rattle.combining.specs.Asked.{ask_key as key_for, ask_at};

use address_map::AddressMap;
use write_rules::{Entry, WriteRule};

// Numbers of cells are below it.
const CELLS: u32 = 1_048_576;
// First words of puts are below it: a cell, and the mark of a clash.
const PUTS: u64 = 2_097_152;
// Words of asks are below it: a cell, one of eight reads, and the mark of two askers ..
const ASKS: u64 = 16_777_216;
// .. which is the last bit.
const TWICE: u64 = 8_388_608;
// What a word holds.
const WORD: u128 = 18_446_744_073_709_551_616;

// ---- puts

// The number of a mark.
fn mark(clash: bool) -> u64
    ensures { result ≡ bit clash }
{
    if clash { 1 } else { 0 }
}

// The first word of a put.
fn first_word(cell: u32, clash: bool) -> u64
    ensures { result ≡ cell + 2 ^ 20 * bit clash }
{
    u64::from(cell) + u64::from(CELLS) * mark(clash)
}

// The low 64 bits of a sum.
fn low(sum: i128) -> u64
    ensures { result ≡ low_word sum }
{
    (sum.cast_unsigned() % WORD) as u64
}

// The high 64 bits of a sum.
fn high(sum: i128) -> u64
    ensures { result ≡ high_word sum }
{
    (sum.cast_unsigned() / WORD) as u64
}

// Writes a put whose value has one word, from n on.
fn write_value(out: &mut [u64], n: usize, cell: u32, entry: Entry) -> usize
    requires room { n + 3 ≤ length out.old }
    requires fits { FitsSigned w64 entry.value }
    ensures done { take result out.new ≡ take n out.old ++ (cell + 2 ^ 20 * bit entry.clash) ∷ word_of entry.owner ∷ word_of entry.value
        ∷ [] }
    ensures rest { drop result out.new ≡ drop result out.old }
    ensures length { length out.new ≡ length out.old }
    ensures count { result ≡ n + 3 }
{
    out[n] = first_word(cell, entry.clash);
    out[n + 1] = entry.owner.cast_unsigned();
    out[n + 2] = (entry.value as i64).cast_unsigned();
    n + 3
}

// Writes a put whose value is a sum, from n on.
fn write_sum(out: &mut [u64], n: usize, cell: u32, entry: Entry) -> usize
    requires { n + 4 ≤ length out.old }
    ensures done { take result out.new ≡ take n out.old ++ (cell + 2 ^ 20 * bit entry.clash) ∷ word_of entry.owner ∷ low_word entry.value
        ∷ high_word entry.value ∷ [] }
    ensures rest { drop result out.new ≡ drop result out.old }
    ensures length { length out.new ≡ length out.old }
    ensures count { result ≡ n + 4 }
{
    out[n] = first_word(cell, entry.clash);
    out[n + 1] = entry.owner.cast_unsigned();
    out[n + 2] = low(entry.value);
    out[n + 3] = high(entry.value);
    n + 4
}

/// Writes the words of a put, from n on, and says where they end.
#[inline(always)]
pub(crate) fn write_put<R: WriteRule>(
    rule: &R,
    out: &mut [u64],
    n: usize,
    cell: u32,
    entry: Entry,
) -> usize
    requires room { n + length_of_put (R.WriteRule.rule rule.now) ≤ length out.old }
    requires fits { FitsValue (R.WriteRule.rule rule.now) entry.value }
    ensures done { take result out.new ≡ take n out.old ++ put_words (R.WriteRule.rule rule.now) (put_at cell entry) }
    ensures rest { drop result out.new ≡ drop result out.old }
    ensures length { length out.new ≡ length out.old }
    ensures count { result ≡ n + length_of_put (R.WriteRule.rule rule.now) }
{
    if rule.sums() {
        write_sum(out, n, cell, entry)
    } else {
        write_value(out, n, cell, entry)
    }
}

/// Adds the words of a put behind others, where there is room.
#[inline(always)]
pub(crate) fn push_put<R: WriteRule>(rule: &R, out: &mut Vec<u64>, cell: u32, entry: Entry)
    requires room { length out.old.items + length_of_put (R.WriteRule.rule rule.now) ≤ vec_capacity out.old }
    requires fits { FitsValue (R.WriteRule.rule rule.now) entry.value }
    ensures words { out.new.items ≡ out.old.items ++ put_words (R.WriteRule.rule rule.now) (put_at cell entry) }
    ensures room { vec_capacity out.new ≡ vec_capacity out.old }
{
    out.push_reserved(first_word(cell, entry.clash));
    out.push_reserved(entry.owner.cast_unsigned());
    if rule.sums() {
        out.push_reserved(low(entry.value));
        out.push_reserved(high(entry.value));
    } else {
        out.push_reserved((entry.value as i64).cast_unsigned());
    }
}

/// How many words a put has.
pub(crate) fn put_length<R: WriteRule>(rule: &R) -> usize
    ensures size { result ≡ length_of_put (R.WriteRule.rule rule.now) }
    ensures some { 1 ≤ result }
{
    if rule.sums() { 4 } else { 3 }
}

// The value of a put.
fn read_value<R: WriteRule>(rule: &R, words: &[u64]) -> i128
    requires { length words.now ≡ length_of_put (R.WriteRule.rule rule.now) }
    ensures { result ≡ value_of_words (R.WriteRule.rule rule.now) words.now }
{
    if rule.sums() {
        (u128::from(words[2]) + WORD * u128::from(words[3])).cast_signed()
    } else {
        i128::from(words[2].cast_signed())
    }
}

// ---- asks

/// The number of a read and a cell as one number.
pub(crate) fn ask_key(ordinal: u32, cell: u32) -> u32
    requires ordinal { ordinal < 8 }
    requires cell { cell < 2 ^ 20 }
    ensures { result ≡ key_for ordinal cell }
{
    cell + CELLS * ordinal
}

/// The cell of such a number.
pub(crate) fn cell_of(key: u32) -> u32
    ensures { result ≡ key % 2 ^ 20 }
{
    key % CELLS
}

/// Writes the word of an ask at n, and says where it ends.
#[inline(always)]
pub(crate) fn write_ask(out: &mut [u64], n: usize, key: u32, again: bool) -> usize
    requires { n + 1 ≤ length out.old }
    ensures done { take result out.new ≡ take n out.old ++ ask_word (ask_at key (record { again = again; value = pos 0 })).ask ∷ [] }
    ensures rest { drop result out.new ≡ drop result out.old }
    ensures length { length out.new ≡ length out.old }
    ensures count { result ≡ n + 1 }
{
    let mark = if again { TWICE } else { 0 };
    out[n] = u64::from(key) + mark;
    n + 1
}

/// Adds the word of an ask behind others, where there is room.
#[inline(always)]
pub(crate) fn push_ask(out: &mut Vec<u64>, key: u32, again: bool)
    requires { length out.old.items + 1 ≤ vec_capacity out.old }
    ensures word { out.new.items ≡ out.old.items ++ ask_word (ask_at key (record { again = again; value = pos 0 })).ask ∷ [] }
    ensures room { vec_capacity out.new ≡ vec_capacity out.old }
{
    let mark = if again { TWICE } else { 0 };
    out.push_reserved(u64::from(key) + mark);
}

// ---- any words

/// What words are read as, for a module: of equal length each, one behind the other.
pub(crate) trait Format {
    ghost use Rattle.std.specs.Prelude.{List, ℕ, Option};
    ghost use Rattle.std.specs.List.{cons_option};

    type Item: Copy;

    /// How many words each has.
    ghost size: { Self → ℕ };

    /// What that many words are, if they are for the module.
    ghost reads: { Self → List ℕ → Option Self.Item };

    /// All that some words are.
    ghost listed: { Self → List ℕ → List Self.Item };

    /// What is known of each.
    ghost fits: { Self → Self.Item → Type 0 };

    fn length(&self) -> usize
        ensures size { result ≡ size self.now }
        ensures some { 1 ≤ result };

    fn read(&self, words: &[u64]) -> Option<Self::Item>
        requires { length words.now ≡ size self.now }
        ensures read { result ≡ reads self.now words.now }
        ensures fits { IfSome result (fits self.now) };

    ghost more: { (f : Self) (ws : List ℕ) → size f ≤ length ws →
        listed f ws ≡ cons_option (reads f (take (size f) ws)) (listed f (drop (size f) ws)) };

    ghost short: { (f : Self) (ws : List ℕ) → length ws < size f → listed f ws ≡ [] };
}

/// The next that some words are, and the words behind it. What is not for the module is passed over.
#[inline(always)]
pub(crate) fn next<'w, F: Format>(format: &F, words: &'w [u64]) -> Option<(F::Item, &'w [u64])>
    ensures item { IfSome result (λ x. F.listed format.now words.now ≡ x.0 ∷ F.listed format.now x.1.now) }
    ensures fits { IfSome result (λ x. F.fits format.now x.0) }
    ensures shorter { IfSome result (λ x. length x.1.now < length words.now) }
    ensures none { result ≡ None → F.listed format.now words.now ≡ [] }
{
    let size = format.length();
    let mut rest = words;
    while rest.len() >= size {
        let (group, behind) = rest.split_at(size);
        rest = behind;
        if let Some(item) = format.read(group) {
            return Some((item, rest));
        }
    }
    None
}

/// A put of a module, with its cell's offset there.
#[derive(Clone, Copy, Debug)]
pub(crate) struct PlacedPut {
    pub(crate) cell: u32,
    pub(crate) offset: u32,
    pub(crate) entry: Entry,
}

/// Words as puts for a module.
#[derive(Drop)]
pub(crate) struct PutWords<'a, R: WriteRule, M: AddressMap> {
    pub(crate) rule: &'a R,
    pub(crate) map: &'a M,
    pub(crate) part: u32,
}

impl<'a, R: WriteRule, M: AddressMap> Format for PutWords<'a, R, M> {
    ghost use Rattle.superstep_machine.specs.WordReading.{put_length as length_of_put, put_in};
    ghost use Rattle.combining.specs.Items.{placed_if, puts_placed, IsPlaced};
    ghost use Rattle.combining.specs.ItemLaws.{puts_more, puts_short};

    type Item = PlacedPut;

    ghost size = { λ f. length_of_put (R.WriteRule.rule f.rule.now) };

    ghost reads = { λ f ws. placed_if (M.shape f.map.now) (put_in (R.WriteRule.rule f.rule.now) (M.shape f.map.now) f.part ws) };

    ghost listed = { λ f ws. puts_placed (R.WriteRule.rule f.rule.now) (M.shape f.map.now) f.part ws };

    ghost fits = { λ f x. IsPlaced (M.shape f.map.now) f.part x.cell x.offset };

    fn length(&self) -> usize {
        put_length(self.rule)
    }

    fn read(&self, words: &[u64]) -> Option<PlacedPut> {
        let first = words[0];
        if first >= PUTS {
            return None;
        }
        let cell = (first % u64::from(CELLS)) as u32;
        if cell >= self.map.cells() {
            return None;
        }
        let (home, offset) = self.map.place(cell);
        if home != self.part {
            return None;
        }
        let entry = Entry {
            owner: words[1].cast_signed(),
            value: read_value(self.rule, words),
            clash: first / u64::from(CELLS) == 1,
        };
        Some(PlacedPut {
            cell,
            offset,
            entry,
        })
    }

    ghost more = { λ f ws h. puts_more (R.WriteRule.rule f.rule.now) (M.shape f.map.now) f.part ws h };

    ghost short = { λ f ws h. puts_short (R.WriteRule.rule f.rule.now) (M.shape f.map.now) f.part ws h };
}

/// An ask of a module by a read of that number, with its cell's offset there, and whether two or more make it.
#[derive(Clone, Copy, Debug)]
pub(crate) struct PlacedAsk {
    pub(crate) cell: u32,
    pub(crate) offset: u32,
    pub(crate) read: u32,
    pub(crate) twice: bool,
}

/// Words as asks of a module.
#[derive(Drop)]
pub(crate) struct AskWords<'a, M: AddressMap> {
    pub(crate) map: &'a M,
    pub(crate) part: u32,
}

impl<'a, M: AddressMap> Format for AskWords<'a, M> {
    ghost use Rattle.superstep_machine.specs.WordReading.{word, ask_in};
    ghost use Rattle.combining.specs.Items.{ask_placed_if, asks_placed, IsPlaced};
    ghost use Rattle.combining.specs.ItemLaws.{asks_more, asks_short};

    type Item = PlacedAsk;

    ghost size = { λ f. 1 };

    ghost reads = { λ f ws. ask_placed_if (M.shape f.map.now) (ask_in (M.shape f.map.now) f.part (word ws 0)) };

    ghost listed = { λ f ws. asks_placed (M.shape f.map.now) f.part ws };

    ghost fits = { λ f x. IsPlaced (M.shape f.map.now) f.part x.cell x.offset };

    fn length(&self) -> usize {
        1
    }

    fn read(&self, words: &[u64]) -> Option<PlacedAsk> {
        let word = words[0];
        if word >= ASKS {
            return None;
        }
        let cell = (word % u64::from(CELLS)) as u32;
        if cell >= self.map.cells() {
            return None;
        }
        let (home, offset) = self.map.place(cell);
        if home != self.part {
            return None;
        }
        Some(PlacedAsk {
            cell,
            offset,
            read: (word / u64::from(CELLS) % 8) as u32,
            twice: word / TWICE == 1,
        })
    }

    ghost more = { λ f ws h. asks_more (M.shape f.map.now) f.part ws h };

    ghost short = { λ f ws h. asks_short (M.shape f.map.now) f.part ws h };
}
