//! Asks that come in ascending order: no two of them are for the same cell by the same read.

ghost use Rattle.std.specs.Prelude.{◌≡◌, ◌≤◌, ◌^◌, IfSome, true, map as each};
ghost use Rattle.combining.specs.Alone.{AscendTo, AscendWords};

// Words of asks that one processor makes are below it.
const SINGLE: u64 = 8_388_608;

// Whether words of asks that one processor makes each ascend, from some number on: then the number behind the last.
fn ascend_words(words: &[u64], from: u64) -> Option<u64>
    requires { from ≤ 2 ^ 23 }
    ensures ascend { IfSome result (λ k. AscendTo from words.now k) }
    ensures single { IfSome result (λ k. k ≤ 2 ^ 23) }
{
    let mut least = from;
    for i in 0..words.len() {
        let word = words[i];
        if word < least || word >= SINGLE {
            return None;
        }
        least = word + 1;
    }
    Some(least)
}

/// Whether the words of all asks ascend, column behind column, and one processor makes each. It may miss some that are all different.
pub(crate) fn ascend_words_all(columns: &[&[u64]]) -> bool
    ensures { result ≡ true → AscendWords 0 (each (λ x. x.now) columns.now) }
{
    let mut least = 0;
    for words in columns {
        let Some(next) = ascend_words(words, least) else {
            return false;
        };
        least = next;
    }
    true
}
