//! Words that are copied.

ghost use Rattle.std.specs.Prelude.{◌≡◌, ◌≤◌, length, vec_capacity};

use std::mem;

/// Adds zeros until there are so many words, where there is room for them. So memory that no message reaches isn't touched.
pub(crate) fn lengthen(words: &mut Vec<u64>, count: usize)
    requires { count ≤ vec_capacity words.old }
    ensures long { count ≤ length words.new.items }
    ensures room { vec_capacity words.new ≡ vec_capacity words.old }
{
    while words.len() < count {
        words.push_reserved(0);
    }
}

// Some words in a list with room for them. It is passed by value, so that its length stays in a register over the loop.
fn filled(words: &[u64], mut list: Vec<u64>) -> Vec<u64>
    requires { length words.now ≤ vec_capacity list }
    ensures words { result.items ≡ words.now }
    ensures room { vec_capacity result ≡ vec_capacity list }
{
    list.clear();
    for word in words {
        list.push_reserved(*word);
    }
    list
}

/// Puts some words in place of others, where there is room for them.
pub fn put_words(words: &[u64], to: &mut Vec<u64>)
    requires { length words.now ≤ vec_capacity to.old }
    ensures words { to.new.items ≡ words.now }
    ensures room { vec_capacity to.new ≡ vec_capacity to.old }
{
    let empty = Vec::new(*to.allocator());
    let list = mem::replace(to, empty);
    *to = filled(words, list);
}
