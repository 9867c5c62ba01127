//! How keys are linked, and found along their links.

ghost use Rattle.std.specs.Prelude.{◌≡◌, ◌≤◌, ◌<◌, ◌+◌, ◌^◌, ℕ, length, take, get_or, vec_capacity};
ghost use Rattle.combining.specs.Places.{place_of, believed, IsLinked, IsIndexed};

/// The head of a chain, if it is one of the keys that are held now.
#[inline(always)]
fn trusted(mask: u32, keys: &[u32], at: u32, head: u32) -> u32
    ensures head { result ≡ believed mask keys.now at head }
{
    if head == 0 {
        return 0;
    }
    let i = (head - 1) as usize;
    if i < keys.len() && keys[i] & mask == at {
        head
    } else {
        0
    }
}

/// The place of a key among keys that are all linked, or their number.
#[inline(always)]
pub(crate) fn linked_place(mask: u32, keys: &[u32], links: &[u32], heads: &[u32], key: u32) -> usize
    requires linked { IsLinked mask keys.now links.now heads.now }
    ensures place { result ≡ place_of key keys.now }
{
    let at = key & mask;
    let mut left = trusted(mask, keys, at, heads[at as usize]);
    while left > 0 {
        let i = (left - 1) as usize;
        if keys[i] == key {
            return i;
        }
        left = links[i];
    }
    keys.len()
}

/// The place of a key that none of the first keys is, or the number of keys.
#[cold]
#[inline(never)]
pub(crate) fn place_from(keys: &[u32], first: usize, key: u32) -> usize
    requires few { first ≤ length keys.now }
    requires none { (j : ℕ) → j < first → get_or keys.now j 0 ≡ key → ⊥ }
    ensures place { result ≡ place_of key keys.now }
{
    for i in first..keys.len() {
        if keys[i] == key {
            return i;
        }
    }
    keys.len()
}

/// Links the first key that isn't linked yet.
#[inline(always)]
pub(crate) fn link(mask: u32, keys: &[u32], links: &mut Vec<u32>, heads: &mut [u32])
    requires linked { IsLinked mask (take (length links.old.items) keys.now) links.old.items heads.old }
    requires one { length links.old.items < length keys.now }
    requires new { (j : ℕ) → j < length links.old.items → get_or keys.now j 0 ≡ get_or keys.now (length links.old.items) 0 → ⊥ }
    requires room { length keys.now ≤ vec_capacity links.old }
    requires few { length keys.now < 2 ^ 31 }
    ensures linked { IsLinked mask (take (length links.old.items + 1) keys.now) links.new.items heads.new }
    ensures more { length links.new.items ≡ length links.old.items + 1 }
    ensures room { vec_capacity links.new ≡ vec_capacity links.old }
{
    let n = links.len();
    let at = keys[n] & mask;
    let before = trusted(mask, &keys[..n], at, heads[at as usize]);
    heads[at as usize] = n as u32 + 1;
    links.push_reserved(before);
}

/// Links all keys that aren't linked yet.
#[inline(always)]
pub(crate) fn link_all(mask: u32, keys: &[u32], links: &mut Vec<u32>, heads: &mut [u32])
    requires indexed { IsIndexed mask keys.now links.old.items heads.old }
    requires room { length keys.now ≤ vec_capacity links.old }
    requires few { length keys.now < 2 ^ 31 }
    ensures linked { IsLinked mask keys.now links.new.items heads.new }
    ensures room { vec_capacity links.new ≡ vec_capacity links.old }
{
    while links.len() < keys.len() {
        link(mask, keys, links, heads);
    }
}
