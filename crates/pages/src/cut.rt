//! How much of the facts has room: the last lines of a run, and as many of the first as go with them.

ghost use Rattle.std.specs.Prelude.{◌≡◌, ◌≤◌, drop, false, length, true};
ghost use Rattle.pages.specs.Cut as spec;
ghost use Rattle.pages.specs.Facts.{BeginsLine, embedded, width as width_of};
ghost use Rattle.pages.specs.Kept.{IsLongest};

/// The most bytes that lines of facts have in a page.
pub(crate) const ROOM: usize = 1_792_000;

/// The most bytes that the last lines have, if they are more than one.
pub(crate) const HALF: usize = 896_000;

/// The most bytes that the state behind lines that are left out has besides.
pub(crate) const STATE_ROOM: usize = 256_000;

// Where the last lines begin, and how many bytes they have in the page.
#[derive(Clone, Copy)]
pub(crate) struct Last {
    pub(crate) at: usize,
    pub(crate) size: usize,
}

/// How many bytes a byte has in the page.
pub(crate) fn width(byte: u8) -> usize
    ensures { result ≡ width_of byte }
{
    match byte {
        b'<' => 6,
        _ => 1,
    }
}

// Whether a line begins at a place.
fn begins_line(facts: &[u8], at: usize) -> bool
    requires within { at ≤ length facts.now }
    ensures yes { result ≡ true → BeginsLine facts.now at }
    ensures no { result ≡ false → BeginsLine facts.now at → ⊥ }
{
    if at == 0 {
        return true;
    }
    facts[at - 1] == b'\n'
}

// The most bytes of the last lines: the last of all may have more than those before it leave.
fn limit(has_line: bool) -> usize
    ensures { result ≡ spec.limit has_line }
{
    if has_line { HALF } else { ROOM }
}

/// The last lines that have room.
pub(crate) fn tail(facts: &[u8]) -> Last
    ensures longest { spec.IsBack facts.now result.at }
    ensures sized { result.size ≡ length (embedded (drop result.at facts.now)) }
{
    let end = facts.len();
    let mut at = end;
    let mut size = 0;
    let mut found = Last { at, size };
    while 0 < at {
        size += width(facts[at - 1]);
        if limit(found.at < end) < size {
            return found;
        }
        at -= 1;
        if begins_line(facts, at) {
            found = Last { at, size };
        }
    }
    found
}

/// How many bytes the first lines have that have room beside so many bytes, if they end within the first `most`.
pub(crate) fn front(first: &[u8], most: usize, beside: usize) -> usize
    requires within { most ≤ length first.now }
    requires fits { beside ≤ spec.room }
    ensures { IsLongest first.now most beside result }
{
    let mut whole = 0;
    let mut size = beside;
    let mut at = 0;
    while at < most {
        let byte = first[at];
        size += width(byte);
        if ROOM < size {
            return whole;
        }
        at += 1;
        if byte == b'\n' {
            whole = at;
        }
    }
    whole
}
