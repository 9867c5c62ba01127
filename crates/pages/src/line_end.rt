//! Where the first lines of a text end.

ghost use Rattle.pages.specs.Kept.{AreLinesTo};

use crate::cut::ROOM;

/// How many of these bytes the first so many lines have, or more than a page has room for, where fewer end in these bytes.
pub(crate) fn size_of_lines(bytes: &[u8], lines: usize) -> usize
    ensures { AreLinesTo bytes.now lines result }
{
    let mut left = lines;
    let mut at = 0;
    while 0 < left {
        if bytes.len() <= at {
            return ROOM + 1;
        }
        if bytes[at] == b'\n' {
            left -= 1;
        }
        at += 1;
    }
    at
}
