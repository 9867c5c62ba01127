//! What the headers of a column say together.

ghost use Rattle.std.specs.Prelude.{◌≡◌, length};
ghost use Rattle.worker_exchange.specs.Received.{mark_heard, key_heard, any_heard};

use crate::column::Column;
use superstep_machine::{HeaderMark, Key, MessageHeader, least, worse};

/// What the headers of a column say together: the worst mark, the least key, and whether any worker has an active processor.
#[derive(Clone, Copy, Debug)]
pub struct Heard {
    pub mark: HeaderMark,
    pub key: Option<Key>,
    pub active: bool,
}

/// Reads the headers of a column.
pub fn hear<C: Column>(column: &C, workers: usize) -> Heard
    requires { length (C.came column.now) ≡ workers }
    ensures mark { result.mark ≡ mark_heard (C.came column.now) }
    ensures key { result.key ≡ key_heard (C.came column.now) }
    ensures active { result.active ≡ any_heard (C.came column.now) }
{
    let mut heard = Heard {
        mark: HeaderMark::Clear,
        key: None,
        active: false,
    };
    let mut i = workers;
    'headers: while i > 0 {
        i -= 1;
        let header = MessageHeader::from_words(column.header(i));
        heard = Heard {
            mark: worse(header.mark, heard.mark),
            key: least(header.key, heard.key),
            active: header.active || heard.active,
        };
    }
    heard
}
