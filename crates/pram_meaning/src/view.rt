//! What a processor sees.

ghost use Rattle.std.specs.Prelude.{◌≡◌, slice_index_or, pos};

use pram_trees::Layout;

/// What one processor sees before a statement.
#[derive(Clone, Copy)]
pub struct View<'a> {
    pub layout: &'a Layout,
    pub uniforms: &'a Vec<i64>,
    pub cells: &'a Vec<i64>,
    pub index: i64,
    pub locals: &'a Vec<i64>,
}

/// The number at a place, 0 where there is none.
pub fn number_at(items: &[i64], place: usize) -> i64
    ensures { result ≡ slice_index_or items.now place (pos 0) }
{
    match items.get(place) {
        Some(value) => *value,
        None => 0,
    }
}
