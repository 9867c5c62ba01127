//! Sizes: names that stand for numbers.

use sqlite_items::Items;

/// A name and the number that it stands for.
#[derive(Drop)]
pub struct Size {
    pub name: Items<u8>,
    pub value: u64,
}
