//! Which map of its cells a run has.

ghost use Rattle.std.specs.Prelude.{◌≡◌, Some, IfSome};
ghost use Rattle.run_options.specs.declared.map_choice.MapChoice.{MapChoice as Choice};
ghost use Rattle.run_options.specs.Maps.{Names};

use crate::pair::read_pair;

/// Which map of its cells a run has.
#[derive(Clone, Copy, Debug, PartialEq, Eq)]
pub enum MapChoice {
    /// Each cell keeps its number.
    Identity,
    /// Cell c gets number (factor * c + shift) mod places.
    Affine { factor: u32, shift: u32 },
}

/// The map that a word names: `identity`, or `affine:A,B` with two numbers, the factor and the shift. `None`: it names none. Whether there
/// is such a map for a run's cells is another question.
pub fn read_map(word: &str) -> Option<MapChoice>
    // The map is the one that the word names: `identity`, or `affine:` and two such numbers.
    ensures named { IfSome result (Names word.now) }
    // Each word that names a map is read as that.
    ensures found { (choice : Choice) → Names word.now choice → result ≡ Some choice }
{
    if word == "identity" {
        return Some(MapChoice::Identity);
    }
    let (kind, numbers) = word.split_once(':')?;
    if kind != "affine" {
        return None;
    }
    let (factor, shift) = read_pair(numbers)?;
    Some(MapChoice::Affine { factor, shift })
}
