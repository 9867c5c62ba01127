//! What there is to say of a place at which a program doesn't go on.

use crate::Choice;
use crate::habit::Habit;
use pram_tokens::Opening;

/// What there is to say of a place at which a program doesn't go on. Offsets are those of tokens.
#[derive(Clone, Copy, Debug, PartialEq, Eq)]
pub enum Hint {
    /// No more than what could stand there.
    Nothing,
    /// The token there is what is written so elsewhere.
    Habit { habit: Habit, at: u32 },
    /// A token of this kind is missing behind the token that begins there.
    Missing { choice: Choice, behind: u32 },
    /// The text ends within the block that begins there.
    Open { opening: Opening, at: u32 },
    /// The text ends within the program, whose `begin` stands there.
    OpenProgram { at: u32 },
    /// The text ends within the program, and its last token, an `end`, closes the block that begins at `at`.
    Taken { opening: Opening, at: u32, by: u32 },
    /// The program has ended with the token that stands there.
    Ended { at: u32 },
}
