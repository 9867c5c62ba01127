//! The blocks that are open behind some tokens.

ghost use Rattle.std.specs.Prelude.{◌≡◌, IfOk, OnOk};
ghost use Rattle.help.specs.Blocks as spec;

use pram_tokens::{Location, Mark, Opening, Token};
use std::alloc::{AllocError, Global};

/// A block that is open: what opens it, and the offset of that.
#[derive(Clone, Copy, Debug, PartialEq, Eq)]
pub struct Block {
    pub opening: Opening,
    pub at: u32,
}

fn open_by(blocks: &mut Vec<Block>, opening: Opening, place: Location) -> Result<(), AllocError>
    ensures { OnOk result (blocks.new.items ≡ spec.opened_by blocks.old.items opening place) }
{
    match opening {
        Opening::Print => Ok(()),
        Opening::While | Opening::If | Opening::For => {
            blocks.push(Block {
                opening,
                at: place.offset,
            })?;
            Ok(())
        }
    }
}

fn mark_by(blocks: &mut Vec<Block>, mark: Mark)
    ensures { blocks.new.items ≡ spec.marked_by blocks.old.items mark }
{
    match mark {
        Mark::End => {
            blocks.pop();
        }
        _ => {}
    }
}

// One token more.
fn go_on(blocks: &mut Vec<Block>, token: &Token) -> Result<(), AllocError>
    ensures { OnOk result (blocks.new.items ≡ spec.behind blocks.old.items token.now) }
{
    match token {
        Token::Opening(opening, place) => open_by(blocks, *opening, *place),
        Token::Mark(mark) => {
            mark_by(blocks, *mark);
            Ok(())
        }
        _ => Ok(()),
    }
}

/// The blocks that are open behind these tokens, the outermost first. The block of the program isn't among them.
pub fn open_blocks(alloc: Global, tokens: &[Token]) -> Result<Vec<Block>, AllocError>
    ensures { IfOk result (λ blocks. blocks.items ≡ spec.open_blocks tokens.now) }
{
    let mut blocks = Vec::new(alloc);
    for token in tokens {
        go_on(&mut blocks, token)?;
    }
    Ok(blocks)
}
