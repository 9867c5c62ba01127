ghost use Rattle.std.specs.Prelude.{◌≡◌, ◌+◌, ◌<◌, ◌≤◌, ◌++◌, [], map, reverse, vec_len, vec_capacity};
ghost use Rattle.exchange_arena.specs.Piece.{emptied_piece};
ghost use Rattle.exchange_arena.specs.declared.block.TheConstants.{MAX_SIDE};
ghost use Rattle.exchange_arena.specs.declared.piece.TheConstants.{MAX_ROOM};

use exchange_arena::{Block, MAX_SIDE, Piece};
use linked_list_allocator::LocalHeap;
use std::test::Fail;

fn crosses<T: Send + Sync>(_value: &T) {}

#[test]
fn one_piece_is_filled_read_and_cleared(rt: HostRuntime) -> Result<(), Fail> {
    let (block, mut pieces) = Block::new(rt.alloc(), 1, 3)?;
    let mut piece = pieces.take_last();
    assert_eq!(rt; piece.header(), [0, 0, 0, 0]);
    assert_eq!(rt; piece.words().len(), 0);
    assert_eq!(rt; piece.fill([1, 2, 3, 4], &[5, 6]), true);
    assert_eq!(rt; piece.header(), [1, 2, 3, 4]);
    assert_eq!(rt; piece.words(), [5, 6].as_slice());
    piece.clear();
    assert_eq!(rt; piece.header(), [0, 0, 0, 0]);
    assert_eq!(rt; piece.words().len(), 0);
    pieces.push_reserved(piece);
    block.join(pieces);
    Ok(())
}

#[test]
fn with_room_for_none_only_no_words_fit(rt: HostRuntime) -> Result<(), Fail> {
    let (block, mut pieces) = Block::new(rt.alloc(), 1, 0)?;
    let mut piece = pieces.take_last();
    assert_eq!(rt; piece.fill([1, 1, 1, 1], &[]), true);
    assert_eq!(rt; piece.fill([2, 2, 2, 2], &[1]), false);
    assert_eq!(rt; piece.header(), [1, 1, 1, 1]);
    assert_eq!(rt; piece.words().len(), 0);
    pieces.push_reserved(piece);
    block.join(pieces);
    Ok(())
}

#[test]
fn a_message_that_is_too_long_changes_nothing(rt: HostRuntime) -> Result<(), Fail> {
    let (block, mut pieces) = Block::new(rt.alloc(), 1, 3)?;
    let mut piece = pieces.take_last();
    assert_eq!(rt; piece.fill([1, 2, 3, 4], &[5, 6, 7]), true);
    assert_eq!(rt; piece.fill([9, 9, 9, 9], &[1, 2, 3, 4]), false);
    assert_eq!(rt; piece.header(), [1, 2, 3, 4]);
    assert_eq!(rt; piece.words(), [5, 6, 7].as_slice());
    assert_eq!(rt; piece.fill([8, 8, 8, 8], &[9]), true);
    assert_eq!(rt; piece.header(), [8, 8, 8, 8]);
    assert_eq!(rt; piece.words(), [9].as_slice());
    pieces.push_reserved(piece);
    block.join(pieces);
    Ok(())
}

#[test]
fn a_long_message_is_kept_whole(rt: HostRuntime) -> Result<(), Fail> {
    let mut words = Vec::new(rt.alloc());
    for word in 0..150u64 {
        words.push(word)?;
    }
    let (block, mut pieces) = Block::new(rt.alloc(), 1, 150)?;
    let mut piece = pieces.take_last();
    assert_eq!(rt; piece.fill([1, 2, 3, 4], words.as_slice()), true);
    assert_eq!(rt; piece.header(), [1, 2, 3, 4]);
    assert_eq!(rt; piece.words(), words.as_slice());
    pieces.push_reserved(piece);
    block.join(pieces);
    Ok(())
}

// Fills the piece at each index with its number, counted from the end of the list.
fn number_from_the_end(pieces: &mut Vec<Piece>)
    ensures same { map emptied_piece pieces.new.items ≡ map emptied_piece pieces.old.items }
    ensures capacity { vec_capacity pieces.new ≡ vec_capacity pieces.old }
{
    let count = pieces.len();
    for k in 0..count {
        let number = (count - 1 - k) as u64;
        let _filled = pieces[k].fill([number, 1, 2, 3], &[number, number]);
    }
}

fn move_round(from: &mut Vec<Piece>, to: &mut Vec<Piece>)
    requires room { vec_len to.old + vec_len from.old ≤ vec_capacity to.old }
    ensures moved { to.new.items ≡ to.old.items ++ reverse from.old.items }
    ensures empty { from.new.items ≡ [] }
    ensures capacity { vec_capacity from.new ≡ vec_capacity from.old }
{
    while from.len() > 0 {
        to.push_reserved(from.take_last());
    }
}

#[test]
fn pieces_come_back_in_order_after_they_were_moved(rt: HostRuntime) -> Result<(), Fail> {
    let (block, mut pieces) = Block::new(rt.alloc(), MAX_SIDE, 2)?;
    let mut moved = match Vec::with_capacity(rt.alloc(), pieces.len()) {
        Ok(moved) => moved,
        Err(refused) => {
            block.join(pieces);
            return Err(Fail::from(refused));
        }
    };
    move_round(&mut pieces, &mut moved);
    number_from_the_end(&mut moved);
    move_round(&mut moved, &mut pieces);
    for k in 0..pieces.len() {
        let number = k as u64;
        assert_eq!(rt; pieces[k].header(), [number, 1, 2, 3], "at {number}");
        assert_eq!(rt;
            pieces[k].words(),
            [number, number].as_slice(),
            "at {number}"
        );
    }
    moved.destroy_empty();
    block.join(pieces);
    Ok(())
}

#[test]
fn blocks_and_pieces_cross_threads(rt: HostRuntime) -> Result<(), Fail> {
    let (block, mut pieces) = Block::new(rt.alloc(), 1, 0)?;
    crosses(&block);
    crosses(&pieces);
    let piece = pieces.take_last();
    crosses(&piece);
    pieces.push_reserved(piece);
    block.join(pieces);
    Ok(())
}

fn is_made(heap: &LocalHeap, side: usize, room: usize) -> bool
    requires { (0 < side) × (side ≤ MAX_SIDE) × (room ≤ MAX_ROOM) }
{
    match Block::new(heap, side, room) {
        Ok((block, pieces)) => {
            block.join(pieces);
            true
        }
        Err(_) => false,
    }
}

#[test]
fn each_refused_allocation_is_an_error_and_leaks_nothing(rt: HostRuntime) -> Result<(), Fail> {
    let heap = LocalHeap::new(rt.alloc(), 512)?;

    // The block takes 3,328 bytes, then 448 and 128, and the list of four pieces 96.
    assert_eq!(rt; is_made(&heap, 2, 100), false, "the block is refused");
    assert_eq!(rt; heap.used(), 0);
    assert_eq!(rt; is_made(&heap, 2, 10), false, "the list is refused");
    assert_eq!(rt; heap.used(), 0);
    assert_eq!(rt; is_made(&heap, 2, 0), true, "both are granted");
    assert_eq!(rt; heap.used(), 0);
    Ok(())
}
