//! What no clause says: that a picture is made; and pictures of few statements, letter by letter.

use journal::{Act, Change, Entry};
use pictures::{CellSpan, Drawing, Flow, write_flow};
use pram_tokens::Location;
use pram_trees::Layout;
use pram_values::{Kind, Place};
use std::alloc::{AllocError, Global};
use std::test::Fail;
use text_out::Buffer;
use write_rules::Fault;

// A statement of one processor, which read these cells, wrote that one, and left that value there.
fn ran(
    alloc: Global,
    line: u32,
    reads: &[u32],
    write: Option<u32>,
    after: i64,
) -> Result<Entry, AllocError> {
    let mut acts = Vec::new(alloc);
    acts.push(Act {
        processor: None,
        reads: Vec::from_slice(alloc, reads)?,
        write,
        readings: Vec::new(alloc),
        written: None,
    })?;
    let mut cells = Vec::new(alloc);
    if let Some(cell) = write {
        cells.push(Change {
            cell: cell as usize,
            before: 0,
            after,
        })?;
    }
    Ok(Entry::Ran {
        location: Location { offset: 0, line },
        acts,
        cells,
        variables: Vec::new(alloc),
        locals: Vec::new(alloc),
        printed: Vec::new(alloc),
    })
}

// Processors 1 and 2 met at a cell.
fn conflict(alloc: Global, cell: u32) -> Result<Entry, AllocError> {
    Ok(Entry::Faulted {
        location: Location { offset: 0, line: 6 },
        fault: Fault {
            kind: Kind::ReadConflict,
            line: 6,
            place: Place::Cell(cell),
        },
        cause: None,
        acts: Vec::new(alloc),
        met: Vec::from_slice(alloc, &[1, 2])?,
        locals: Vec::new(alloc),
    })
}

// Whether a text stands in another one.
fn stands(part: &[u8], whole: &[u8]) -> bool {
    for i in 0..whole.len() {
        if whole.split_at(i).1.starts_with(part) {
            return true;
        }
    }
    false
}

// Those of the reads of a statement that stand in a subscript.
fn aside_of(alloc: Global, asides: &[Vec<bool>], place: usize) -> Result<Vec<bool>, AllocError> {
    match asides.get(place) {
        Some(aside) => Vec::from_slice(alloc, aside),
        None => Ok(Vec::new(alloc)),
    }
}

// What is drawn of entries between two numbers, where the first cells held 4 and 7 before.
fn drawing_by(
    alloc: Global,
    asides: &[Vec<bool>],
    entries: Vec<Entry>,
    from: usize,
    to: usize,
) -> Result<Drawing, AllocError> {
    let mut flow = Flow::new(alloc, from, to, &[4, 7])?;
    let mut place = 0usize;
    for entry in entries {
        flow.add(alloc, entry, aside_of(alloc, asides, place)?)?;
        place = place.saturating_add(1);
    }
    flow.finish()
}

fn picture_of(
    alloc: Global,
    layout: &Layout,
    only: &[CellSpan],
    drawing: &Drawing,
) -> Result<Buffer, Fail> {
    let mut out = Buffer::new(alloc);
    let text = b"a < b; end\nmore";
    write_flow(&mut out, layout, text, only, drawing)?;
    Ok(out)
}

fn picture_by(
    alloc: Global,
    layout: &Layout,
    asides: &[Vec<bool>],
    entries: Vec<Entry>,
    only: &[CellSpan],
    from: usize,
) -> Result<Buffer, Fail> {
    let drawing = drawing_by(alloc, asides, entries, from, 100)?;
    picture_of(alloc, layout, only, &drawing)
}

fn picture(
    alloc: Global,
    layout: &Layout,
    entries: Vec<Entry>,
    from: usize,
) -> Result<Buffer, Fail> {
    let none: Vec<Vec<bool>> = Vec::new(alloc);
    picture_by(alloc, layout, none.as_slice(), entries, &[], from)
}

// Of the third statement, which reads a[0] twice, these reads stand in a subscript.
fn third_by(alloc: Global, first: bool, second: bool) -> Result<Vec<Vec<bool>>, AllocError> {
    let mut asides = Vec::new(alloc);
    asides.push(Vec::new(alloc))?;
    asides.push(Vec::new(alloc))?;
    asides.push(Vec::from_slice(alloc, &[first, second])?)?;
    Ok(asides)
}

// Cells a[0], a[1] and s.
fn three_cells(alloc: Global) -> Result<Layout, AllocError> {
    let mut layout = Layout::new(alloc);
    layout.push_array(alloc, b"a", 0, 1)?;
    layout.push_cell(alloc, b"s")?;
    Ok(layout)
}

// a[0] is written, nothing is touched, s is written by one that reads a[0] twice, and s is read alone.
fn four_statements(alloc: Global) -> Result<Vec<Entry>, AllocError> {
    let mut entries = Vec::new(alloc);
    entries.push(ran(alloc, 3, &[], Some(0), 5)?)?;
    entries.push(ran(alloc, 4, &[], None, 0)?)?;
    entries.push(ran(alloc, 5, &[0, 0], Some(2), 10)?)?;
    entries.push(ran(alloc, 6, &[2], None, 0)?)?;
    Ok(entries)
}

// Rows of a[0] and s stand at 310 and 334, columns at 268, 368 and 468; the value 5 is 15 pixels wide, and 10 is 22.
#[test]
fn marks_stand_where_they_should(rt: HostRuntime) -> Result<(), Fail> {
    let alloc = rt.alloc();
    let out = picture(alloc, &three_cells(alloc)?, four_statements(alloc)?, 0)?;
    let text = out.bytes();
    assert!(rt; stands(b"<text x='192' y='314' text-anchor='end'>4</text>", text));
    assert!(rt; stands(b"<rect x='261' y='301' width='15' height='18'", text));
    assert!(rt; stands(b"<path d='M308 310L368 334'", text));
    assert!(rt; stands(b"<rect x='357' y='325' width='22' height='18'", text));
    assert!(rt;
        stands(
            b"<text x='368' y='338' text-anchor='middle'>10</text>",
            text
        )
    );
    assert!(rt; stands(b"<circle cx='468' cy='334'", text));
    Ok(())
}

// A line is dashed where each read of it stands in a subscript.
#[test]
fn lines_for_subscripts_are_dashed(rt: HostRuntime) -> Result<(), Fail> {
    let alloc = rt.alloc();
    let layout = three_cells(alloc)?;
    let dashed = picture_by(
        alloc,
        &layout,
        &third_by(alloc, true, true)?,
        four_statements(alloc)?,
        &[],
        0,
    )?;
    assert!(rt;
        stands(
            b"L368 334' fill='none' stroke='#000000' stroke-width='1.5' stroke-dasharray='6 4'/>",
            dashed.bytes()
        )
    );
    let full = picture_by(
        alloc,
        &layout,
        &third_by(alloc, true, false)?,
        four_statements(alloc)?,
        &[],
        0,
    )?;
    assert!(rt;
        stands(
            b"L368 334' fill='none' stroke='#000000' stroke-width='1.5'/>",
            full.bytes()
        )
    );
    Ok(())
}

// Of s alone there is a row, which is the first.
#[test]
fn chosen_cells_alone_are_drawn(rt: HostRuntime) -> Result<(), Fail> {
    let alloc = rt.alloc();
    let layout = three_cells(alloc)?;
    let entries = four_statements(alloc)?;
    let none: Vec<Vec<bool>> = Vec::new(alloc);
    let only = [CellSpan { first: 2, last: 2 }];
    let out = picture_by(alloc, &layout, none.as_slice(), entries, &only, 0)?;
    let text = out.bytes();
    assert!(rt;
        stands(
            b">3 cells, 1 of them drawn, 2 not: those that these statements touch, in 1 of 2 declarations</text>",
            text
        )
    );
    assert!(rt; stands(b"<text x='12' y='314'>s</text>", text));
    assert!(rt; !stands(b"<path d='M308 ", text));
    Ok(())
}

#[test]
fn it_is_said_what_is_drawn(rt: HostRuntime) -> Result<(), Fail> {
    let alloc = rt.alloc();
    let layout = three_cells(alloc)?;
    let out = picture(alloc, &layout, four_statements(alloc)?, 0)?;
    let text = out.bytes();
    assert!(rt;
        stands(
            b">4 statements, 3 of them drawn: those that touch shared memory</text>",
            text
        )
    );
    assert!(rt;
        stands(
            b">3 cells, 2 of them drawn, 1 not: those that these statements touch</text>",
            text
        )
    );
    assert!(rt; stands(b"<text x='12' y='338'>s</text>", text));
    assert!(rt; stands(b"font-size='11'>a &lt; b; end</text>", text));
    assert!(rt;
        stands(
            b"font-weight='bold'>3</text>\n<text x='368' y='286' text-anchor='middle'>line 5<",
            text
        )
    );
    let later = picture(alloc, &layout, four_statements(alloc)?, 2)?;
    assert!(rt;
        stands(
            b">4 statements, 2 of them drawn: those that touch shared memory from 2 to 4</text>",
            later.bytes()
        )
    );
    assert!(rt;
        stands(
            b"<text x='192' y='314' text-anchor='end'>5</text>",
            later.bytes()
        )
    );
    Ok(())
}

// Cells 1 to 70 of an array are written, one by each statement.
fn seventy_statements(alloc: Global) -> Result<Vec<Entry>, AllocError> {
    let mut entries = Vec::new(alloc);
    for cell in 0..70u32 {
        entries.push(ran(alloc, 3, &[], Some(cell), 1)?)?;
    }
    Ok(entries)
}

// And two processors met at the last one.
fn faulted_at_last(alloc: Global) -> Result<Vec<Entry>, AllocError> {
    let mut entries = seventy_statements(alloc)?;
    entries.push(conflict(alloc, 69)?)?;
    Ok(entries)
}

fn seventy_cells(alloc: Global) -> Result<Layout, AllocError> {
    let mut layout = Layout::new(alloc);
    layout.push_array(alloc, b"a", 1, 70)?;
    Ok(layout)
}

// The first 63 of 70 that ran, and the one that faulted at the last cell, which has row 63.
#[test]
fn a_fault_is_always_drawn(rt: HostRuntime) -> Result<(), Fail> {
    let alloc = rt.alloc();
    let layout = seventy_cells(alloc)?;
    let many = picture(alloc, &layout, seventy_statements(alloc)?, 0)?;
    assert!(rt;
        stands(
            b">70 statements, 64 of them drawn: those that touch shared memory, without 6 for",
            many.bytes()
        )
    );
    let out = picture(alloc, &layout, faulted_at_last(alloc)?, 0)?;
    let text = out.bytes();
    assert!(rt;
        stands(
            b">71 statements, 64 of them drawn: those that touch shared memory, without 7 for",
            text
        )
    );
    assert!(rt; stands(b">70 cells, 64 of them drawn, 6 not: those that", text));
    assert!(rt;
        stands(
            b"<rect x='6540' y='1813' width='56' height='18' fill='none'",
            text
        )
    );
    assert!(rt; stands(b"y='1856'>fault read-conflict a[70] line 6</text>", text));
    assert!(rt; stands(b"y='1874'>processors 1 2 met there</text>", text));
    Ok(())
}

// One that isn't asked for takes no room: then the first 64 are drawn.
#[test]
fn a_fault_behind_takes_no_room(rt: HostRuntime) -> Result<(), Fail> {
    let alloc = rt.alloc();
    let none: Vec<Vec<bool>> = Vec::new(alloc);
    let drawing = drawing_by(alloc, none.as_slice(), faulted_at_last(alloc)?, 1, 70)?;
    let out = picture_of(alloc, &seventy_cells(alloc)?, &[], &drawing)?;
    let text = out.bytes();
    assert!(rt;
        stands(
            b">71 statements, 64 of them drawn: those that touch shared memory from 1 to 70, without 6 for",
            text
        )
    );
    assert!(rt; !stands(b"fault read-conflict", text));
    Ok(())
}
