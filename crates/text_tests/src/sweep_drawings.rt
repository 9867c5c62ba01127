//! What no clause says: that a picture is made; and pictures of few rows, letter by letter.

use pictures::write_sweep_picture;
use std::alloc::Global;
use std::test::Fail;
use sweeps::{Counts, Ending, SizeRow};
use text_out::{Buffer, WriteFault};

fn counts(time: u32, work: u64) -> Counts {
    Counts {
        time,
        work,
        width: 8,
        reads: 23,
        writes: 15,
        most_exchanges: 15,
        most_words: None,
    }
}

// A run of that time, with the size as its work.
fn ended(size: u64, time: u32) -> SizeRow {
    SizeRow {
        size,
        ending: Ending::Ended(counts(time, size)),
    }
}

// Whether a text stands in another one.
fn stands(part: &[u8], whole: &[u8]) -> bool {
    for i in 0..whole.len() {
        if whole.split_at(i).1.starts_with(part) {
            return true;
        }
    }
    false
}

fn picture(alloc: Global, name: &[u8], rows: &[SizeRow]) -> Result<Buffer, WriteFault> {
    let mut out = Buffer::new(alloc);
    write_sweep_picture(name, rows, &mut out)?;
    Ok(out)
}

// Numbers 13, 17 and 21 of 50, in 150 pixels, are 39, 51 and 63 pixels above 220; 4, 8 and 16 of 20 are 30, 60 and 120 above 450. 8 stands
// in the middle between 4 and 16.
#[test]
fn marks_stand_where_they_should(rt: HostRuntime) -> Result<(), Fail> {
    let rows = [ended(4, 13), ended(8, 17), ended(16, 21)];
    let out = picture(rt.alloc(), b"n", &rows)?;
    let text = out.bytes();
    assert!(rt; stands(b"points='184,181 424,169 664,157 '", text));
    assert!(rt; stands(b"points='184,420 424,390 664,330 '", text));
    assert!(rt;
        stands(
            b"<title>n 8 time 17</title>\n<circle cx='424' cy='169' r='4' fill='#000000' stroke='#000000' stroke-width='1'/>",
            text
        )
    );
    assert!(rt; stands(b"<text x='156' y='74' text-anchor='end'>50</text>", text));
    assert!(rt; stands(b"<text x='424' y='238' text-anchor='middle'>8</text>", text));
    assert!(rt; !stands(b" sizes</text>", text));
    Ok(())
}

#[test]
fn other_endings_have_other_marks(rt: HostRuntime) -> Result<(), Fail> {
    let alloc = rt.alloc();
    let rows = [
        ended(4, 13),
        SizeRow {
            size: 8,
            ending: Ending::GoesOn(counts(17, 8)),
        },
        SizeRow {
            size: 16,
            ending: Ending::Faulted(counts(3, 9), Vec::from_slice(alloc, b"fault a<b")?),
        },
        SizeRow {
            size: 32,
            ending: Ending::Refused(Vec::from_slice(alloc, b"refused \n")?),
        },
    ];
    let out = picture(alloc, b"n", &rows)?;
    let text = out.bytes();
    assert!(rt;
        stands(
            b"<title>n 8 time 17 goes on</title>\n<circle cx='344' cy='93' r='4' fill='#ffffff' stroke='#000000' stroke-width='1'/>",
            text
        )
    );
    assert!(rt;
        stands(
            b"<title>n 16 time 3 fault a&lt;b</title>\n<rect x='500' y='194' width='8' height='8' fill='#ffffff'",
            text
        )
    );
    assert!(rt;
        stands(
            b"<title>n 32 refused ?</title>\n<path d='M660 216L668 224'",
            text
        )
    );
    assert!(rt; stands(b"<path d='M668 216L660 224'", text));
    Ok(())
}

#[test]
fn great_numbers_and_no_rows(rt: HostRuntime) -> Result<(), Fail> {
    let rows = [
        SizeRow {
            size: 0,
            ending: Ending::Ended(counts(0, 0)),
        },
        SizeRow {
            size: u64::MAX,
            ending: Ending::Ended(counts(u32::MAX, u64::MAX)),
        },
    ];
    let out = picture(rt.alloc(), b"n", &rows)?;
    assert!(rt;
        stands(
            b"<title>n 0 work 0</title>\n<circle cx='184' cy='450'",
            out.bytes()
        )
    );
    assert!(rt;
        stands(
            b"<title>n 18446744073709551615 work 18446744073709551615</title>\n<circle cx='664' cy='312'",
            out.bytes()
        )
    );
    let none = picture(rt.alloc(), b"n", &[])?;
    assert!(rt; stands(b"points=''/>", none.bytes()));
    Ok(())
}
