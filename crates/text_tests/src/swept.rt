//! What no clause says: that calls succeed where memory is there; and texts, letter by letter.

use std::alloc::{AllocError, Global};
use std::test::Fail;
use sweeps::{Counts, Ending, SizeRow, growths_of, write_sweep, write_sweep_csv};
use text_out::{Buffer, WriteFault};

const EIGHT: Counts = Counts {
    time: 17,
    work: 28,
    width: 8,
    reads: 23,
    writes: 15,
    most_exchanges: 15,
    most_words: None,
};

const CUT: Counts = Counts {
    time: 3,
    work: 9,
    width: 8,
    reads: 8,
    writes: 8,
    most_exchanges: 4,
    most_words: Some(40),
};

// One of each kind.
fn mixed(alloc: Global) -> Result<[SizeRow; 4], AllocError> {
    let fault = Vec::from_slice(alloc, b"fault read-conflict a[1] line 4")?;
    let refusal = Vec::from_slice(alloc, b"refused E11 InputTooLong")?;
    Ok([
        SizeRow {
            size: 8,
            ending: Ending::Ended(EIGHT),
        },
        SizeRow {
            size: 9,
            ending: Ending::GoesOn(EIGHT),
        },
        SizeRow {
            size: 10,
            ending: Ending::Faulted(CUT, fault),
        },
        SizeRow {
            size: 11,
            ending: Ending::Refused(refusal),
        },
    ])
}

// A run of time 4 log n + 5 and work 2 n + 3 log n + 3.
fn tree(size: u64, time: u32, work: u64) -> SizeRow {
    let counts = Counts {
        time,
        work,
        ..EIGHT
    };
    SizeRow {
        size,
        ending: Ending::Ended(counts),
    }
}

fn trees() -> [SizeRow; 5] {
    [
        tree(4, 13, 17),
        tree(8, 17, 28),
        tree(16, 21, 47),
        tree(32, 25, 82),
        tree(64, 29, 149),
    ]
}

fn told(alloc: Global, name: &[u8], rows: &[SizeRow]) -> Result<Buffer, WriteFault> {
    let mut out = Buffer::new(alloc);
    let growths = growths_of(alloc, rows).map_err(|_| WriteFault)?;
    write_sweep(name, rows, &growths, &mut out)?;
    Ok(out)
}

fn csv(alloc: Global, name: &[u8], rows: &[SizeRow]) -> Result<Buffer, WriteFault> {
    let mut out = Buffer::new(alloc);
    write_sweep_csv(name, rows, &mut out)?;
    Ok(out)
}

#[test]
fn a_line_a_size(rt: HostRuntime) -> Result<(), Fail> {
    let rows = mixed(rt.alloc())?;
    let out = told(rt.alloc(), b"n", &rows)?;
    assert_eq!(rt;
        out.bytes(),
        b"n 8 time 17 work 28 width 8 reads 23 writes 15 exchanges at most 15 ended\n\
n 9 time 17 work 28 width 8 reads 23 writes 15 exchanges at most 15 goes on\n\
n 10 time 3 work 9 width 8 reads 8 writes 8 fault read-conflict a[1] line 4\n\
n 11 refused E11 InputTooLong\n"
            .as_slice()
    );
    Ok(())
}

#[test]
fn formulas_stand_behind_the_lines(rt: HostRuntime) -> Result<(), Fail> {
    let rows = trees();
    let out = told(rt.alloc(), b"m", &rows)?;
    assert_eq!(rt;
        out.bytes(),
        b"m 4 time 13 work 17 width 8 reads 23 writes 15 exchanges at most 15 ended\n\
m 8 time 17 work 28 width 8 reads 23 writes 15 exchanges at most 15 ended\n\
m 16 time 21 work 47 width 8 reads 23 writes 15 exchanges at most 15 ended\n\
m 32 time 25 work 82 width 8 reads 23 writes 15 exchanges at most 15 ended\n\
m 64 time 29 work 149 width 8 reads 23 writes 15 exchanges at most 15 ended\n\
at these sizes\n\
time 4 log m + 5\n\
work 2 m + 3 log m + 3\n"
            .as_slice()
    );
    Ok(())
}

#[test]
fn a_record_a_size(rt: HostRuntime) -> Result<(), Fail> {
    let rows = mixed(rt.alloc())?;
    let out = csv(rt.alloc(), b"n", &rows)?;
    assert_eq!(rt;
        out.bytes(),
        b"n,time,work,width,reads,writes,exchanges,words,outcome\n\
8,17,28,8,23,15,15,,ended\n\
9,17,28,8,23,15,15,,goes on\n\
10,3,9,8,8,8,,,fault read-conflict a[1] line 4\n\
11,,,,,,,,refused E11 InputTooLong\n"
            .as_slice()
    );
    Ok(())
}

#[test]
fn words_stand_behind_the_exchanges(rt: HostRuntime) -> Result<(), Fail> {
    let rows = [SizeRow {
        size: 8,
        ending: Ending::GoesOn(CUT),
    }];
    let out = told(rt.alloc(), b"n", &rows)?;
    assert_eq!(rt;
        out.bytes(),
        b"n 8 time 3 work 9 width 8 reads 8 writes 8 exchanges at most 4 words at most 40 goes on\n".as_slice()
    );
    let out = csv(rt.alloc(), b"n", &rows)?;
    assert_eq!(rt;
        out.bytes(),
        b"n,time,work,width,reads,writes,exchanges,words,outcome\n8,3,9,8,8,8,4,40,goes on\n".as_slice()
    );
    Ok(())
}

#[test]
fn marks_stand_in_quotes(rt: HostRuntime) -> Result<(), Fail> {
    let refusal = Vec::from_slice(rt.alloc(), b"no \"a\", no b")?;
    let rows = [SizeRow {
        size: 1,
        ending: Ending::Refused(refusal),
    }];
    let out = csv(rt.alloc(), b"a\nb", &rows)?;
    assert_eq!(rt;
        out.bytes(),
        b"\"a\nb\",time,work,width,reads,writes,exchanges,words,outcome\n1,,,,,,,,\"no \"\"a\"\", no b\"\n".as_slice()
    );
    Ok(())
}
