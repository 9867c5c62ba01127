//! The line of a terminal that says how far a call is.

use crossbeam_utils::atomic::AtomicCell;
use itoa::Buffer;
use observing::Watch;
use std::sync::Wait;
use std::time::{Clock, Instant};
use workers::Gate;

// Of an input as many values stand in the line.
const MOST_VALUES: usize = 10;
// To the beginning of the line, and nothing stands in it.
const EMPTY_LINE: &[u8] = b"\r\x1b[K";
// In milliseconds, how long a call of many runs and one long run are let alone, and how long a line stands.
const FIRST_LOOK: u64 = 1000;

const FIRST_RUN: u64 = 2000;

const NEXT: u64 = 1000;

/// A stream that all threads of a call can write to.
pub trait ErrorStream {
    /// Writes these bytes. What the stream refuses is left out.
    fn put(&self, bytes: &[u8]);
}

/// A line on a terminal, which stands in the place of the one before: `41250 of 1000000 inputs, at 0 4 1 2 5 0` one second after the call
/// began at the earliest, or `1234567 statements` of a run after two, and every second at most. It is gone when the call is over. Where the
/// stream is no terminal, nothing is written. Of a run by workers the first of them writes it, before its exchanges.
#[derive(Drop)]
pub struct ProgressLine<'a, C: Clock, E: ErrorStream> {
    clock: &'a C,
    stream: E,
    on_terminal: bool,
    begun: Option<Instant>,
    // when a line was written last, in milliseconds behind the beginning, and 0 before the first one
    last: AtomicCell<u64>,
    stands: AtomicCell<bool>,
}

impl<'a, C: Clock, E: ErrorStream> ProgressLine<'a, C, E> {
    /// The call begins, and no line stands yet.
    pub fn new(clock: &'a C, stream: E, on_terminal: bool) -> ProgressLine<'a, C, E> {
        ProgressLine {
            clock,
            stream,
            on_terminal,
            begun: Instant::now(clock).ok(),
            last: AtomicCell::new(0),
            stands: AtomicCell::new(false),
        }
    }

    // How many milliseconds the call has been going; 0 where there is no clock.
    fn milliseconds(&self) -> u64 {
        match (self.begun, Instant::now(self.clock)) {
            (Some(begun), Ok(now)) => {
                let passed = now.duration_since(begun);
                let seconds = passed.as_secs().saturating_mul(1000);
                seconds.saturating_add(u64::from(passed.subsec_millis()))
            }
            (_, _) => 0,
        }
    }

    // Whether it is time for a line, of which the first comes after so many milliseconds.
    fn is_due(&self, first: u64) -> bool {
        if !self.on_terminal {
            return false;
        }
        let (now, last) = (self.milliseconds(), self.last.load());
        let due = if last == 0 {
            first <= now
        } else {
            NEXT <= now.saturating_sub(last)
        };
        if due {
            self.last.store(now);
        }
        due
    }

    fn put_number(&self, number: u64) {
        self.stream.put(Buffer::new().format(number).as_bytes());
    }

    fn put_input(&self, input: &[i64]) {
        for place in 0..input.len().min(MOST_VALUES) {
            self.stream.put(b" ");
            self.stream
                .put(Buffer::new().format(input[place]).as_bytes());
        }
        if input.len() > MOST_VALUES {
            self.stream.put(b" ..");
        }
    }

    // A run is so far.
    fn put_statements(&self, statements: u32) {
        if !self.is_due(FIRST_RUN) {
            return;
        }
        self.stream.put(EMPTY_LINE);
        self.put_number(u64::from(statements));
        self.stream.put(b" statements");
        self.stands.store(true);
    }
}

impl<'a, C: Clock, E: ErrorStream> Watch for ProgressLine<'a, C, E> {
    fn look(&mut self, done: u64, all: u64, next: &[i64]) {
        if !self.is_due(FIRST_LOOK) {
            return;
        }
        self.stream.put(EMPTY_LINE);
        self.put_number(done);
        self.stream.put(b" of ");
        self.put_number(all);
        self.stream.put(b" inputs, at");
        self.put_input(next);
        self.stands.store(true);
    }

    fn ran(&mut self, statements: u32) {
        self.put_statements(statements);
    }

    fn elapsed(&self) -> u64 {
        self.milliseconds()
    }

    fn close(&mut self) {
        if self.stands.swap(false) {
            self.stream.put(EMPTY_LINE);
        }
    }
}

impl<'a, C: Clock, E: ErrorStream> Gate for ProgressLine<'a, C, E> {
    fn pass<R: Wait>(&self, _rt: &R, worker: u32, _phase: u64, statements: u32) {
        if worker == 0 {
            self.put_statements(statements);
        }
    }
}
