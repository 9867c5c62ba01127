//! The program `pramc`, over the system's files and streams.
#![tactic(auto)]

use command_requests::{NotText, Reader, Request};
use command_words::CommandLine;
use json_texts::out_of_memory_line;
use pramc::{ErrorStream, ProgressLine, Stop, Terminal, command};
use std::alloc::{AllocError, Global};
use std::env::{Env, FillError};
use std::io::{IsTerminal, Print};
use std::process::ExitCode;
use std::{env, io};
use system_files::{Stream, SystemFiles};
use text_out::Out;

// Standard error, to which all threads of a call can write.
#[derive(Drop)]
struct Errors<'a> {
    rt: &'a HostRuntime,
}

impl<'a> ErrorStream for Errors<'a> {
    fn put(&self, bytes: &[u8]) {
        let _ = self.rt.stderr().write_all(bytes);
    }
}

// What the streams are. Colours are wanted unless `NO_COLOR` is set and not empty.
fn terminal(rt: &HostRuntime) -> Terminal {
    let colours = match env::var(rt, "NO_COLOR") {
        Ok(value) => value.is_empty(),
        Err(env::VarError::NotPresent) => true,
        Err(_) => false,
    };
    Terminal {
        errors: rt.stderr().is_terminal(),
        gnu: false,
        output: rt.stdout().is_terminal(),
        colours,
    }
}

// The system gives a program no longer word.
const LONGEST: usize = 131_072;

// The words that ask for JSON, of which none is longer than that.
const FORMAT: &[u8] = b"--format";

const JSON: &[u8] = b"json";

const FORMAT_JSON: &[u8] = b"--format=json";

const LONGEST_OF_FORMAT: usize = 13;

// The words behind the program's name, and the first that isn't UTF-8, by its place.
#[derive(Drop)]
struct CallWords {
    texts: Vec<String>,
    wrong: Option<usize>,
}

// Bytes that are no UTF-8: those that are printed in ASCII as they are, and others by their numbers.
fn numbered(alloc: Global, bytes: &[u8]) -> Result<String, AllocError> {
    let mut text = String::new(alloc);
    for byte in bytes {
        if *byte >= b' ' && *byte < 127 {
            text.push(char::from(*byte))?;
        } else {
            text.push_str(format!(in alloc; "\\x{:02x}", *byte)?.as_str())?;
        }
    }
    Ok(text)
}

impl CallWords {
    fn push(&mut self, alloc: Global, bytes: &[u8]) -> Result<(), AllocError> {
        match String::from_utf8(Vec::from_slice(alloc, bytes)?) {
            Ok(text) => Ok(self.texts.push(text)?),
            Err(_) => {
                if self.wrong.is_none() {
                    self.wrong = Some(self.texts.len());
                }
                Ok(self.texts.push(numbered(alloc, bytes)?)?)
            }
        }
    }
}

// The words one by one, where one of them isn't UTF-8.
fn words_by_bytes(rt: &HostRuntime) -> Result<CallWords, AllocError> {
    let mut words = CallWords {
        texts: Vec::new(rt.alloc()),
        wrong: None,
    };
    let mut buffer = Vec::new(rt.alloc());
    buffer.resize(LONGEST, 0u8)?;
    for place in 1..usize::MAX {
        match rt.arg(place, buffer.as_mut_slice()) {
            Ok(count) => words.push(rt.alloc(), &buffer.as_slice()[..count])?,
            Err(FillError::NotPresent) => break,
            Err(FillError::TooLong) => return Err(AllocError),
        }
    }
    Ok(words)
}

// The words behind the program's name.
fn words(rt: &HostRuntime) -> Result<CallWords, AllocError> {
    match env::args(rt) {
        Ok(args) => Ok(CallWords {
            texts: args.skip(1).collect(rt.alloc())?,
            wrong: None,
        }),
        Err(e) if e.kind() == io::ErrorKind::InvalidData => words_by_bytes(rt),
        Err(_) => Err(AllocError),
    }
}

// Reads the words, or tells which of them isn't UTF-8.
#[derive(Clone, Copy)]
struct AnyLine<'w> {
    wrong: Option<&'w str>,
}

impl<'w> Reader for AnyLine<'w> {
    fn read<'a>(&self, alloc: Global, words: &'a [String]) -> Result<Request<'a>, Stop<'a>> {
        match self.wrong {
            None => CommandLine {}.read(alloc, words),
            Some(word) => NotText { word }.read(alloc, words),
        }
    }
}

fn line_of(words: &CallWords) -> AnyLine<'_> {
    match words.wrong {
        Some(place) if place < words.texts.len() => AnyLine {
            wrong: Some(words.texts[place].as_str()),
        },
        _ => AnyLine { wrong: None },
    }
}

// Whether the words ask for JSON. They are read one by one, which takes no memory: where there was none for all of them.
fn ask_for_json(rt: &HostRuntime) -> bool {
    let mut buffer = [0u8; LONGEST_OF_FORMAT];
    let mut behind_format = false;
    for place in 1..usize::MAX {
        let word: &[u8] = match rt.arg(place, &mut buffer) {
            Ok(count) => &buffer[..count],
            Err(FillError::NotPresent) => return false,
            Err(FillError::TooLong) => b"",
        };
        if word == FORMAT_JSON || (behind_format && word == JSON) {
            return true;
        }
        behind_format = word == FORMAT;
    }
    false
}

// What is told where memory for the words was refused.
fn no_memory(rt: &HostRuntime) -> &'static [u8] {
    if ask_for_json(rt) {
        out_of_memory_line()
    } else {
        b"refused E16 OutOfMemory\n"
    }
}

fn refused(rt: &HostRuntime) -> ExitCode {
    let mut err = Stream::new(rt.alloc(), rt.stderr());
    let _ = err.write_all(no_memory(rt));
    let _ = err.flush();
    ExitCode::from(2)
}

fn main(rt: HostRuntime) -> ExitCode {
    let words = match words(&rt) {
        Ok(words) => words,
        Err(AllocError) => return refused(&rt),
    };
    let terminal = terminal(&rt);
    let mut files = SystemFiles::new(&rt, rt.stdin());
    let mut progress = ProgressLine::new(&rt, Errors { rt: &rt }, terminal.errors);
    let mut out = Stream::new(rt.alloc(), rt.stdout());
    let mut err = Stream::new(rt.alloc(), rt.stderr());
    let status = command(
        &rt,
        rt.alloc(),
        &line_of(&words),
        words.texts.as_slice(),
        terminal,
        &mut files,
        &mut progress,
        &mut out,
        &mut err,
    );
    ExitCode::from(status.code())
}
