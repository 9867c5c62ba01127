//! The message of why a call stops.

ghost use Rattle.std.specs.Prelude.{◌≡◌, IfOk, map, nat_lt, ◌-◌};
ghost use Rattle.std.specs.String.{string_bytes};
ghost use Rattle.command_requests.specs.Values.{IsWrong};
ghost use Rattle.command_requests.specs.Sentences.{word_fault};
ghost use Rattle.help.specs.Messages.{message_is};
ghost use Rattle.command_facts.specs.Messages as spec;

use command_requests::{Given, write_word_fault, wrong_option};
use diagnoses::{Halted, message_of};
use help::Message;
use program_texts::Stop;
use std::alloc::{AllocError, Global};
use text_out::Buffer;

// A sentence without the end of its line.
fn without_end(text: &[u8]) -> &[u8]
    ensures { result.now ≡ spec.without_end text.now }
{
    let count = text.len();
    if count > 0 { &text[..count - 1] } else { text }
}

// What is said of a word by the option that doesn't take it.
fn sentence_on(alloc: Global, wrong: Option<Given>, word: &str) -> Result<Vec<u8>, AllocError>
    ensures { IfOk result (λ text. text.items ≡ spec.without_end (word_fault wrong word.now)) }
{
    let mut text = Buffer::new(alloc);
    match write_word_fault(&mut text, wrong, word) {
        Ok(()) => Vec::from_slice(alloc, without_end(text.bytes())),
        Err(_) => Err(AllocError),
    }
}

fn word_message(alloc: Global, words: &[String], word: &str) -> Result<Message, AllocError>
    ensures { IfOk result (λ m. spec.IsWordMessage (map string_bytes words.now) word.now (message_is m)) }
{
    let wrong = wrong_option(words, word);
    let sentence = sentence_on(alloc, wrong, word)?;
    Ok(Message::said(alloc, None, sentence))
}

/// The message of why a call of these words stops: of a word of the command line the option that doesn't take it and what that wants, and
/// of anything else what there is to say of it by its files. `AllocError`: memory was refused.
pub fn message_for(
    alloc: Global,
    words: &[String],
    halted: &Halted<'_>,
) -> Result<Message, AllocError>
    // It is the message on why the call stops: of a word of the call by the option that doesn't take it, of anything
    // else by its files.
    ensures { IfOk result
        (λ m. spec.IsMessageFor (map string_bytes words.now) halted.now.stop halted.now.about (message_is m)) }
{
    match &halted.stop {
        Stop::Number(word) => word_message(alloc, words, word),
        _ => message_of(alloc, &halted.stop, &halted.about),
    }
}
