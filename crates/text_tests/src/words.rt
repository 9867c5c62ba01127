//! What no clause says: that an option is found, and sentences letter by letter.

use command_requests::{Given, write_word_fault, wrong_option};
use std::alloc::Global;
use std::test::Fail;
use text_out::Buffer;

// The words of a call, which stand there with spaces between them.
fn words_of(alloc: Global, call: &str) -> Result<Vec<String>, Fail> {
    let mut words = Vec::new(alloc);
    for word in call.split(' ') {
        words.push(String::from_str(alloc, word)?)?;
    }
    Ok(words)
}

// Whether that is said of a word of a call.
fn says(alloc: Global, call: &str, word: &str, sentence: &str) -> Result<bool, Fail> {
    let words = words_of(alloc, call)?;
    let mut out = Buffer::new(alloc);
    write_word_fault(&mut out, wrong_option(&words, word), word)?;
    Ok(out.bytes() == sentence.as_bytes())
}

#[test]
fn an_option_that_takes_the_word_is_passed(rt: HostRuntime) -> Result<(), Fail> {
    let alloc = rt.alloc();
    let words = words_of(alloc, "cost f --bound 0 --schedule 0")?;
    assert!(rt; wrong_option(&words, "0") == Some(Given::Schedule));
    let workers = words_of(alloc, "cost f --bound 0 --workers 0")?;
    assert!(rt; wrong_option(&workers, "0") == Some(Given::ToldWorkers));
    let running = words_of(alloc, "run f --workers x")?;
    assert!(rt; wrong_option(&running, "x") == Some(Given::Workers));
    let joined = words_of(alloc, "run f --reserve=3 --bound=3")?;
    assert!(rt; wrong_option(&joined, "3") == Some(Given::Reserve));
    let names = words_of(alloc, "run f --show a,nope")?;
    assert!(rt; wrong_option(&names, "nope") == Some(Given::Show));
    let none = words_of(alloc, "run f --random 1..9 --memory g")?;
    assert!(rt; wrong_option(&none, "--memory") == None);
    Ok(())
}

#[test]
fn sentences_are_these(rt: HostRuntime) -> Result<(), Fail> {
    let alloc = rt.alloc();
    assert!(rt;
        says(
            alloc,
            "run f --bound a\n\x1b[b",
            "a\n\x1b[b",
            "invalid `a\\n\\x1b[b` for `--bound`: it wants a number from 0 to 4294967295\n"
        )?
    );
    assert!(rt;
        says(
            alloc,
            "explain costs",
            "costs",
            "invalid `costs` for `explain`: it wants a refusal, as E6, a fault, as read-conflict, a command, language or options\n"
        )?
    );
    assert!(rt;
        says(
            alloc,
            "run f --seed 3",
            "--seed",
            "`--seed` goes with `--random` or `--draw` alone\n"
        )?
    );
    assert!(rt; says(alloc, "run f", "x", "")?);
    Ok(())
}
