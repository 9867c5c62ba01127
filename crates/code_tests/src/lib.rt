//! Tests of superstep code that reach into the machine: words that no worker sends.
#![tactic(auto)]

#[cfg(test)]
mod codes;
#[cfg(test)]
mod strange_words;
#[cfg(test)]
mod two_messages;
