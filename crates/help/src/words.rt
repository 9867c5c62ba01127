//! Tokens that would be something else in another language.

ghost use Rattle.std.specs.Prelude.{◌≡◌};
ghost use Rattle.pram_model.specs.Names.{is_one_of};
ghost use Rattle.help.specs.Habits as spec;

use crate::Choice;
use crate::capitals::is_capitals;
use crate::habit::Habit;
use crate::sign::{Sign, could};
use pram_tokens::{Binary, Fixed, Mark, Token};

// The words that end a block elsewhere.
fn is_end_word(word: &[u8]) -> bool
    ensures { result ≡ is_one_of spec.end_words word.now }
{
    matches!(
        word,
        b"endif" | b"endwhile" | b"endfor" | b"fi" | b"od" | b"done"
    )
}

// The words for `else if`.
fn is_else_if(word: &[u8]) -> bool
    ensures { result ≡ is_one_of spec.else_if_words word.now }
{
    matches!(word, b"elsif" | b"elseif" | b"elif")
}

// The words for a pardo.
fn is_pardo_word(word: &[u8]) -> bool
    ensures { result ≡ is_one_of spec.pardo_words word.now }
{
    matches!(word, b"forall" | b"foreach" | b"parfor" | b"parallel")
}

// The words that leave a loop elsewhere.
fn is_jump_word(word: &[u8]) -> bool
    ensures { result ≡ is_one_of spec.jump_words word.now }
{
    matches!(word, b"break" | b"continue" | b"exit")
}

fn word_habit(word: &[u8]) -> Option<Habit>
    ensures { result ≡ spec.word_habit word.now }
{
    if is_else_if(word) {
        Some(Habit::ElseIf)
    } else if is_end_word(word) {
        Some(Habit::BlockEnd)
    } else if is_pardo_word(word) {
        Some(Habit::Parallel)
    } else if is_jump_word(word) {
        Some(Habit::Jump)
    } else if is_capitals(word) {
        Some(Habit::Capitals)
    } else {
        None
    }
}

// Whether a token is a word of another language, and which habit that is.
fn name_habit(token: &Token) -> Option<Habit>
    ensures { result ≡ spec.name_habit token.now }
{
    match token {
        Token::Name(name) => word_habit(name.text.as_slice()),
        _ => None,
    }
}

fn behind_name(token: &Token) -> Option<Habit>
    ensures { result ≡ spec.behind_name token.now }
{
    match token {
        Token::Mark(Mark::OpenParen) => Some(Habit::Call),
        _ => None,
    }
}

fn behind_equal(token: &Token) -> Option<Habit>
    ensures { result ≡ spec.behind_equal token.now }
{
    match token {
        Token::Binary(Binary::Equal) => Some(Habit::Compare),
        Token::Binary(Binary::Less) => Some(Habit::Order),
        Token::Binary(Binary::Greater) => Some(Habit::Order),
        _ => None,
    }
}

fn behind_bracket(token: &Token) -> Option<Habit>
    ensures { result ≡ spec.behind_bracket token.now }
{
    match token {
        Token::Mark(Mark::OpenBracket) => Some(Habit::Subscript),
        _ => None,
    }
}

// In a declaration alone.
fn behind_bound(token: &Token) -> Option<Habit>
    ensures { result ≡ spec.behind_bound token.now }
{
    match token {
        Token::Binary(Binary::Subtract) => Some(Habit::Negative),
        _ => None,
    }
}

// In a range alone.
fn behind_at_most(token: &Token) -> Option<Habit>
    ensures { result ≡ spec.behind_at_most token.now }
{
    match token {
        Token::Number(_) => Some(Habit::Range),
        _ => None,
    }
}

// A token behind another one.
fn behind(before: &Token, token: &Token) -> Option<Habit>
    ensures { result ≡ spec.behind before.now token.now }
{
    match before {
        Token::Name(_) => behind_name(token),
        Token::Binary(Binary::Equal) => behind_equal(token),
        Token::Mark(Mark::CloseBracket) => behind_bracket(token),
        Token::Mark(Mark::OpenBracket) => behind_bound(token),
        Token::Mark(Mark::Range) => behind_bound(token),
        Token::Binary(Binary::AtMost) => behind_at_most(token),
        _ => None,
    }
}

fn if_could(found: &[Choice], sign: Sign, habit: Habit) -> Option<Habit>
    ensures { result ≡ spec.if_could sign found.now habit }
{
    if could(found, sign) {
        Some(habit)
    } else {
        None
    }
}

fn for_do(found: &[Choice]) -> Option<Habit>
    ensures { result ≡ spec.for_do found.now }
{
    if could(found, Sign::Then) {
        Some(Habit::Then)
    } else if could(found, Sign::Pardo) && !could(found, Sign::Do) {
        Some(Habit::Pardo)
    } else {
        None
    }
}

fn mark_habit(found: &[Choice], mark: Mark) -> Option<Habit>
    ensures { result ≡ spec.mark_habit found.now mark }
{
    match mark {
        Mark::Then => if_could(found, Sign::Do, Habit::Do),
        Mark::Pardo => if_could(found, Sign::Do, Habit::Range),
        Mark::Semicolon => if_could(found, Sign::Statement, Habit::Semicolon),
        Mark::Do => for_do(found),
        Mark::Rule | Mark::Procs | Mark::Shared | Mark::Var => {
            if_could(found, Sign::Statement, Habit::Declaration)
        }
        Mark::Local => if_could(found, Sign::Statement, Habit::Local),
        Mark::Begin => if_could(found, Sign::Statement, Habit::Begin),
        _ => None,
    }
}

// Whether two kinds alone could stand there.
fn are_two(found: &[Choice]) -> bool
    ensures { result ≡ spec.are_two found.now }
{
    match found {
        [_, _] => true,
        _ => false,
    }
}

fn becomes_habit(found: &[Choice], habit: Habit) -> Option<Habit>
    ensures { result ≡ spec.becomes_habit found.now habit }
{
    if are_two(found) {
        Some(habit)
    } else {
        Some(Habit::Range)
    }
}

// A comparison behind a name that could be assigned, or behind another comparison.
fn compare_habit(found: &[Choice]) -> Option<Habit>
    ensures { result ≡ spec.compare_habit found.now }
{
    if could(found, Sign::Becomes) {
        becomes_habit(found, Habit::Assign)
    } else {
        if_could(found, Sign::And, Habit::Chain)
    }
}

fn equal_habit(found: &[Choice]) -> Option<Habit>
    ensures { result ≡ spec.equal_habit found.now }
{
    if could(found, Sign::Becomes) {
        Some(Habit::Assign)
    } else {
        if_could(found, Sign::And, Habit::Chain)
    }
}

fn binary_habit(found: &[Choice], operator: Binary) -> Option<Habit>
    ensures { result ≡ spec.binary_habit found.now operator }
{
    match operator {
        Binary::Equal => equal_habit(found),
        Binary::Unequal | Binary::Less | Binary::AtMost | Binary::Greater | Binary::AtLeast => {
            compare_habit(found)
        }
        Binary::Add | Binary::Subtract | Binary::Multiply => {
            if_could(found, Sign::Becomes, Habit::Assign)
        }
        _ => None,
    }
}

// What stands behind the name of a `for` that counts.
fn in_habit(found: &[Choice]) -> Option<Habit>
    ensures { result ≡ spec.in_habit found.now }
{
    if could(found, Sign::Becomes) && !are_two(found) {
        Some(Habit::In)
    } else {
        None
    }
}

fn token_habit(found: &[Choice], token: &Token) -> Option<Habit>
    ensures { result ≡ spec.token_habit found.now token.now }
{
    match token {
        Token::Mark(mark) => mark_habit(found, *mark),
        Token::Binary(operator) => binary_habit(found, *operator),
        Token::Name(_) => in_habit(found),
        Token::Number(_) => in_habit(found),
        _ => None,
    }
}

fn mark_word(mark: Mark) -> Option<Habit>
    ensures { result ≡ spec.mark_word mark }
{
    match mark {
        Mark::OpenParen
        | Mark::CloseParen
        | Mark::OpenBracket
        | Mark::CloseBracket
        | Mark::Becomes
        | Mark::Semicolon
        | Mark::Range => None,
        _ => Some(Habit::Keyword),
    }
}

fn binary_word(operator: Binary) -> Option<Habit>
    ensures { result ≡ spec.binary_word operator }
{
    match operator {
        Binary::And | Binary::Or | Binary::Divide | Binary::Remainder => Some(Habit::Keyword),
        _ => None,
    }
}

fn word_of(token: &Token) -> Option<Habit>
    ensures { result ≡ spec.word_of token.now }
{
    match token {
        Token::Name(_) => None,
        Token::Number(_) => None,
        Token::Binary(operator) => binary_word(*operator),
        Token::Not => Some(Habit::Keyword),
        Token::Opening(_, _) => Some(Habit::Keyword),
        Token::Mark(mark) => mark_word(*mark),
    }
}

fn for_semicolon(token: &Token) -> Option<Habit>
    ensures { result ≡ spec.for_semicolon token.now }
{
    match token {
        Token::Mark(Mark::Becomes) => Some(Habit::Value),
        Token::Binary(Binary::Equal) => Some(Habit::Value),
        _ => None,
    }
}

fn for_range(token: &Token) -> Option<Habit>
    ensures { result ≡ spec.for_range token.now }
{
    match token {
        Token::Mark(Mark::CloseBracket) => Some(Habit::Bounds),
        _ => None,
    }
}

fn for_number(token: &Token) -> Option<Habit>
    ensures { result ≡ spec.for_number token.now }
{
    match token {
        Token::Name(_) => Some(Habit::Constant),
        _ => None,
    }
}

fn for_at_most(token: &Token) -> Option<Habit>
    ensures { result ≡ spec.for_at_most token.now }
{
    match token {
        Token::Binary(Binary::Less) => Some(Habit::Range),
        _ => None,
    }
}

// A token where that kind alone could stand.
fn for_one(choice: Choice, token: &Token) -> Option<Habit>
    ensures { result ≡ spec.for_one choice token.now }
{
    match choice {
        Choice::Name => word_of(token),
        Choice::Number => for_number(token),
        Choice::Fixed(Fixed::Mark(Mark::Semicolon)) => for_semicolon(token),
        Choice::Fixed(Fixed::Mark(Mark::Range)) => for_range(token),
        Choice::Fixed(Fixed::Binary(Binary::AtMost)) => for_at_most(token),
        Choice::Fixed(Fixed::Mark(Mark::Rule)) => Some(Habit::Frame),
        Choice::Fixed(Fixed::Mark(Mark::Procs)) => Some(Habit::Frame),
        _ => None,
    }
}

// A token where one kind alone could stand.
fn for_only(found: &[Choice], token: &Token) -> Option<Habit>
    ensures { result ≡ spec.for_only found.now token.now }
{
    match found {
        [choice] => for_one(*choice, token),
        _ => None,
    }
}

fn is_name(token: &Token) -> bool
    ensures { result ≡ spec.is_name token.now }
{
    match token {
        Token::Name(_) => true,
        _ => false,
    }
}

// A name at the front of a statement, behind which another name stands.
fn front_habit(before: &Token, found: &[Choice], token: &Token) -> Option<Habit>
    ensures { result ≡ spec.front_habit before.now found.now token.now }
{
    match before {
        Token::Name(_) => {
            if could(found, Sign::Becomes) && are_two(found) && is_name(token) {
                Some(Habit::Word)
            } else {
                None
            }
        }
        _ => None,
    }
}

// A name before `(`.
fn called_habit(word: &[u8]) -> Option<Habit>
    ensures { result ≡ spec.called_habit word.now }
{
    match word {
        b"min" | b"max" | b"abs" => Some(Habit::Function),
        b"log" | b"root" | b"pow" => Some(Habit::SizeFunction),
        _ => None,
    }
}

fn before_paren(before: &Token) -> Option<Habit>
    ensures { result ≡ spec.before_paren before.now }
{
    match before {
        Token::Name(name) => called_habit(name.text.as_slice()),
        _ => None,
    }
}

fn call_habit(before: &Token, token: &Token) -> Option<Habit>
    ensures { result ≡ spec.call_habit before.now token.now }
{
    match token {
        Token::Mark(Mark::OpenParen) => before_paren(before),
        _ => None,
    }
}

/// What the token before another one is.
pub(crate) fn before_habit(before: &Token, found: &[Choice], token: &Token) -> Option<Habit>
    ensures { result ≡ spec.before_habit before.now found.now token.now }
{
    name_habit(before).or(call_habit(before, token).or(front_habit(before, found, token)))
}

fn capitals_habit(token: &Token) -> Option<Habit>
    ensures { result ≡ spec.capitals_habit token.now }
{
    match token {
        Token::Name(name) => {
            if is_capitals(name.text.as_slice()) {
                Some(Habit::Capitals)
            } else {
                None
            }
        }
        _ => None,
    }
}

/// What a token is by itself, and by what could stand in its place.
pub(crate) fn only_habit(found: &[Choice], token: &Token) -> Option<Habit>
    ensures { result ≡ spec.only_habit found.now token.now }
{
    capitals_habit(token).or(for_only(found, token).or(token_habit(found, token)))
}

/// What a token is that can't stand behind another one.
pub(crate) fn habit_of(before: &Token, found: &[Choice], token: &Token) -> Option<Habit>
    ensures { result ≡ spec.habit_of before.now found.now token.now }
{
    behind(before, token).or(only_habit(found, token))
}
