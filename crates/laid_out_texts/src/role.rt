//! What a piece is for the layout.

ghost use Rattle.std.specs.Prelude.{◌≡◌, slice_index};
ghost use Rattle.pram_model.specs.Names.{is_one_of};
ghost use Rattle.laid_out_texts.specs.Roles as spec;

use crate::length::{begins_word, byte_at};
use crate::same::is_same_text;
use pram_model::is_keyword;

/// What a piece is for the layout.
#[derive(Clone, Copy, Debug, PartialEq, Eq)]
pub enum Role {
    /// A comment.
    Comment,
    /// A word behind which a block begins.
    Opens,
    /// `else`.
    Turns,
    /// `end`.
    Closes,
    /// `;`.
    Ends,
    /// Any other keyword.
    Keyword,
    /// A name, a number or a brace.
    Operand,
    /// `(`.
    OpensParen,
    /// `[` or `..`, which stand without spaces.
    Joins,
    /// `)` or `]`.
    ClosesParen,
    /// `-`, before an operand or between two.
    Minus,
    /// Any other sign.
    Sign,
}

fn opens(text: &[u8]) -> bool
    ensures { result ≡ is_one_of spec.opening_words text.now }
{
    match text {
        b"begin" | b"do" | b"then" | b"pardo" => true,
        _ => false,
    }
}

fn role_of_word(text: &[u8]) -> Role
    ensures { result ≡ spec.role_of_word text.now }
{
    if opens(text) {
        Role::Opens
    } else if is_same_text(text, b"else") {
        Role::Turns
    } else if is_same_text(text, b"end") {
        Role::Closes
    } else if is_keyword(text) {
        Role::Keyword
    } else {
        Role::Operand
    }
}

fn role_of_sign(text: &[u8]) -> Role
    ensures { result ≡ spec.role_of_sign text.now }
{
    if is_same_text(text, b";") {
        Role::Ends
    } else if is_same_text(text, b"(") {
        Role::OpensParen
    } else if is_same_text(text, b"[") || is_same_text(text, b"..") {
        Role::Joins
    } else if is_same_text(text, b")") || is_same_text(text, b"]") {
        Role::ClosesParen
    } else if is_same_text(text, b"-") {
        Role::Minus
    } else {
        Role::Sign
    }
}

/// What a piece of these bytes is.
#[tactic(auto, unfolding(crate::specs::Roles::role_of))]
pub(crate) fn role_of(text: &[u8]) -> Role
    ensures { result ≡ spec.role_of text.now }
{
    let first = byte_at(text, 0);
    if first == b'#' {
        Role::Comment
    } else if begins_word(first) {
        role_of_word(text)
    } else {
        role_of_sign(text)
    }
}

/// Whether it stands one level further out than what is before it.
pub(crate) fn dedents(role: Role) -> bool
    ensures { result ≡ spec.dedents role }
{
    match role {
        Role::Closes | Role::Turns => true,
        _ => false,
    }
}
