//! Names and keywords of the language.

ghost use Rattle.std.specs.Prelude.{◌≡◌, ◌||◌};
ghost use Rattle.pram_model.specs.Names as spec;

/// Whether a text is a name: a letter, then letters, digits and `_`, and no keyword.
pub fn is_name(text: &[u8]) -> bool
    ensures value { result ≡ spec.is_name text.now }
{
    begins_with_letter(text) && are_words(text) && !is_keyword(text)
}

fn begins_with_letter(text: &[u8]) -> bool
    ensures value { result ≡ spec.begins_with_letter text.now }
{
    match text {
        [first, ..] => first.is_ascii_alphabetic(),
        [] => false,
    }
}

fn are_words(text: &[u8]) -> bool
    ensures value { result ≡ spec.are_words text.now }
{
    for b in text {
        if !(b.is_ascii_alphabetic() || b.is_ascii_digit() || *b == b'_') {
            return false;
        }
    }
    true
}

/// Whether a text is a keyword.
pub fn is_keyword(text: &[u8]) -> bool
    ensures value { result ≡ spec.is_keyword text.now }
{
    is_early_keyword(text) || is_late_keyword(text)
}

fn is_early_keyword(text: &[u8]) -> bool
    ensures value { result ≡ spec.is_one_of spec.early_keywords text.now }
{
    match text {
        b"rule"
        | b"procs"
        | b"shared"
        | b"var"
        | b"local"
        | b"begin"
        | b"end"
        | b"for"
        | b"to"
        | b"do" => true,
        _ => false,
    }
}

fn is_late_keyword(text: &[u8]) -> bool
    ensures value { result ≡ spec.is_one_of spec.late_keywords text.now }
{
    match text {
        b"pardo"
        | b"while"
        | b"if"
        | b"then"
        | b"else"
        | b"print"
        | b"and"
        | b"or"
        | b"not"
        | b"div"
        | b"mod" => true,
        _ => false,
    }
}
