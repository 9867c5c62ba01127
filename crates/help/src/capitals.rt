//! Keywords in capitals.

ghost use Rattle.std.specs.Prelude.{◌≡◌};
ghost use Rattle.pram_model.specs.Names.{is_one_of};
ghost use Rattle.help.specs.Habits as spec;

fn is_frame_word(word: &[u8]) -> bool
    ensures { result ≡ is_one_of spec.frame_words word.now }
{
    matches!(
        word,
        b"RULE" | b"PROCS" | b"SHARED" | b"VAR" | b"LOCAL" | b"BEGIN" | b"END"
    )
}

fn is_block_word(word: &[u8]) -> bool
    ensures { result ≡ is_one_of spec.block_words word.now }
{
    matches!(
        word,
        b"FOR" | b"TO" | b"DO" | b"PARDO" | b"WHILE" | b"IF" | b"THEN"
    )
}

fn is_inner_word(word: &[u8]) -> bool
    ensures { result ≡ is_one_of spec.inner_words word.now }
{
    matches!(
        word,
        b"ELSE" | b"PRINT" | b"AND" | b"OR" | b"NOT" | b"DIV" | b"MOD"
    )
}

fn is_frame_title(word: &[u8]) -> bool
    ensures { result ≡ is_one_of spec.frame_titles word.now }
{
    matches!(
        word,
        b"Rule" | b"Procs" | b"Shared" | b"Var" | b"Local" | b"Begin" | b"End"
    )
}

fn is_block_title(word: &[u8]) -> bool
    ensures { result ≡ is_one_of spec.block_titles word.now }
{
    matches!(
        word,
        b"For" | b"To" | b"Do" | b"Pardo" | b"While" | b"If" | b"Then"
    )
}

fn is_inner_title(word: &[u8]) -> bool
    ensures { result ≡ is_one_of spec.inner_titles word.now }
{
    matches!(
        word,
        b"Else" | b"Print" | b"And" | b"Or" | b"Not" | b"Div" | b"Mod"
    )
}

fn is_upper(word: &[u8]) -> bool
    ensures { result ≡ spec.is_upper word.now }
{
    is_frame_word(word) || is_block_word(word) || is_inner_word(word)
}

fn is_title(word: &[u8]) -> bool
    ensures { result ≡ spec.is_title word.now }
{
    is_frame_title(word) || is_block_title(word) || is_inner_title(word)
}

/// Whether it is a keyword in capitals, or with a capital in front.
pub(crate) fn is_capitals(word: &[u8]) -> bool
    ensures { result ≡ spec.is_capitals word.now }
{
    is_upper(word) || is_title(word)
}
