//! Instructions by their words.

ghost use Rattle.std.specs.Prelude.{◌≡◌, ◌++◌, IfSome};
ghost use Rattle.superstep_listing.specs.Decoding as decoding;
ghost use Rattle.superstep_listing.specs.Listing as spec;
ghost use Rattle.superstep_listing.specs.Listing.{side_of, stem_of};

use superstep_instructions::{Arithmetic, Instr, Side, Truth};

/// The instruction of a word, with all operands 0.
pub(crate) fn template(word: &[u8]) -> Option<Instr>
    ensures value { result ≡ decoding.template_of word.now }
    ensures some { IfSome result (λ i. side_of i ++ stem_of i ≡ word.now) }
{
    if let Some(instr) = plain_word(word) {
        return Some(instr);
    }
    if let Some(instr) = control_word(word) {
        return Some(instr);
    }
    match word {
        [b'u', stem @ ..] => sided_word(Side::Uniform, stem),
        [b'p', stem @ ..] => sided_word(Side::Private, stem),
        _ => None,
    }
}

/// The same of a word without the letter of its side.
fn sided_word(side: Side, stem: &[u8]) -> Option<Instr>
    ensures value { result ≡ decoding.stem_template side stem.now }
    ensures some { IfSome result (λ i. (side_of i ≡ spec.side_word side) × (stem_of i ≡ stem.now)) }
{
    if let Some(instr) = move_word(side, stem) {
        return Some(instr);
    }
    operation_word(side, stem)
}

fn plain_word(word: &[u8]) -> Option<Instr>
    ensures value { result ≡ decoding.lookup decoding.plain_words word.now }
    ensures some { IfSome result (λ i. side_of i ++ stem_of i ≡ word.now) }
{
    match word {
        b"mark" => Some(Instr::Mark { line: 0 }),
        b"pfrom" => Some(Instr::CopyUniform {
            destination: 0,
            source: 0,
        }),
        b"pindex" => Some(Instr::Index { destination: 0 }),
        b"enter" => Some(Instr::Enter {
            low: 0,
            high: 0,
            position: 0,
        }),
        b"leave" => Some(Instr::Leave),
        b"mask" => Some(Instr::Mask { source: 0 }),
        b"flip" => Some(Instr::Flip),
        b"unmask" => Some(Instr::Unmask),
        _ => None,
    }
}

fn control_word(word: &[u8]) -> Option<Instr>
    ensures value { result ≡ decoding.lookup decoding.control_words word.now }
    ensures some { IfSome result (λ i. side_of i ++ stem_of i ≡ word.now) }
{
    match word {
        b"send" => Some(Instr::Send),
        b"reply" => Some(Instr::Reply),
        b"vote" => Some(Instr::Vote { destination: 0 }),
        b"print" => Some(Instr::Print { source: 0 }),
        b"jump" => Some(Instr::Jump { target: 0 }),
        b"jzero" => Some(Instr::JumpIfZero {
            source: 0,
            target: 0,
        }),
        b"halt" => Some(Instr::Halt),
        _ => None,
    }
}

fn move_word(side: Side, stem: &[u8]) -> Option<Instr>
    ensures value { result ≡ decoding.lookup (decoding.move_words side) stem.now }
    ensures some { IfSome result (λ i. (side_of i ≡ spec.side_word side) × (stem_of i ≡ stem.now)) }
{
    match stem {
        b"set" => Some(Instr::Set {
            side,
            destination: 0,
            value: 0,
        }),
        b"copy" => Some(Instr::Copy {
            side,
            destination: 0,
            source: 0,
        }),
        b"neg" => Some(Instr::Negate {
            side,
            destination: 0,
            source: 0,
            position: 0,
        }),
        b"not" => Some(Instr::Not {
            side,
            destination: 0,
            source: 0,
        }),
        b"ask" => Some(Instr::Ask {
            side,
            destination: 0,
            entry: 0,
            subscript: 0,
            position: 0,
        }),
        b"put" => Some(Instr::Put {
            side,
            entry: 0,
            subscript: 0,
            value: 0,
            position: 0,
        }),
        _ => None,
    }
}

fn operation_word(side: Side, stem: &[u8]) -> Option<Instr>
    ensures value { result ≡ decoding.lookup (decoding.operation_words side) stem.now }
    ensures some { IfSome result (λ i. (side_of i ≡ spec.side_word side) × (stem_of i ≡ stem.now)) }
{
    match stem {
        b"add" => Some(calculation(side, Arithmetic::Add)),
        b"sub" => Some(calculation(side, Arithmetic::Subtract)),
        b"mul" => Some(calculation(side, Arithmetic::Multiply)),
        b"div" => Some(calculation(side, Arithmetic::Divide)),
        b"mod" => Some(calculation(side, Arithmetic::Remainder)),
        b"eq" => Some(decision(side, Truth::Equal)),
        b"lt" => Some(decision(side, Truth::Less)),
        b"le" => Some(decision(side, Truth::AtMost)),
        b"and" => Some(decision(side, Truth::And)),
        b"or" => Some(decision(side, Truth::Or)),
        _ => None,
    }
}

fn calculation(side: Side, operation: Arithmetic) -> Instr
    ensures { result ≡ Instr.Calculate side operation 0 0 0 0 }
{
    Instr::Calculate {
        side,
        operation,
        destination: 0,
        left: 0,
        right: 0,
        position: 0,
    }
}

fn decision(side: Side, operation: Truth) -> Instr
    ensures { result ≡ Instr.Decide side operation 0 0 0 }
{
    Instr::Decide {
        side,
        operation,
        destination: 0,
        left: 0,
        right: 0,
    }
}
