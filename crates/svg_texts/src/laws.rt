//! What holds of each picture, whatever it shows.

ghost use Rattle.std.specs.Prelude.{codes};
ghost use Rattle.svg_texts.specs.Shapes.{Picture, picture_text};
ghost use Rattle.svg_texts.specs.WellFormed.{IsDocument};

/// The text of every picture is a document, whatever letters and numbers it has.
pub fn every_picture_is_well_formed()
    // The text of every picture is a well-formed element of XML and the end of its line, whatever its shapes, letters and numbers.
    ensures { (p : Picture) → IsDocument (picture_text p) }
{}

/// The grammar has this text, and none of those where an element has no end, the end of another one, or its end in another one; where a
/// text or a value has a raw `<` or `&`, or a value a quote; where a value has no quotes; where an attribute stands twice; and where two
/// elements stand side by side.
pub fn worked_texts()
    // A worked text of nested elements with attributes and a reference is well formed.
    ensures one { IsDocument (codes "<a b='1' c-d='x'>x &lt; y\n<e/><f g:h=''></f></a>\n") }
    // A text whose element has no end is not well formed.
    ensures no_end { IsDocument (codes "<a>\n") → ⊥ }
    // A text whose element ends by another name is not well formed.
    ensures other_end { IsDocument (codes "<a></b>\n") → ⊥ }
    // A text whose elements don't end in the order in which they began is not well formed.
    ensures crossed { IsDocument (codes "<a><b></a></b>\n") → ⊥ }
    // A text with a raw `<` in it is not well formed.
    ensures less { IsDocument (codes "<a>x < y</a>\n") → ⊥ }
    // A text with a raw `&` in it is not well formed.
    ensures ampersand { IsDocument (codes "<a>x & y</a>\n") → ⊥ }
    // A text with a raw `<` in a value is not well formed.
    ensures in_value { IsDocument (codes "<a b='<'/>\n") → ⊥ }
    // A text with a value that has the quote in which it stands is not well formed.
    ensures quote { IsDocument (codes "<a b='''/>\n") → ⊥ }
    // A text with an attribute whose value has no quotes is not well formed.
    ensures unquoted { IsDocument (codes "<a b=1/>\n") → ⊥ }
    // A text with an attribute that stands twice in its tag is not well formed.
    ensures twice { IsDocument (codes "<a b='' b=''/>\n") → ⊥ }
    // A text of two elements side by side is not well formed.
    ensures two { IsDocument (codes "<a/><a/>\n") → ⊥ }
{}
