//! How forms are painted in several kinds of pictures.

ghost use Rattle.std.specs.Prelude.{◌≡◌};
ghost use Rattle.pictures.specs.Looks as spec;

use svg_texts::{Anchor, Colour, Face, Fill, Lettering, Paint, Stroke, Weight};

/// A line of a program.
pub(crate) const UPWARDS: Lettering = Lettering {
    anchor: Anchor::Start,
    face: Face::Code,
    ink: None,
    upwards: true,
};

/// A black line alone.
pub(crate) fn black(weight: Weight, dashed: bool) -> Paint
    ensures { result ≡ spec.black weight dashed }
{
    Paint {
        fill: Fill::Hollow,
        stroke: Some(Stroke {
            colour: Colour::Black,
            weight,
            dashed,
        }),
    }
}
