//! The law of a picture of runs at several sizes.

ghost use Rattle.std.specs.Prelude.{ℕ, List};
ghost use Rattle.std.specs.List.{Contains};
ghost use Rattle.sweeps.specs.declared.measure.Measure.{Measure};
ghost use Rattle.sweeps.specs.declared.measure.Measure.TheVariants.{Time, Work};
ghost use Rattle.sweeps.specs.declared.size_row.SizeRow.{SizeRow};
ghost use Rattle.svg_texts.specs.Shapes.{IsIn};
ghost use Rattle.pictures.specs.Sizes.Marks.{mark};
ghost use Rattle.pictures.specs.Sizes.Picture.{frame_of, picture};
ghost use Rattle.pictures.specs.Sizes.Places.{drawn};

/// Each row that is drawn has in the picture a mark with a title of its own size and time, and one with its own size and work.
pub fn each_row_is_told()
    // Each of the first 64 rows has its mark in the picture, with its size and its time.
    ensures time { (name : List ℕ) (rows : List SizeRow) (row : SizeRow) → Contains (drawn rows) row →
        IsIn (mark name (frame_of Time 220 (drawn rows)) row) (picture name rows).shape }
    // Each of the first 64 rows has its mark in the picture, with its size and its work.
    ensures work { (name : List ℕ) (rows : List SizeRow) (row : SizeRow) → Contains (drawn rows) row →
        IsIn (mark name (frame_of Work 450 (drawn rows)) row) (picture name rows).shape }
{}
