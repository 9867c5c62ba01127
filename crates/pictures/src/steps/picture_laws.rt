//! The laws of a picture of any part of a run.

ghost use Rattle.std.specs.Prelude.{◌≡◌, ◌≤◌, ◌<◌, ◌+◌, ◌-◌, ◌++◌, ◌∷◌, ◌⊎◌, ℕ, List, None, Some, [], ℤ, int_lt, true, length};
ghost use Rattle.std.specs.List.{AllPairs, Contains};
ghost use Rattle.pram_model.specs.Layout.{SharedEntry};
ghost use Rattle.journal.specs.Entries.{Act, Entry};
ghost use Rattle.pictures.specs.Steps.Bands.{label, label_line};
ghost use Rattle.pictures.specs.Steps.Columns.{column, more_at};
ghost use Rattle.pictures.specs.declared.steps.frame.Part.{Part};
ghost use Rattle.pictures.specs.Acts.{acts_in};
ghost use Rattle.pictures.specs.Steps.Drawn.{Numbered, acting_drawn, drawn, met_in, met_of, missing, place_of, rows_of};
ghost use Rattle.pictures.specs.Steps.Marks.{box, outline};
ghost use Rattle.pictures.specs.Steps.Measures.{Frame, column_left, frame_of, row_top, rows_top};
ghost use Rattle.pictures.specs.Steps.Picture.{ending_of, foot_line, gap_words, picture, statements_with};
ghost use Rattle.pictures.specs.Steps.Standing.{StandsAt, column_of, top_of};
ghost use Rattle.svg_texts.specs.Shapes.{IsIn};

/// Each statement that is drawn has a column, at a place that is no other's and within 1200 pixels: the 16 of a band stand beside one
/// another, and the next band below.
pub fn each_statement_has_a_column()
    // Each statement that is drawn has its column in the picture.
    ensures stands { (layout : List SharedEntry) (text : List ℕ) (part : Part) (es : List Entry) (j : ℕ) (d : Numbered) → StandsAt es j d →
        IsIn (column (frame_of layout text part es) (column_of layout text part es j d) d.entry) (picture layout text part es).shape }
    // No two columns stand at one place.
    ensures one { (f : Frame) (i j : ℕ) → column_left i ≡ column_left j → rows_top f i ≡ rows_top f j → i ≡ j }
    // Each column stands within 1200 pixels.
    ensures page { (j : ℕ) → column_left j + 64 ≤ 1200 }
{}

/// A processor that acts in a statement that is drawn, and has a row, has a box in that row of the column. A statement outside pardo has
/// its box in the row of number 0.
pub fn each_processor_has_a_box()
    // A processor that acts in a statement that is drawn, and has a row, has a box in that row of the column.
    ensures stands { (layout : List SharedEntry) (text : List ℕ) (part : Part) (es : List Entry) (j : ℕ) (d : Numbered) (a : Act) (i : ℤ) →
        StandsAt es j d → Contains (acts_in d.entry) a → a.processor ≡ Some i → Contains (rows_of es) i →
        IsIn (box layout (column_left j) (row_top (top_of layout text es j) (place_of (rows_of es) i + 1)) a)
        (picture layout text part es).shape }
    // A statement outside pardo has its box in row 0 of its column.
    ensures outside { (layout : List SharedEntry) (text : List ℕ) (part : Part) (es : List Entry) (j : ℕ) (d : Numbered) (a : Act) →
        StandsAt es j d → Contains (acts_in d.entry) a → a.processor ≡ None →
        IsIn (box layout (column_left j) (row_top (top_of layout text es j) 0) a) (picture layout text part es).shape }
{}

/// No row is of an index that neither acts in a statement that is drawn nor met at the fault; rows ascend, each index once, and there are
/// at most 64. Where there are fewer, each index that acts in a statement that is drawn has one.
pub fn rows_are_of_those_that_act()
    // No row is of an index that neither acts in what is drawn nor met at the fault.
    ensures acts { (es : List Entry) (i : ℤ) → Contains (rows_of es) i → Contains (acting_drawn es) i ⊎ Contains (met_of es) i }
    // The indices of the rows ascend, each once.
    ensures ascend { (es : List Entry) → AllPairs (λ x y. int_lt x y ≡ true) (rows_of es) }
    // There are at most 64 rows.
    ensures few { (es : List Entry) → length (rows_of es) ≤ 64 }
    // Where fewer than 64 indices have a row, each that acts in what is drawn has one.
    ensures all { (es : List Entry) (i : ℤ) → length (rows_of es) < 64 → Contains (acting_drawn es) i → Contains (rows_of es) i }
{}

/// An index that has a row has its name in front of that row, in each band.
pub fn each_row_has_its_name()
    // Each row has its index in front of it, in each band.
    ensures stands { (layout : List SharedEntry) (text : List ℕ) (part : Part) (es : List Entry) (j : ℕ) (d : Numbered) (i : ℤ) →
        StandsAt es j d → Contains (rows_of es) i →
        IsIn (label (label_line (top_of layout text es j) (place_of (rows_of es) i + 1)) i) (picture layout text part es).shape }
{}

/// The last statement is drawn, where alone a run faults; of those that met there, at most 64, each has a row, and in it an outline with
/// the word. Below the bands stand what the fault was and who met.
pub fn a_fault_is_drawn()
    // The last statement, where alone a run faults, is drawn.
    ensures drawn { (es : List Entry) (e : Entry) →
        Contains (drawn (es ++ e ∷ [])) (record { number = length es + 1; entry = e }) }
    // Where at most 64 processors met at the last statement's fault, each of these has a row.
    ensures rows { (es : List Entry) (e : Entry) (i : ℤ) → length (met_in e) ≤ 64 → Contains (met_in e) i →
        Contains (rows_of (es ++ e ∷ [])) i }
    // Each that met at a statement's fault and has a row has an outline in it.
    ensures outlined { (layout : List SharedEntry) (text : List ℕ) (part : Part) (es : List Entry) (j : ℕ) (d : Numbered) (i : ℤ) →
        StandsAt es j d → Contains (met_in d.entry) i → Contains (rows_of es) i →
        IsIn (outline (column_left j) (row_top (top_of layout text es j) (place_of (rows_of es) i + 1)) i)
        (picture layout text part es).shape }
    // Below the bands stands what the fault was and who met.
    ensures told { (layout : List SharedEntry) (text : List ℕ) (part : Part) (es : List Entry) (e : Entry) →
        IsIn (ending_of layout (foot_line (frame_of layout text part (es ++ e ∷ [])) (length (es ++ e ∷ []))) e)
        (picture layout text part (es ++ e ∷ [])).shape }
{}

/// Of more statements than are drawn it is told how many are not, and from which number to which; and below each column how many more
/// processors act in its statement than have a row.
pub fn what_is_left_out_is_told()
    // Where not all statements are drawn, it stands there how many are not, and from which to which.
    ensures statements { (layout : List SharedEntry) (text : List ℕ) (part : Part) (es : List Entry) → length (drawn es) < length es →
        IsIn (statements_with part (length es) (gap_words part (length es))) (picture layout text part es).shape }
    // Where not all statements are drawn, the number that stands there is that of all that aren't.
    ensures count { (es : List Entry) → length (drawn es) < length es → length (drawn es) + (length es - 112) ≡ length es }
    // Below each column stands how many of those that act in its statement have no row, where any has none.
    ensures processors { (layout : List SharedEntry) (text : List ℕ) (part : Part) (es : List Entry) (j : ℕ) (d : Numbered) →
        StandsAt es j d →
        0 < missing (rows_of es) (acts_in d.entry) →
        IsIn (more_at (column_left j) (row_top (top_of layout text es j) (length (rows_of es) + 1) + 13)
        (missing (rows_of es) (acts_in d.entry))) (picture layout text part es).shape }
{}
