//! The laws of a picture of the flow of data.

ghost use Rattle.std.specs.Prelude.{◌≡◌, ℕ, ◌+◌, ◌-◌, ◌<◌, ◌≤◌, ◌++◌, ℤ, Bool, List, Some, length, map, slice_index_or, true};
ghost use Rattle.std.specs.List.{Contains};
ghost use Rattle.svg_texts.specs.Shapes.{IsIn};
ghost use Rattle.pram_model.specs.Layout.{SharedEntry};
ghost use Rattle.journal.specs.Entries.{Act, Entry};
ghost use Rattle.pictures.specs.declared.flows.spans.CellSpan.{CellSpan};
ghost use Rattle.pictures.specs.Flows.Cells.{fault_cell, is_chosen, touched};
ghost use Rattle.pictures.specs.Acts.{acts_in};
ghost use Rattle.pictures.specs.Flows.Choice.{faulted, is_fault, ran, touching};
ghost use Rattle.pictures.specs.Flows.Laws.{IsCarried, IsColumn, arrows_of, cells, found, nodes_of, statements};
ghost use Rattle.pictures.specs.Flows.Marks.{Arrow, Node, arrow_by, node};
ghost use Rattle.pictures.specs.Flows.MarkShapes.{arrow_shape, node_shape};
ghost use Rattle.pictures.specs.Flows.Picture.{flow};
ghost use Rattle.pictures.specs.Flows.FactLaws.{FactsAreSo, RowsWereTouched, ThePictureIsItsShapes};
ghost use Rattle.pictures.specs.Flows.Values.{value_behind};

/// Each write of a statement in column 1 + i to a cell that has a row is a box of that column and that row, with the value that the cell
/// has behind the statement; and each box is a shape of the picture.
pub fn each_write_is_a_node()
    // Each write of a statement that has a column, to a cell that has a row, is a box there with the cell's value
    // behind the statement.
    ensures node { (only : List CellSpan) (opening : List ℤ) (es : List Entry) (from to i : ℕ) (p : ℕ × Entry) (a : Act) (cell : ℕ) →
        IsColumn (statements es from to) i p → Contains (acts_in p.1) a → a.write ≡ Some cell → Contains (cells only es from to) cell →
        Contains (nodes_of only opening es from to) (node (1 + i) (value_behind opening es p.0) cell) }
    // Each of these boxes is a shape of the picture.
    ensures drawn { (only : List CellSpan) (layout : List SharedEntry) (text : List ℕ) (aside : Entry → List Bool)
        (opening : List ℤ) (es : List Entry) (from to : ℕ) (n : Node) →
        Contains (nodes_of only opening es from to) n →
        IsIn (node_shape (cells only es from to) n) (flow layout text aside opening es only from to).shape }
{}

/// From each cell that a processor read comes a line to the cell that it wrote, where both have a row; each line is a shape of the picture;
/// and there is no other: a line of column 1 + i begins at a cell that a processor of that statement read, and ends at the one that it
/// wrote; and it is dashed exactly where no processor of it read that cell for the value that it wrote there, but for subscripts alone.
pub fn lines_come_from_reads()
    // From each cell that a processor read a line comes to the cell that it wrote, where both have a row.
    ensures line { (only : List CellSpan) (aside : Entry → List Bool) (es : List Entry) (from to i : ℕ) (p : ℕ × Entry)
        (a : Act) (source cell : ℕ) →
        IsColumn (statements es from to) i p → Contains (acts_in p.1) a → Contains a.reads source → a.write ≡ Some cell →
        Contains (cells only es from to) source → Contains (cells only es from to) cell →
        Contains (arrows_of only aside es from to) (arrow_by (1 + i) (aside p.1) (acts_in p.1) cell source) }
    // Each of these lines is a shape of the picture.
    ensures drawn { (only : List CellSpan) (layout : List SharedEntry) (text : List ℕ) (aside : Entry → List Bool)
        (opening : List ℤ) (es : List Entry) (from to : ℕ) (l : Arrow) → Contains (arrows_of only aside es from to) l →
        IsIn (arrow_shape (cells only es from to) l) (flow layout text aside opening es only from to).shape }
    // Every line is of such a read and write, dashed exactly where no processor read that cell for the value written
    // there, but for subscripts alone.
    ensures carried { (only : List CellSpan) (aside : Entry → List Bool) (es : List Entry) (from to : ℕ) (l : Arrow) →
        Contains (arrows_of only aside es from to) l → IsCarried aside 1 (statements es from to) l }
{}

/// Nothing is left out where it has room: a statement that faulted has a column where it is asked for; where no more than 64 statements
/// touch shared memory, those that faulted among them, all have a column, in the order of their numbers, with faults at the end; and no
/// statement has one that isn't asked for or touches none. No more than 64 cells that these touch and that are chosen have all a row, the
/// cell of a fault always has one, and none has that isn't chosen.
pub fn what_has_room_is_drawn()
    // A statement that faulted has a column where it is asked for.
    ensures fault { (es : List Entry) (from to i : ℕ) (e : Entry) → i < length es → slice_index_or es i e ≡ e → is_fault e ≡ true →
        from ≤ 1 + i → 1 + i ≤ to → Contains (statements es from to) (1 + i, e) }
    // Where the statements that ran have room beside those that faulted, all have a column, in order, with the faults
    // at the end.
    ensures statements { (es : List Entry) (from to : ℕ) → length (ran from to es) ≤ 64 - length (faulted from to es) →
        statements es from to ≡ ran from to es ++ faulted from to es }
    // Where at most 64 statements that are asked for touch shared memory, each of these has a column.
    ensures touching { (es : List Entry) (from to : ℕ) (p : ℕ × Entry) → length (touching from to es) ≤ 64 →
        Contains (touching from to es) p → Contains (statements es from to) p }
    // No statement has a column that isn't asked for or touches no shared memory.
    ensures no_other { (es : List Entry) (from to : ℕ) (p : ℕ × Entry) → Contains (statements es from to) p →
        Contains (touching from to es) p }
    // Where at most 64 chosen cells are touched by these statements, each of these cells has a row.
    ensures cells { (only : List CellSpan) (es : List Entry) (from to cell : ℕ) →
        Contains (touched only (map (λ p. p.1) (statements es from to))) cell → length (found only es from to) ≤ 64 →
        Contains (cells only es from to) cell }
    // The cell of a fault has a row, however many cells are touched.
    ensures fault_cell { (only : List CellSpan) (es : List Entry) (from to cell : ℕ) →
        fault_cell only (map (λ p. p.1) (statements es from to)) ≡ Some cell → Contains (cells only es from to) cell }
    // No cell has a row that isn't of a chosen declaration, where some are chosen.
    ensures chosen { (only : List CellSpan) (es : List Entry) (from to cell : ℕ) → Contains (cells only es from to) cell →
        is_chosen only cell ≡ true }
{}

/// The picture has a title and a size, and shows its head, and facts, each by its shape, and nothing else: rows, headings, lines, boxes,
/// rings and what is drawn of a fault. Each fact is so: a row has a cell that was touched, with its value before; a heading is of the
/// statement in that column; lines and boxes are those above; a ring is at a cell that a processor read which wrote none; and a fault is
/// that of its statement, with who met.
pub fn the_picture_is_its_shapes()
    // The picture is its title, its size, its head and the shapes of its facts, and nothing else.
    ensures whole { ThePictureIsItsShapes }
    // What each fact tells is so: a row's value before, a heading's statement, a line, a box, a ring's read without a
    // write, and a fault.
    ensures so { FactsAreSo }
    // A cell that has a row was touched by a statement that has a column.
    ensures touched { RowsWereTouched }
{}
