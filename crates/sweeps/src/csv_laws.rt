//! The law of CSV.

ghost use Rattle.std.specs.Prelude.{◌≡◌, ℕ, List};
ghost use Rattle.sweeps.specs.CsvReading.{records_of};
ghost use Rattle.sweeps.specs.CsvText.{csv_text, sweep_table};
ghost use Rattle.sweeps.specs.declared.size_row.SizeRow.{SizeRow};

/// A reader of CSV gets the table of a sweep back, whatever bytes its name and its texts have.
pub fn fields_are_read_back()
    // A table of values between commas is read back as the same table, whatever bytes stand in its fields.
    ensures { (name : List ℕ) (rows : List SizeRow) → records_of (csv_text name rows) ≡ sweep_table name rows }
{}
