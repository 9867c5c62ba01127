//! A law of texts of inputs.

ghost use Rattle.std.specs.Prelude.{◌≡◌, ◌≤◌, length, true};
ghost use Rattle.std.specs.List.{list_all};
ghost use Rattle.pram_values.specs.Value.{fits};
ghost use Rattle.pram_tokens.specs.Input.{IsInputOf};
ghost use Rattle.pram_tokens.specs.Scanning.{longest};
ghost use Rattle.memory_texts.specs.InputText.{input_text};

/// What is written of an input is read back as it.
pub fn an_input_is_read_back(values: &[i64])
    requires words { list_all fits values.now ≡ true }
    requires short { length (input_text values.now) ≤ longest }
    // The text of an input, where it is no longer than a file of one may be, is read as just these values.
    ensures { IsInputOf (input_text values.now) values.now }
{}
