//! Lines of JSON.

ghost use Rattle.std.specs.Prelude.{◌∷◌, [], IfOk, OnOk, string_bytes};
ghost use Rattle.serde_json.specs.View.{view};
ghost use Rattle.json_texts.specs.Lines.{Adds, IsJson};
ghost use Rattle.json_texts.specs.Small.{IsReadable};

use serde_json::Value;
use std::alloc::{AllocError, Global};

/// Puts facts behind a text, as JSON on a line. Where memory was refused the text is as it was, or has the facts without the end of
/// their line.
pub(crate) fn push_line(alloc: Global, text: &mut String, facts: &Value) -> Result<(), AllocError>
    requires readable { IsReadable (view facts.now) }
    ensures json { OnOk result (Adds (view facts.now ∷ []) (string_bytes text.old) (string_bytes text.new)) }
{
    let json = facts.to_string(alloc)?;
    text.push_str(json.as_str())?;
    text.push_str("\n")
}

/// Facts as JSON, on a line.
pub fn line_of(alloc: Global, facts: &Value) -> Result<String, AllocError>
    requires readable { IsReadable (view facts.now) }
    // Facts without a float, nested no deeper than a reader takes, are one line of compact JSON, and the reader's
    // definition gives them back.
    ensures json { IfOk result (λ text. IsJson (view facts.now ∷ []) (string_bytes text)) }
{
    let mut text = String::new(alloc);
    push_line(alloc, &mut text, facts)?;
    Ok(text)
}
