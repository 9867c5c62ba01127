//! What is told of a text that is laid out, and whether it is written.

ghost use Rattle.std.specs.Prelude.{◌≡◌, ◌++◌, OnOk};
ghost use Rattle.pram_model.specs.Names.{same_text};
ghost use Rattle.command_files.specs.Arranged as spec;

use crate::arranging::ArrangedFile;
use command_requests::ArrangeForm;
use program_texts::Status;
use std::alloc::{AllocError, Global};
use text_places::escaped_name;

fn is_same_text(a: &[u8], b: &[u8]) -> bool
    ensures { result ≡ same_text a.now b.now }
{
    a == b
}

// Whether a text changes.
fn changes(file: &ArrangedFile<'_>) -> bool
    ensures { result ≡ spec.changes file.now }
{
    !is_same_text(&file.new, &file.old)
}

// Whether it is that of standard input.
fn is_input(file: &ArrangedFile<'_>) -> bool
    ensures { result ≡ spec.is_input file.now }
{
    is_same_text(file.name.as_bytes(), b"-")
}

// The line that names a file.
fn add_name(alloc: Global, to: &mut Vec<u8>, name: &str) -> Result<(), AllocError>
    ensures { OnOk result (to.new.items ≡ to.old.items ++ spec.name_line name.now) }
{
    let text = escaped_name(alloc, name.as_bytes())?;
    to.extend_from_slice(&text)?;
    to.push(b'\n')?;
    Ok(())
}

/// Puts behind a text what standard output has of a file.
pub(crate) fn add_told(
    alloc: Global,
    to: &mut Vec<u8>,
    form: ArrangeForm,
    file: &ArrangedFile<'_>,
) -> Result<(), AllocError>
    ensures { OnOk result (to.new.items ≡ to.old.items ++ spec.told_text form file.now) }
{
    match form {
        ArrangeForm::Shown => to.extend_from_slice(&file.new),
        ArrangeForm::Checked => {
            if changes(file) {
                add_name(alloc, to, file.name)
            } else {
                Ok(())
            }
        }
        ArrangeForm::InPlace => {
            if is_input(file) {
                to.extend_from_slice(&file.new)
            } else {
                Ok(())
            }
        }
    }
}

/// Whether a file is written anew.
pub(crate) fn is_written(form: ArrangeForm, file: &ArrangedFile<'_>) -> bool
    ensures { result ≡ spec.is_written form file.now }
{
    match form {
        ArrangeForm::InPlace => changes(file) && !is_input(file),
        _ => false,
    }
}

/// The exit status behind one more file.
pub(crate) fn status_behind(status: Status, form: ArrangeForm, file: &ArrangedFile<'_>) -> Status
    ensures { result ≡ spec.status_behind status form file.now }
{
    match status {
        Status::Refused => Status::Refused,
        _ => match form {
            ArrangeForm::Checked => {
                if changes(file) {
                    Status::Faulted
                } else {
                    status
                }
            }
            _ => status,
        },
    }
}
