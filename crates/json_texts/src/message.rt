//! Refusals with their messages.

ghost use Rattle.std.specs.Prelude.{◌≡◌, ◌∷◌, ◌++◌, [], IfOk, OnOk, Some, codes, map, string_bytes};
ghost use Rattle.std.specs.Option.{option_map};
ghost use Rattle.serde_json.specs.View.{view};
ghost use Rattle.json_texts.specs.Facts.{letters, with_fields};
ghost use Rattle.json_texts.specs.Lines.{IsJson};
ghost use Rattle.json_texts.specs.Shown.{shown};
ghost use Rattle.help.specs.GnuLines.{other_note, other_place};
ghost use Rattle.help.specs.Messages.{message_is};
ghost use Rattle.json_texts.specs.MessageFacts as spec;

use crate::refusal::put_stop;
use crate::{Object, Value, line_of};
use help::{Message, Other, Point};
use program_texts::Stop;
use std::alloc::{AllocError, Global};
use text_places::place_of;

// A byte of a file, by its line, its column and its offset.
fn put_byte(object: &mut Object, source: &[u8], at: usize) -> Result<(), AllocError>
    ensures { OnOk result (shown object.new ≡ with_fields (spec.point_fields source.now (Point.Byte at)) (shown object.old)) }
{
    let place = place_of(source, at);
    object.put_count("line", place.line as u64)?;
    object.put_count("column", place.column as u64)?;
    object.put_count("offset", at as u64)
}

fn put_point(object: &mut Object, source: &[u8], point: Point) -> Result<(), AllocError>
    ensures { OnOk result (shown object.new ≡ with_fields (spec.point_fields source.now point) (shown object.old)) }
{
    match point {
        Point::Byte(at) => put_byte(object, source, at),
        Point::Line(line) => object.put_count("line", line as u64),
    }
}

fn point_facts(alloc: Global, name: &[u8], source: &[u8], point: Point) -> Result<Value, AllocError>
    ensures { IfOk result (λ v. view v ≡ spec.point_facts name.now source.now point) }
{
    let mut object = Object::new(alloc);
    object.put_told("file", name)?;
    put_point(&mut object, source, point)?;
    Ok(object.into_value())
}

// The place, where there is one.
fn put_place(
    alloc: Global,
    object: &mut Object,
    name: &[u8],
    source: &[u8],
    place: Option<Point>,
) -> Result<(), AllocError>
    ensures { OnOk result (shown object.new ≡ with_fields (spec.place_field name.now source.now place) (shown object.old)) }
{
    match place {
        None => Ok(()),
        Some(point) => object.put("place", point_facts(alloc, name, source, point)?),
    }
}

// The line of a listing's instruction.
fn put_line(object: &mut Object, place: Option<Point>) -> Result<(), AllocError>
    ensures { OnOk result (shown object.new ≡ with_fields (spec.line_field place) (shown object.old)) }
{
    match place {
        None => Ok(()),
        Some(Point::Byte(_)) => Ok(()),
        Some(Point::Line(line)) => object.put_count("line", line as u64),
    }
}

// A text, where there is one.
fn put_text(object: &mut Object, name: &str, text: &[u8]) -> Result<(), AllocError>
    ensures { OnOk result (shown object.new ≡ with_fields (spec.text_field name.now text.now) (shown object.old)) }
{
    if text.is_empty() {
        Ok(())
    } else {
        object.put_letters(name, text)
    }
}

// A list, if anything is in it.
fn put_list(object: &mut Object, name: &str, list: Vec<Value>) -> Result<(), AllocError>
    ensures { OnOk result (shown object.new ≡ with_fields (spec.list_field name.now (map view list.items)) (shown object.old)) }
{
    if list.is_empty() {
        Ok(())
    } else {
        object.put_list(name, list)
    }
}

fn letters_of(alloc: Global, bytes: &[u8]) -> Result<Value, AllocError>
    ensures { IfOk result (λ v. view v ≡ letters bytes.now) }
{
    let text = String::from_utf8_lossy(alloc, bytes)?;
    Ok(Value::String(text))
}

fn texts_of(alloc: Global, texts: &[Vec<u8>]) -> Result<Vec<Value>, AllocError>
    ensures { IfOk result (λ list. map view list.items ≡ map letters (map (λ v. v.items) texts.now)) }
{
    let mut list = Vec::new(alloc);
    for text in texts {
        list.push(letters_of(alloc, text.as_slice())?)?;
    }
    Ok(list)
}

fn put_meant(object: &mut Object, meant: &Option<Vec<u8>>) -> Result<(), AllocError>
    ensures { OnOk result (shown object.new
        ≡ with_fields (spec.meant_field (option_map (λ v. v.items) meant.now)) (shown object.old)) }
{
    match meant {
        None => Ok(()),
        Some(name) => object.put_told("meant", name.as_slice()),
    }
}

// A sentence with a place.
fn note_facts(
    alloc: Global,
    name: &[u8],
    source: &[u8],
    sentence: &[u8],
    place: Option<Point>,
) -> Result<Value, AllocError>
    ensures { IfOk result (λ v. view v ≡ spec.note_facts name.now source.now sentence.now place) }
{
    let mut object = Object::new(alloc);
    object.put_letters("message", sentence)?;
    put_place(alloc, &mut object, name, source, place)?;
    Ok(object.into_value())
}

// What is said of a second place.
fn other_facts(alloc: Global, name: &[u8], source: &[u8], other: Other) -> Result<Value, AllocError>
    ensures { IfOk result (λ v. view v
        ≡ spec.note_facts name.now source.now (other_note other) (Some (other_place other))) }
{
    match other {
        Other::Begins(at) => {
            note_facts(
                alloc,
                name,
                source,
                b"it begins here",
                Some(Point::Byte(at)),
            )
        }
        Other::Ends(at) => {
            note_facts(alloc, name, source, b"it ends here", Some(Point::Byte(at)))
        }
    }
}

// The second sentence, with the first place.
fn add_more(
    alloc: Global,
    list: &mut Vec<Value>,
    name: &[u8],
    source: &[u8],
    more: &[u8],
    place: Option<Point>,
) -> Result<(), AllocError>
    ensures { OnOk result (map view list.new.items
        ≡ map view list.old.items ++ spec.more_notes name.now source.now more.now place) }
{
    if more.is_empty() {
        return Ok(());
    }
    let note = note_facts(alloc, name, source, more, place)?;
    list.push(note)?;
    Ok(())
}

// The second place.
fn add_other(
    alloc: Global,
    list: &mut Vec<Value>,
    name: &[u8],
    source: &[u8],
    other: Option<Other>,
) -> Result<(), AllocError>
    ensures { OnOk result (map view list.new.items
        ≡ map view list.old.items ++ spec.other_notes name.now source.now other) }
{
    match other {
        None => Ok(()),
        Some(other) => {
            list.push(other_facts(alloc, name, source, other)?)?;
            Ok(())
        }
    }
}

fn notes_of(
    alloc: Global,
    name: &[u8],
    source: &[u8],
    message: &Message,
) -> Result<Vec<Value>, AllocError>
    ensures { IfOk result (λ list. map view list.items
        ≡ spec.notes name.now source.now (message_is message.now)) }
{
    let mut list = Vec::new(alloc);
    add_more(
        alloc,
        &mut list,
        name,
        source,
        message.more.as_slice(),
        message.place,
    )?;
    add_other(alloc, &mut list, name, source, message.other)?;
    Ok(list)
}

fn put_said(
    alloc: Global,
    object: &mut Object,
    name: &[u8],
    source: &[u8],
    message: &Message,
) -> Result<(), AllocError>
    ensures { OnOk result (shown object.new
        ≡ with_fields (spec.said_fields name.now source.now (message_is message.now)) (shown object.old)) }
{
    put_line(object, message.place)?;
    put_text(object, "message", message.sentence.as_slice())?;
    put_place(alloc, object, name, source, message.place)
}

// What could stand there, if that is known.
fn put_expected(alloc: Global, object: &mut Object, texts: &[Vec<u8>]) -> Result<(), AllocError>
    ensures { OnOk result (shown object.new ≡ with_fields
        (spec.list_field (codes "expected") (map letters (map (λ v. v.items) texts.now))) (shown object.old)) }
{
    let expected = texts_of(alloc, texts)?;
    put_list(object, "expected", expected)
}

fn put_notes(
    alloc: Global,
    object: &mut Object,
    name: &[u8],
    source: &[u8],
    message: &Message,
) -> Result<(), AllocError>
    ensures { OnOk result (shown object.new ≡ with_fields
        (spec.list_field (codes "notes") (spec.notes name.now source.now (message_is message.now))) (shown object.old)) }
{
    let notes = notes_of(alloc, name, source, message)?;
    put_list(object, "notes", notes)
}

fn put_known(
    alloc: Global,
    object: &mut Object,
    name: &[u8],
    source: &[u8],
    message: &Message,
) -> Result<(), AllocError>
    ensures { OnOk result (shown object.new
        ≡ with_fields (spec.known_fields name.now source.now (message_is message.now)) (shown object.old)) }
{
    put_expected(alloc, object, message.expected.as_slice())?;
    put_meant(object, &message.meant)?;
    put_notes(alloc, object, name, source, message)
}

fn put_message(
    alloc: Global,
    object: &mut Object,
    name: &[u8],
    source: &[u8],
    message: &Message,
) -> Result<(), AllocError>
    ensures { OnOk result (shown object.new
        ≡ with_fields (spec.message_fields name.now source.now (message_is message.now)) (shown object.old)) }
{
    put_said(alloc, object, name, source, message)?;
    put_known(alloc, object, name, source, message)
}

fn refusal_facts(
    alloc: Global,
    name: &[u8],
    source: &[u8],
    stop: &Stop<'_>,
    message: &Message,
) -> Result<Value, AllocError>
    ensures { IfOk result (λ v. view v
        ≡ spec.refusal_facts name.now source.now stop.now (message_is message.now)) }
{
    let mut object = Object::new(alloc);
    put_stop(&mut object, source, stop)?;
    put_message(alloc, &mut object, name, source, message)?;
    Ok(object.into_value())
}

/// Why a call stops, and what there is to say of it, on a line. The file of the text that was refused has that name and holds this; where
/// the refusal is about no text it makes no difference. Beside the number and the name of the refusal, and its place, it has, each where
/// there is such a thing, the sentence (`message`), its `place` with `file`, `line`, and of a byte `column` and `offset`, what could stand
/// there (`expected`), the name that was `meant`, and `notes`, each a `message` with a `place`; and of an instruction that is refused the
/// `line`.
pub fn json_refusal(
    alloc: Global,
    name: &[u8],
    source: &[u8],
    stop: &Stop<'_>,
    message: &Message,
) -> Result<String, AllocError>
    // The line is exactly the facts of the refusal, of its message and of the places in the file, and read as JSON it
    // is these again.
    ensures json { IfOk result (λ text. IsJson
        (spec.refusal_facts name.now source.now stop.now (message_is message.now) ∷ []) (string_bytes text)) }
{
    let facts = refusal_facts(alloc, name, source, stop, message)?;
    line_of(alloc, &facts)
}
