//! Objects.

ghost use Rattle.std.specs.Prelude.{◌≡◌, OnOk, OnErr, map};
ghost use Rattle.serde_json.specs.Data.{no_members, object, put as with_member};
ghost use Rattle.serde_json.specs.View.{view};
ghost use Rattle.json_texts.specs.Facts as facts;
ghost use Rattle.json_texts.specs.Shown.{shown};

use crate::values::{large_of, letters_of, value_of, values_of};
use serde_json::{Map, Value, put};
use std::alloc::{AllocError, Global};
use text_places::escaped_name;

/// An object of JSON that takes its members one after another. Where memory was refused it is as it was.
#[derive(Drop)]
pub struct Object {
    alloc: Global,
    members: Map<String, Value>,
}

impl Object {
    /// No members yet.
    pub fn new(alloc: Global) -> Object
        // An object begins without members.
        ensures { shown result ≡ no_members }
    {
        Object {
            alloc,
            members: Map::new(alloc),
        }
    }

    /// Anything.
    pub fn put(&mut self, name: &str, value: Value) -> Result<(), AllocError>
        // The object has this member under its name, and the others as before.
        ensures ok { OnOk result (shown self.new ≡ with_member name.now (view value) (shown self.old)) }
        // Where memory was refused the object is as it was.
        ensures err { OnErr result (shown self.new ≡ shown self.old) }
    {
        put(&mut self.members, self.alloc, name, value)
    }

    /// A text.
    pub fn put_word(&mut self, name: &str, word: &str) -> Result<(), AllocError>
        // The object has this text under its name, and the others as before.
        ensures ok { OnOk result (shown self.new ≡ with_member name.now (facts.word word.now) (shown self.old)) }
        // Where memory was refused the object is as it was.
        ensures err { OnErr result (shown self.new ≡ shown self.old) }
    {
        let text = Value::try_from_str(self.alloc, word)?;
        self.put(name, text)
    }

    /// A text by its bytes. Those that are no UTF-8 are replaced.
    pub fn put_letters(&mut self, name: &str, bytes: &[u8]) -> Result<(), AllocError>
        // The object has the text of these bytes under its name, and the others as before.
        ensures ok { OnOk result (shown self.new ≡ with_member name.now (facts.letters bytes.now) (shown self.old)) }
        // Where memory was refused the object is as it was.
        ensures err { OnErr result (shown self.new ≡ shown self.old) }
    {
        let text = letters_of(self.alloc, bytes)?;
        self.put(name, text)
    }

    /// The name of a file or a word of the call, escaped as in words.
    pub fn put_told(&mut self, name: &str, text: &[u8]) -> Result<(), AllocError>
        // The object has the escaped text under its name, and the others as before.
        ensures ok { OnOk result (shown self.new ≡ with_member name.now (facts.told text.now) (shown self.old)) }
        // Where memory was refused the object is as it was.
        ensures err { OnErr result (shown self.new ≡ shown self.old) }
    {
        let told = escaped_name(self.alloc, text)?;
        self.put_letters(name, told.as_slice())
    }

    /// A value of a program: a string, in decimal.
    pub fn put_value(&mut self, name: &str, value: i64) -> Result<(), AllocError>
        // The object has this value, as a string of decimal digits, under its name, and the others as before.
        ensures ok { OnOk result (shown self.new ≡ with_member name.now (facts.value value) (shown self.old)) }
        // Where memory was refused the object is as it was.
        ensures err { OnErr result (shown self.new ≡ shown self.old) }
    {
        let digits = value_of(self.alloc, value)?;
        self.put(name, digits)
    }

    /// Values of a program, in order.
    pub fn put_values(&mut self, name: &str, values: &[i64]) -> Result<(), AllocError>
        // The object has the list of these values under its name, and the others as before.
        ensures ok { OnOk result (shown self.new ≡ with_member name.now (facts.values values.now) (shown self.old)) }
        // Where memory was refused the object is as it was.
        ensures err { OnErr result (shown self.new ≡ shown self.old) }
    {
        let list = values_of(self.alloc, values)?;
        self.put(name, list)
    }

    /// A sum: a number below 2^53, and from there on a string, in decimal.
    pub fn put_large(&mut self, name: &str, count: u128) -> Result<(), AllocError>
        // The object has this sum under its name, and the others as before.
        ensures ok { OnOk result (shown self.new ≡ with_member name.now (facts.large count) (shown self.old)) }
        // Where memory was refused the object is as it was.
        ensures err { OnErr result (shown self.new ≡ shown self.old) }
    {
        let digits = large_of(self.alloc, count)?;
        self.put(name, digits)
    }

    /// Any other count: a number.
    pub fn put_count(&mut self, name: &str, count: u64) -> Result<(), AllocError>
        // The object has this number under its name, and the others as before.
        ensures ok { OnOk result (shown self.new ≡ with_member name.now (facts.count count) (shown self.old)) }
        // Where memory was refused the object is as it was.
        ensures err { OnErr result (shown self.new ≡ shown self.old) }
    {
        self.put(name, Value::from(count))
    }

    /// A list.
    pub fn put_list(&mut self, name: &str, list: Vec<Value>) -> Result<(), AllocError>
        // The object has this list under its name, and the others as before.
        ensures ok { OnOk result (shown self.new ≡ with_member name.now (facts.list (map view list.items)) (shown self.old)) }
        // Where memory was refused the object is as it was.
        ensures err { OnErr result (shown self.new ≡ shown self.old) }
    {
        self.put(name, Value::Array(list))
    }

    /// The whole object.
    pub fn into_value(self) -> Value
        // The value is the object with all its members.
        ensures { view result ≡ object (shown self) }
    {
        Value::Object(self.members)
    }
}
