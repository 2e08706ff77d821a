//! A JSON object in printable ASCII, member by member.

ghost use Rattle.std.specs.Prelude.{◌≡◌, ◌++◌, true, IfOk, OnOk, codes, decimal, string_bytes};
ghost use Rattle.serde_json.specs.Data.{put, string, number, unsigned, null, no_members, object};
ghost use Rattle.serde_json.specs.View.{members_view, view};
ghost use Rattle.serde_json.specs.Written.{compact_text};
ghost use Rattle.watch_report.specs.Ascii.{are_plain, is_plain, is_printable, ascii_bytes};

use crate::ascii::ascii_text;
use explain_text::Utc;
use serde_json::{Map, Value};
use std::alloc::{AllocError, Global};

/// An object. Its members are written in the order of their keys.
#[derive(Drop)]
pub struct Object {
    members: Map<String, Value>,
    alloc: Global,
    ghost plain: { are_plain (members_view members.entries) ≡ true },
}

impl Object {
    /// An object without members. It takes no memory.
    pub fn new(alloc: Global) -> Object
        ensures { members_view result.members.entries ≡ no_members }
    {
        Object {
            members: Map::new(alloc),
            alloc,
        }
    }

    /// Sets this value for the key.
    fn put(&mut self, key: &str, value: Value) -> Result<(), AllocError>
        requires key { is_printable key.now ≡ true }
        requires value { is_plain (view value) ≡ true }
        ensures { OnOk result (members_view self.new.members.entries ≡ put key.now (view value) (members_view self.old.members.entries)) }
    {
        serde_json::put(&mut self.members, self.alloc, key, value)
    }

    /// Sets an owned text of printable ASCII for the key.
    fn string(&mut self, key: &str, text: String) -> Result<(), AllocError>
        requires key { is_printable key.now ≡ true }
        requires text { is_printable (string_bytes text) ≡ true }
        ensures { OnOk result (members_view self.new.members.entries ≡ put key.now (string (string_bytes text)) (members_view self.old.members.entries)) }
    {
        self.put(key, Value::String(text))
    }

    /// Sets a text for the key, of which bytes that aren't printable ASCII are written as `\xHH`.
    pub fn bytes(&mut self, key: &str, bytes: &[u8]) -> Result<(), AllocError>
        requires { is_printable key.now ≡ true }
        ensures { OnOk result (members_view self.new.members.entries ≡ put key.now (string (ascii_bytes bytes.now)) (members_view self.old.members.entries)) }
    {
        let text = ascii_text(self.alloc, bytes)?;
        self.string(key, text)
    }

    /// Sets a word of printable ASCII for the key.
    pub fn word(&mut self, key: &str, word: &str) -> Result<(), AllocError>
        requires key { is_printable key.now ≡ true }
        requires word { is_printable word.now ≡ true }
        ensures { OnOk result (members_view self.new.members.entries ≡ put key.now (string word.now) (members_view self.old.members.entries)) }
    {
        let text = String::from_str(self.alloc, word)?;
        self.string(key, text)
    }

    /// Sets a number for the key.
    pub fn number(&mut self, key: &str, value: u64) -> Result<(), AllocError>
        requires { is_printable key.now ≡ true }
        ensures { OnOk result (members_view self.new.members.entries ≡ put key.now (number (unsigned value)) (members_view self.old.members.entries)) }
    {
        self.put(key, Value::from(value))
    }

    /// Sets null for the key.
    pub fn nothing(&mut self, key: &str) -> Result<(), AllocError>
        requires { is_printable key.now ≡ true }
        ensures { OnOk result (members_view self.new.members.entries ≡ put key.now null (members_view self.old.members.entries)) }
    {
        self.put(key, Value::Null)
    }

    /// Sets nanoseconds for the key, as a text: JSON readers may round long numbers.
    pub fn nanoseconds(&mut self, key: &str, value: u64) -> Result<(), AllocError>
        requires { is_printable key.now ≡ true }
        ensures { OnOk result (members_view self.new.members.entries ≡ put key.now (string (decimal value)) (members_view self.old.members.entries)) }
    {
        let text = format!(in self.alloc; "{value}")?;
        self.string(key, text)
    }

    /// Sets a moment for the key, by the calendar, to the second.
    pub fn utc(&mut self, key: &str, moment: u64) -> Result<(), AllocError>
        requires { is_printable key.now ≡ true }
    {
        let utc = Utc { moment };
        let text = format!(in self.alloc; "{utc}")?;
        self.bytes(key, text.as_bytes())
    }

    /// The text of the object and an LF.
    pub fn to_line(self) -> Result<String, AllocError>
        ensures text { IfOk result (λ text. string_bytes text ≡ compact_text (object (members_view self.members.entries)) ++ codes "\n") }
    {
        let alloc = self.alloc;
        let Object { members, .. } = self;
        let mut text = Value::Object(members).to_string(alloc)?;
        text.push_str("\n")?;
        Ok(text)
    }
}
