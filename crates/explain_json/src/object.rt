//! JSON objects and lists, member by member.

ghost use Rattle.std.specs.Prelude.{◌≡◌, IfOk, OnOk, decimal, string_bytes};
ghost use Rattle.serde_json.specs.Data.{put, string, number, unsigned, boolean, null, array, no_members};
ghost use Rattle.serde_json.specs.View.{view, items_view};
ghost use Rattle.serde_json.specs.Written.{IsInOrder};
ghost use Rattle.explain_json.specs.Answered.{members_of, data_of};

use explain_text::Escaped;
use serde_json::{Map, Value};
use std::alloc::{AllocError, Global};

/// An object. Its members are written in the order of their keys.
#[derive(Drop)]
pub struct Object {
    members: Map<String, Value>,
    alloc: Global,
}

/// A list.
#[derive(Drop)]
pub struct List {
    items: Vec<Value>,
}

impl Object {
    /// An object without members. It takes no memory.
    pub fn new(alloc: Global) -> Object
        ensures { members_of result ≡ no_members }
    {
        Object {
            members: Map::new(alloc),
            alloc,
        }
    }

    /// The allocator of its members.
    pub fn alloc(&self) -> Global {
        self.alloc
    }

    /// Sets this value for the key.
    fn put(&mut self, key: &str, value: Value) -> Result<(), AllocError>
        ensures { OnOk result (members_of self.new ≡ put key.now (view value) (members_of self.old)) }
    {
        serde_json::put(&mut self.members, self.alloc, key, value)
    }

    /// Sets a text for the key.
    pub fn text(&mut self, key: &str, text: &str) -> Result<(), AllocError>
        ensures { OnOk result (members_of self.new ≡ put key.now (string text.now) (members_of self.old)) }
    {
        let value = Value::try_from_str(self.alloc, text)?;
        self.put(key, value)
    }

    /// Sets an owned text for the key.
    pub fn string(&mut self, key: &str, text: String) -> Result<(), AllocError>
        ensures { OnOk result (members_of self.new ≡ put key.now (string (string_bytes text)) (members_of self.old)) }
    {
        self.put(key, Value::String(text))
    }

    /// Sets a number for the key.
    pub fn number(&mut self, key: &str, value: u64) -> Result<(), AllocError>
        ensures { OnOk result (members_of self.new ≡ put key.now (number (unsigned value)) (members_of self.old)) }
    {
        self.put(key, Value::from(value))
    }

    /// Sets true or false for the key.
    pub fn flag(&mut self, key: &str, value: bool) -> Result<(), AllocError>
        ensures { OnOk result (members_of self.new ≡ put key.now (boolean value) (members_of self.old)) }
    {
        self.put(key, Value::Bool(value))
    }

    /// Sets null for the key.
    pub fn nothing(&mut self, key: &str) -> Result<(), AllocError>
        ensures { OnOk result (members_of self.new ≡ put key.now null (members_of self.old)) }
    {
        self.put(key, Value::Null)
    }

    /// Sets an object for the key.
    pub fn object(&mut self, key: &str, value: Object) -> Result<(), AllocError>
        ensures { OnOk result (members_of self.new ≡ put key.now (data_of value) (members_of self.old)) }
    {
        let Object { members, .. } = value;
        self.put(key, Value::Object(members))
    }

    /// Sets a list for the key.
    pub fn list(&mut self, key: &str, list: List) -> Result<(), AllocError>
        ensures { OnOk result (members_of self.new ≡ put key.now (array (items_view list.items.items)) (members_of self.old)) }
    {
        self.put(key, Value::Array(list.items))
    }

    /// Sets nanoseconds for the key, as a text: JSON readers may round numbers with that many
    /// digits.
    pub fn nanoseconds(&mut self, key: &str, value: u64) -> Result<(), AllocError>
        ensures { OnOk result (members_of self.new ≡ put key.now (string (decimal value)) (members_of self.old)) }
    {
        let text = format!(in self.alloc; "{value}")?;
        self.string(key, text)
    }

    /// Sets bytes for the key as a text, from which they can be recovered: `explain_text::Escaped`.
    pub fn bytes(&mut self, key: &str, bytes: &[u8]) -> Result<(), AllocError> {
        let told = Escaped { bytes };
        let text = format!(in self.alloc; "{told}")?;
        self.string(key, text)
    }

    /// The text of the object, on one line.
    pub fn to_line(self) -> Result<String, AllocError>
        ensures { IfOk result (λ text. IsInOrder (string_bytes text) (data_of self)) }
    {
        let alloc = self.alloc;
        let Object { members, .. } = self;
        Value::Object(members).to_string(alloc)
    }
}

impl List {
    /// A list without items. It takes no memory.
    pub fn new(alloc: Global) -> List {
        List {
            items: Vec::new(alloc),
        }
    }

    /// Adds an object.
    pub fn object(&mut self, value: Object) -> Result<(), AllocError> {
        let Object { members, .. } = value;
        serde_json::push(&mut self.items, Value::Object(members))
    }
}
