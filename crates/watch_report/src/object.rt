//! An object of JSON that is being written.
ghost use Rattle.std.specs.Prelude.{◌≡◌, ◌++◌, ◌∷◌, [], IfOk, OnOk};
ghost use Rattle.json.specs.Token.{begin_array, begin_object, boolean, end_array, end_object, key, null};
ghost use Rattle.watch_report.specs.JsonObjects.{field, hexadecimal_value, json_line, number_value, text_value};

use crate::push::{push, push_hexadecimal};
use json::Writer;
use std::alloc::{AllocError, Global};
use std::marker::Model;

/// An object that is being written: in contracts the tokens that it has.
#[derive(Drop)]
pub(crate) struct Object {
    alloc: Global,
    writer: Writer,
}

impl Model for Object {
    ghost use Rattle.std.specs.Prelude.{List};
    ghost use Rattle.json.specs.Token.{Token, tokens_code};

    ghost Value = { List Token };

    ghost coded = { tokens_code };

    ghost use Rattle.watch_report.specs.Objects.{IsObject, written_of};

    ghost view = { written_of };

    ghost invariant = { IsObject };
}

impl Object {
    /// Begins an object.
    pub(crate) fn begin(alloc: Global) -> Result<Object, AllocError>
        ensures ok { IfOk result (λ object. object ≡ begin_object ∷ []) }
    {
        let mut writer = Writer::new(Vec::new(alloc));
        writer.begin_object()?;
        Ok(Object { alloc, writer })
    }

    /// Adds a field with a string of these bytes.
    #[tactic(auto, unfolding(crate::specs::JsonObjects::field))]
    pub(crate) fn text(&mut self, name: &str, bytes: &[u8]) -> Result<(), AllocError>
        ensures ok { OnOk result (self.new ≡ self.old ++ field name.now (text_value bytes.now)) }
    {
        let text = String::from_utf8_lossy(self.alloc, bytes)?;
        self.writer.key(name)?;
        self.writer.string(text.as_str())
    }

    /// Adds a field with a number.
    #[tactic(auto, unfolding(crate::specs::JsonObjects::field))]
    pub(crate) fn number(&mut self, name: &str, n: u64) -> Result<(), AllocError>
        ensures ok { OnOk result (self.new ≡ self.old ++ field name.now (number_value n)) }
    {
        self.writer.key(name)?;
        self.writer.u64(n)
    }

    /// Adds a field with a string of the hexadecimal digits of a number.
    pub(crate) fn hexadecimal(&mut self, name: &str, n: u64) -> Result<(), AllocError>
        ensures ok { OnOk result (self.new ≡ self.old ++ field name.now (hexadecimal_value n)) }
    {
        let mut digits = Vec::new(self.alloc);
        push_hexadecimal(&mut digits, n)?;
        self.text(name, digits.as_slice())
    }

    /// Adds a field that is true or false.
    #[tactic(auto, unfolding(crate::specs::JsonObjects::field))]
    pub(crate) fn boolean(&mut self, name: &str, is_so: bool) -> Result<(), AllocError>
        ensures ok { OnOk result (self.new ≡ self.old ++ field name.now (boolean is_so)) }
    {
        self.writer.key(name)?;
        self.writer.boolean(is_so)
    }

    /// Adds a field without a value.
    #[tactic(auto, unfolding(crate::specs::JsonObjects::field))]
    pub(crate) fn null(&mut self, name: &str) -> Result<(), AllocError>
        ensures ok { OnOk result (self.new ≡ self.old ++ field name.now null) }
    {
        self.writer.key(name)?;
        self.writer.null()
    }

    /// Begins a field with an object.
    pub(crate) fn begin_field(&mut self, name: &str) -> Result<(), AllocError>
        ensures ok { OnOk result (self.new ≡ self.old ++ key name.now ∷ begin_object ∷ []) }
    {
        self.writer.key(name)?;
        self.writer.begin_object()
    }

    /// Ends the object of a field.
    pub(crate) fn end_field(&mut self) -> Result<(), AllocError>
        ensures ok { OnOk result (self.new ≡ self.old ++ end_object ∷ []) }
    {
        self.writer.end_object()
    }

    /// Begins a field with an array.
    pub(crate) fn begin_numbers(&mut self, name: &str) -> Result<(), AllocError>
        ensures ok { OnOk result (self.new ≡ self.old ++ key name.now ∷ begin_array ∷ []) }
    {
        self.writer.key(name)?;
        self.writer.begin_array()
    }

    /// Adds a number to the array.
    pub(crate) fn item(&mut self, n: u64) -> Result<(), AllocError>
        ensures ok { OnOk result (self.new ≡ self.old ++ number_value n ∷ []) }
    {
        self.writer.u64(n)
    }

    /// Ends the array.
    pub(crate) fn end_numbers(&mut self) -> Result<(), AllocError>
        ensures ok { OnOk result (self.new ≡ self.old ++ end_array ∷ []) }
    {
        self.writer.end_array()
    }

    /// Ends the object, and adds it as a line.
    pub(crate) fn push_line(self, text: &mut Vec<u8>) -> Result<(), AllocError>
        ensures ok { OnOk result (text.new.items
            ≡ text.old.items ++ json_line (self ++ end_object ∷ [])) }
    {
        let Object { mut writer, .. } = self;
        writer.end_object()?;
        let line = writer.into_inner();
        push(text, line.as_slice())?;
        push(text, b"\n")
    }
}
