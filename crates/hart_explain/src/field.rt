//! A field of data.
ghost use Rattle.std.specs.Prelude.{◌≡◌, length, true};
ghost use Rattle.std.specs.List.{list_all};
ghost use Rattle.hart_commands.specs.WellMade.{is_name_byte, suits};
ghost use Rattle.hart_explain.specs.Values.{held_value, seen_value};

use crate::value::{Value, held_value};
use hart_commands::FieldKind;

/// A field of data.
#[derive(Drop)]
pub struct Field<'a> {
    /// The name of the field as an identifier.
    pub name: &'static str,
    /// The same name in words.
    pub words: &'static str,
    /// The kind of the field.
    pub kind: FieldKind,
    /// The bytes of the field.
    pub bytes: &'a [u8],
    ghost plain: { list_all is_name_byte name.now ≡ true },
    ghost suits: { suits kind (length bytes.now) ≡ true },
}

impl<'a> Field<'a> {
    /// Returns what the field holds.
    #[inline(always)]
    pub fn value(&self) -> Value<'a>
        ensures { seen_value result ≡ held_value self.now.kind self.now.bytes.now }
    {
        held_value(self.kind, self.bytes)
    }
}
