//! The fields of request data and of reply data.
ghost use Rattle.std.specs.Prelude.{◌≡◌, option_map};
ghost use Rattle.hart_commands.specs.Fields.{split};

/// The kind of value that a field holds.
#[derive(Clone, Copy, Debug, PartialEq, Eq)]
pub enum FieldKind {
    /// Plain bytes: an id, flags, a status, codes of device variables, a time stamp.
    Bytes,
    /// A number or a code of one or two bytes, the most significant byte first.
    Number,
    /// The code of a unit in one byte. [`unit_name`](crate::unit_name) returns the name of the unit.
    UnitCode,
    /// Packed text, four characters in three bytes.
    PackedText,
    /// Text in ISO Latin-1, a character in each byte: a long tag.
    LatinText,
    /// A date in three bytes.
    Date,
    /// A floating point number of IEEE 754 in four bytes.
    Float,
    /// Device variables of eight bytes each: code, classification, unit, value in four bytes, status.
    Variables,
}

/// The number of bytes of a field.
#[derive(Clone, Copy, Debug, PartialEq, Eq)]
pub enum FieldSize {
    /// Exactly this number of bytes.
    Exactly(u8),
    /// All remaining bytes except this number of bytes at the end. The field has at least one byte.
    AllBut(u8),
}

/// A field of data: its name, its size and its kind (HCF_SPEC-127).
#[derive(Clone, Copy, Debug, PartialEq, Eq)]
pub struct FieldRow {
    /// The name as an identifier, such as `long_tag`: small letters, digits and `_`.
    pub name: &'static str,
    /// The same name in words, with a space for each `_`.
    pub words: &'static str,
    /// The number of bytes.
    pub size: FieldSize,
    /// The kind of value.
    pub kind: FieldKind,
}

impl FieldRow {
    /// Splits data into the bytes of the field, which come first, and the bytes after the field. Returns `None` if there are too
    /// few bytes.
    pub fn split<'a>(&self, bytes: &'a [u8]) -> Option<(&'a [u8], &'a [u8])>
        ensures { option_map (λ parts. (parts.0.now, parts.1.now)) result ≡ split self.now.size bytes.now }
    {
        let size = match self.size {
            FieldSize::Exactly(size) => usize::from(size),
            FieldSize::AllBut(after) if usize::from(after) < bytes.len() => {
                bytes.len() - usize::from(after)
            }
            FieldSize::AllBut(_) => return None,
        };
        bytes.split_at_checked(size)
    }
}
