//! The fields of data, one after another.
ghost use Rattle.std.specs.Prelude.{◌≡◌, ◌∷◌, [], MatchOption, drop, length, map, true};
ghost use Rattle.hart_commands.specs.Fields.{bytes_of, fields_of, seen};
ghost use Rattle.hart_commands.specs.WellMade.{are_well_made};
ghost use Rattle.hart_explain.specs.Reading.{seen_field};

use crate::field::Field;
use hart_commands::FieldRow;
use std::marker::Model;

/// The fields of some data, without those that `next` has returned already.
#[derive(Drop)]
pub struct Fields<'a> {
    rows: &'static [FieldRow],
    rest: &'a [u8],
}

impl<'a> Model for Fields<'a> {
    ghost use Rattle.std.specs.Prelude.{◌≡◌, List, map, true};
    ghost use Rattle.std.specs.List.{list_all};
    ghost use Rattle.hart_commands.specs.Fields.{Field, fields_of, seen};
    ghost use Rattle.hart_commands.specs.WellMade.{is_well_made};

    ghost Value = { List Field };

    ghost view = { λ fields. fields_of (map seen fields.rows.now) fields.rest.now };

    ghost invariant = { λ fields. list_all is_well_made (map seen fields.rows.now) ≡ true };
}

impl<'a> Fields<'a> {
    /// Returns the fields that these rows find in bytes.
    pub(crate) fn new(rows: &'static [FieldRow], bytes: &'a [u8]) -> Fields<'a>
        requires { are_well_made (map seen rows.now) ≡ true }
        ensures { result ≡ fields_of (map seen rows.now) bytes.now }
    {
        Fields { rows, rest: bytes }
    }

    /// Returns the next field, or `None` if there is none.
    #[inline(always)]
    pub fn next(&mut self) -> Option<Field<'a>>
        ensures { MatchOption result (self.old ≡ []) (λ field. self.old ≡ seen_field field ∷ self.new) }
    {
        let (row, rows) = self.rows.split_first()?;
        let (bytes, rest) = row.split(self.rest)?;
        self.rows = rows;
        self.rest = rest;
        Some(Field {
            name: row.name,
            words: row.words,
            kind: row.kind,
            bytes,
        })
    }
}

/// Returns the bytes after the fields that these rows find.
#[tactic(auto, using(std::proofs::lemmas::Grind::common_steps, crate::proofs::lemmas::Rows::taken_off))]
pub(crate) fn after_fields<'a>(rows: &[FieldRow], bytes: &'a [u8]) -> &'a [u8]
    ensures { result.now ≡ drop (length (bytes_of (fields_of (map seen rows.now) bytes.now))) bytes.now }
{
    let mut rest = bytes;
    for row in rows {
        let Some((_, after)) = row.split(rest) else {
            return rest;
        };
        rest = after;
    }
    rest
}
