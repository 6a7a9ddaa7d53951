//! How `hart request` and `hart explain` agree.
ghost use Rattle.std.specs.Prelude.{◌≡◌, ◌≤◌, ◌++◌, ◌*◌, ◌/◌, ℕ, List, None, Ok, Some, codes, decimal, encode_utf8_all, length};
ghost use Rattle.std.specs.Str.{chars};
ghost use Rattle.std.specs.Str.Parse.{digits_value, without_leading_plus};
ghost use Rattle.hex.specs.Hex.{IsBytes};
ghost use Rattle.hart_values.specs.hart_date.Calendar.{IsDateBytes};
ghost use Rattle.hart_values.specs.packed_text.Packing.{IsPackedSize};
ghost use Rattle.hart_commands.specs.declared.fields.FieldKind.TheVariants.{Bytes, Date, LatinText, Number, PackedText};
ghost use Rattle.hart_commands.specs.declared.fields.FieldSize.TheVariants.{AllBut, Exactly};
ghost use Rattle.hart_request.specs.Values.{greatest_of, hex_of, number_bytes, padded, shown_value, value_of};

/// `hart explain` shows the bytes of a given value as that value. A number is shown as the same number, and a text as its characters and
/// the added spaces, in double quotes. A date is shown as its word, and bytes as the bytes that were read.
pub fn values_are_shown_as_given()
    ensures numbers { (size : ℕ) (word bytes : List ℕ) → value_of Number (Exactly size) word ≡ Ok bytes
        → shown_value Number bytes ≡ decimal (digits_value 10 (without_leading_plus word)) }
    ensures packed { (size : ℕ) (word bytes : List ℕ) → IsPackedSize size → value_of PackedText (Exactly size) word ≡ Ok bytes
        → shown_value PackedText bytes ≡ codes "\"" ++ padded (4 * size / 3) (chars word) ++ codes "\"" }
    ensures latin { (word bytes : List ℕ) → hex_of word ≡ None → value_of LatinText (Exactly 32) word ≡ Ok bytes
        → shown_value LatinText bytes ≡ codes "\"" ++ encode_utf8_all (padded 32 (chars word)) ++ codes "\"" }
    ensures dates { (size : ℕ) (word bytes : List ℕ) → value_of Date (Exactly size) word ≡ Ok bytes → shown_value Date bytes ≡ word }
    ensures hex { (size : ℕ) (word given bytes : List ℕ) → hex_of word ≡ Some given
        → value_of LatinText (Exactly size) word ≡ Ok bytes → bytes ≡ given }
    ensures bytes { (size : ℕ) (word bytes : List ℕ) → value_of Bytes (Exactly size) word ≡ Ok bytes → hex_of word ≡ Some bytes }
    ensures codes { (after : ℕ) (word bytes : List ℕ) → value_of Bytes (AllBut after) word ≡ Ok bytes → hex_of word ≡ Some bytes }
{}

/// `hart request` accepts the dates, numbers and bytes that `hart explain` shows, and makes the same bytes from them again. A date is a day
/// from 1900 to 2155, or `not set`. The device variable codes of Command 9 are one to eight bytes.
pub fn shown_values_are_accepted()
    ensures dates { (size : ℕ) (bytes : List ℕ) → IsDateBytes bytes → value_of Date (Exactly size) (shown_value Date bytes) ≡ Ok bytes }
    ensures numbers { (size number : ℕ) → number ≤ greatest_of size
        → value_of Number (Exactly size) (decimal number) ≡ Ok (number_bytes size number) }
    ensures bytes { (bytes : List ℕ) → IsBytes bytes → length bytes ≤ 255
        → value_of Bytes (Exactly (length bytes)) (shown_value Bytes bytes) ≡ Ok bytes }
    ensures codes { (after : ℕ) (bytes : List ℕ) → IsBytes bytes → 1 ≤ length bytes → length bytes ≤ 8
        → value_of Bytes (AllBut after) (shown_value Bytes bytes) ≡ Ok bytes }
{}
