//! Packs every four characters into three bytes, and unpacks them.
ghost use Rattle.std.specs.Prelude.{◌≡◌, ◌+◌, ◌*◌, ◌%◌, ◌<◌, ◌↔◌, length, slice_index, All, IsTrue, MatchOption};
ghost use Rattle.hart_values.specs.packed_text.Packing.{IsCharacter, IsFirstBadCharacter, IsPacked, IsPackedGroup};

/// The first character of packed text.
const FIRST_CHARACTER: u8 = 0x20;

/// The last character of packed text.
const LAST_CHARACTER: u8 = 0x5F;

/// The lower six bits of a character, which packed text keeps.
const SIX_BITS: u32 = 0x3F;

/// Bit 6 of a character, which packed text drops. It can be restored, because it is set exactly if bit 5 is clear.
const DROPPED_BIT: u8 = 0x40;

/// Returns true if this character can be packed.
fn is_character(code: u8) -> bool
    ensures { IsTrue result ↔ IsCharacter code }
{
    matches!(code, FIRST_CHARACTER..=LAST_CHARACTER)
}

/// Returns the place of the first byte that is no character of packed text, or `None` if all bytes are such characters.
pub(crate) fn first_bad_character(text: &[u8]) -> Option<usize>
    ensures { MatchOption result (All IsCharacter text.now) (IsFirstBadCharacter text.now) }
{
    text.iter().position(|code| !is_character(*code))
}

/// Returns the character of packed text that has these lower six bits.
fn character(six_bits: u8) -> u8
    requires { six_bits < 64 }
    ensures known { IsCharacter result }
    ensures kept { result % 64 ≡ six_bits }
{
    if six_bits < FIRST_CHARACTER {
        six_bits | DROPPED_BIT
    } else {
        six_bits
    }
}

/// Returns the lower six bits of both characters as one number of 12 bits. The six bits of `high` come first.
#[tactic(auto, using(std::proofs::lemmas::Grind::common_steps, std::proofs::lemmas::Nat::or_shifted, std::proofs::lemmas::Nat::and_mask))]
fn join_characters(high: u8, low: u8) -> u32
    ensures { result ≡ 64 * (high % 64) + low % 64 }
{
    (u32::from(high) & SIX_BITS) << 6 | u32::from(low) & SIX_BITS
}

/// Packs four characters into three bytes.
#[tactic(auto, using(std::proofs::lemmas::Grind::common_steps, std::proofs::lemmas::Nat::or_shifted))]
fn pack_group(w: u8, x: u8, y: u8, z: u8) -> [u8; 3]
    ensures { IsPackedGroup w x y z (slice_index result 0) (slice_index result 1) (slice_index result 2) }
{
    let group = join_characters(w, x) << 12 | join_characters(y, z);
    let [_, a, b, c] = group.to_be_bytes();
    [a, b, c]
}

/// Unpacks three bytes into four characters.
fn unpack_group(a: u8, b: u8, c: u8) -> [u8; 4]
    ensures packed { IsPackedGroup (slice_index result 0) (slice_index result 1) (slice_index result 2)
        (slice_index result 3) a b c }
    ensures known { All IsCharacter result }
{
    let group = u32::from_be_bytes([0, a, b, c]);
    [
        character((group >> 18 & SIX_BITS) as u8),
        character((group >> 12 & SIX_BITS) as u8),
        character((group >> 6 & SIX_BITS) as u8),
        character((group & SIX_BITS) as u8),
    ]
}

/// Packs a text into `bytes`, which have three bytes for every four characters.
pub(crate) fn pack(text: &[u8], bytes: &mut [u8])
    requires lengths { 3 * length text.now ≡ 4 * length bytes.old }
    requires characters { All IsCharacter text.now }
    ensures { IsPacked text.now bytes.new }
{
    for place in 0..bytes.len() / 3 {
        let i = 4 * place;
        let group = pack_group(text[i], text[i + 1], text[i + 2], text[i + 3]);
        bytes[3 * place..3 * place + 3].copy_from_slice(&group);
    }
}

/// Unpacks `bytes` into `text`, which has four characters for every three bytes.
pub(crate) fn unpack(bytes: &[u8], text: &mut [u8])
    requires { 3 * length text.old ≡ 4 * length bytes.now }
    ensures { IsPacked text.new bytes.now }
{
    for place in 0..bytes.len() / 3 {
        let i = 3 * place;
        let group = unpack_group(bytes[i], bytes[i + 1], bytes[i + 2]);
        text[4 * place..4 * place + 4].copy_from_slice(&group);
    }
}
