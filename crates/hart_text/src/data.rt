//! Data in plain hex: two digits of either case for each byte, with nothing between them.
ghost use Rattle.std.specs.Prelude.{◌≤◌, ◌<◌, ◌*◌, MatchOption, length};
ghost use Rattle.hart_text.specs.Data.{Finds, HasNoValue, IsDataWord};

use hart_frame::Payload;

/// The greatest number of data bytes.
pub const LONGEST_DATA_LEN: usize = 255;

/// Reads DATA: at most 255 bytes in plain hex. Returns `None` for anything else.
pub fn read_data(word: &[u8]) -> Option<Payload>
    ensures { Finds (IsDataWord word.now) result }
{
    let mut room = [0; LONGEST_DATA_LEN];
    Payload::from_slice(decode_data(word, &mut room)?)
}

/// Reads DATA as [`read_data`] does, but writes the bytes into `room` and returns them from there. `room` must be long enough for the word,
/// or for the longest data.
#[tactic(auto, using(crate::proofs::lemmas::Data::data_read))]
#[inline(always)]
pub fn decode_data<'a>(word: &[u8], room: &'a mut [u8]) -> Option<&'a [u8]>
    requires room { length room.old ≤ 255 }
    requires enough { length room.old < 255 → length word.now ≤ 2 * length room.old }
    ensures { MatchOption result (HasNoValue (IsDataWord word.now)) (λ bytes. IsDataWord word.now bytes.now) }
{
    if word.len() > 2 * room.len() {
        return None;
    }
    let bytes = &mut room[..word.len() / 2];
    hex::decode_to_slice(word, bytes).ok()?;
    Some(bytes)
}
