//! Helper functions of `ReplyContent::read`, for contents that take more than one line of code to read.
ghost use Rattle.std.specs.Prelude.{◌≡◌, ◌<◌, ◌≤◌, length, map};
ghost use Rattle.hart_commands.specs.ReplyReading.{saying, current_of, polling_of, tag_of, identity_reading, dynamic_reading};
ghost use Rattle.hart_commands.specs.ReplyReading.{variables_reading, more_reading};
ghost use Rattle.hart_commands.specs.Values.{unit_value_of, variable_of};

use crate::first_bytes::first_bytes;
use crate::identity::FIRST_BYTE;
use crate::tag_bytes::tag_parts;
use crate::{IdentityContent, ReplyContent, ShortList, UnitValue, VariableReading};
use hart_values::{Bits32, ByteList, PackedText};

/// Reads a reply to Command 0, 11 or 21: an identity, which begins with 254.
pub fn read_identity(bytes: &[u8]) -> Option<ReplyContent>
    ensures { result ≡ identity_reading bytes.now }
{
    let identity = first_bytes::<22>(bytes)?;
    if identity[0] != FIRST_BYTE {
        return None;
    }
    Some(ReplyContent::Identity(IdentityContent::from_bytes(identity)))
}

/// Reads a reply to Command 2: the loop current and the percent of range.
pub fn read_current(bytes: &[u8]) -> Option<ReplyContent>
    ensures { result ≡ saying 8 current_of bytes.now }
{
    let [a, b, c, d, e, f, g, h] = first_bytes::<8>(bytes)?;
    Some(ReplyContent::Current {
        loop_current: Bits32([a, b, c, d]),
        percent_of_range: Bits32([e, f, g, h]),
    })
}

/// Reads a reply to Command 3: the loop current, and one to four variables.
pub fn read_dynamic(bytes: &[u8]) -> Option<ReplyContent>
    ensures { result ≡ dynamic_reading bytes.now }
{
    if bytes.len() < 9 {
        return None;
    }
    let (loop_current, rest) = bytes.split_first_chunk::<4>()?;
    let (groups, _) = rest.as_chunks::<5>();
    Some(ReplyContent::Dynamic {
        loop_current: Bits32(*loop_current),
        values: values_in(&groups[..groups.len().min(4)]),
    })
}

/// Reads one value from each group of five bytes. There are at most four groups.
fn values_in(groups: &[[u8; 5]]) -> ShortList<UnitValue, 4>
    requires { length groups.now ≤ 4 }
    ensures { result ≡ map unit_value_of groups.now }
{
    let mut values = ShortList::new();
    for group in groups {
        values.push(UnitValue::from_bytes(*group));
    }
    values
}

/// Reads a reply to Command 6 or 7: a polling address and a loop current mode, both unchecked.
pub fn read_polling(bytes: &[u8]) -> Option<ReplyContent>
    ensures { result ≡ saying 2 polling_of bytes.now }
{
    let [address, mode] = first_bytes::<2>(bytes)?;
    Some(ReplyContent::Polling { address, mode })
}

/// Reads a reply to Command 9: the extended device status, one to eight variables and their time stamp. No data may follow.
pub fn read_variables(bytes: &[u8]) -> Option<ReplyContent>
    ensures { result ≡ variables_reading bytes.now }
{
    let (extended_device_status, rest) = bytes.split_first()?;
    let (groups, time_stamp) = rest.as_chunks::<8>();
    if groups.is_empty() || 8 < groups.len() || time_stamp.len() != 4 {
        return None;
    }
    Some(ReplyContent::Variables {
        extended_device_status: *extended_device_status,
        variables: variables_in(groups),
        time_stamp: first_bytes(time_stamp)?,
    })
}

/// Reads one variable from each group of eight bytes. There are at most eight groups.
fn variables_in(groups: &[[u8; 8]]) -> ShortList<VariableReading, 8>
    requires { length groups.now ≤ 8 }
    ensures { result ≡ map variable_of groups.now }
{
    let mut variables = ShortList::new();
    for group in groups {
        variables.push(VariableReading::from_bytes(*group));
    }
    variables
}

/// Reads a reply to Command 13 or 18: a tag, a descriptor and an unchecked date.
pub fn read_tag(bytes: &[u8]) -> Option<ReplyContent>
    ensures { result ≡ saying 21 tag_of bytes.now }
{
    let (tag, descriptor, date) = tag_parts(bytes)?;
    Some(ReplyContent::Tag {
        tag: PackedText::from_bytes(tag),
        descriptor: PackedText::from_bytes(descriptor),
        date,
    })
}

/// Reads a reply to Command 48: one to 25 additional status bytes.
pub fn read_more(bytes: &[u8]) -> Option<ReplyContent>
    ensures { result ≡ more_reading bytes.now }
{
    if bytes.is_empty() {
        return None;
    }
    Some(ReplyContent::More(ByteList::from_slice(&bytes[..bytes.len().min(25)])?))
}
