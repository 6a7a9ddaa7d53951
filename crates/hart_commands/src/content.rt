//! The content of a reply, and how it is read and written.
ghost use Rattle.std.specs.Prelude.{◌≡◌, ◌≤◌, ◌++◌, length};
ghost use Rattle.hart_commands.specs.ReplyData.{content_reading, content_bytes};

use crate::content::reading::{
    read_current, read_dynamic, read_identity, read_more, read_polling, read_tag, read_variables,
};
use crate::content::writing::{push_current, push_dynamic, push_tag, push_variables};
use crate::first_bytes::first_bytes;
use crate::{IdentityContent, OutputContent, SensorContent, ShortList, UnitValue, VariableReading};
use hart_values::{Bits32, ByteList, PackedText, Payload};

mod reading;
mod writing;

/// The content of a reply: the meaning of the data after the two status bytes, which depends on the command (HCF_SPEC-127).
///
/// Numbers are not checked: a polling address may be above 63, a mode may be above 1, and a date may be outside the calendar.
#[derive(Debug, Drop, PartialEq, Eq)]
pub enum ReplyContent {
    /// The identity of the device (Commands 0, 11 and 21).
    Identity(IdentityContent),
    /// The primary variable (Command 1).
    Primary(UnitValue),
    /// The loop current and the percent of range (Command 2).
    Current {
        loop_current: Bits32,
        percent_of_range: Bits32,
    },
    /// The loop current and the one to four dynamic variables (Command 3).
    Dynamic {
        loop_current: Bits32,
        values: ShortList<UnitValue, 4>,
    },
    /// The polling address and the loop current mode (Commands 6 and 7).
    Polling {
        address: u8,
        mode: u8,
    },
    /// The classifications of the four dynamic variables (Command 8).
    Classes([u8; 4]),
    /// The extended device status, the one to eight variables that were asked for, and their time stamp (Command 9).
    Variables {
        extended_device_status: u8,
        variables: ShortList<VariableReading, 8>,
        time_stamp: [u8; 4],
    },
    /// The message (Commands 12 and 17).
    Message(PackedText<24>),
    /// The tag, the descriptor and the date (Commands 13 and 18).
    Tag {
        tag: PackedText<6>,
        descriptor: PackedText<12>,
        date: [u8; 3],
    },
    /// The sensor (Command 14).
    Sensor(SensorContent),
    /// The loop current output (Command 15).
    Output(OutputContent),
    /// The final assembly number (Commands 16 and 19).
    Assembly([u8; 3]),
    /// The long tag (Commands 20 and 22).
    LongTag([u8; 32]),
    /// The configuration change counter (Command 38).
    Counter([u8; 2]),
    /// The additional status bytes, one to 25 (Command 48).
    More(ByteList<25>),
    /// No content, because the request was refused.
    Refused,
}

impl ReplyContent {
    /// Reads the content from the data of a reply with code 0, as the table of commands says for this command.
    #[tactic(auto, unfolding(crate::specs::Commands::replied))]
    pub(crate) fn read(command: u8, bytes: &[u8]) -> Option<Self>
        ensures { result ≡ content_reading command bytes.now }
    {
        match command {
            0 | 11 | 21 => read_identity(bytes),
            1 => Some(ReplyContent::Primary(UnitValue::from_bytes(first_bytes(bytes)?))),
            2 => read_current(bytes),
            3 => read_dynamic(bytes),
            6 | 7 => read_polling(bytes),
            8 => Some(ReplyContent::Classes(first_bytes(bytes)?)),
            9 => read_variables(bytes),
            12 | 17 => Some(ReplyContent::Message(PackedText::from_bytes(first_bytes(bytes)?))),
            13 | 18 => read_tag(bytes),
            14 => Some(ReplyContent::Sensor(SensorContent::from_bytes(first_bytes(bytes)?))),
            15 => Some(ReplyContent::Output(OutputContent::from_bytes(first_bytes(bytes)?))),
            16 | 19 => Some(ReplyContent::Assembly(first_bytes(bytes)?)),
            20 | 22 => Some(ReplyContent::LongTag(first_bytes(bytes)?)),
            38 => Some(ReplyContent::Counter(first_bytes(bytes)?)),
            48 => read_more(bytes),
            _ => None,
        }
    }

    /// Adds the data of the content at the end of a payload.
    #[tactic(auto, using(crate::proofs::lemmas::Parts::joined_singles))]
    pub(crate) fn push_to(&self, payload: &mut Payload)
        requires { length payload.old ≤ 2 }
        ensures { payload.new ≡ payload.old ++ content_bytes self.now }
    {
        match self {
            ReplyContent::Identity(identity) => identity.push_to(payload),
            ReplyContent::Primary(value) => payload.extend_from_slice(&value.to_bytes()),
            ReplyContent::Current {
                loop_current,
                percent_of_range,
            } => push_current(*loop_current, *percent_of_range, payload),
            ReplyContent::Dynamic {
                loop_current,
                values,
            } => push_dynamic(*loop_current, values.as_slice(), payload),
            ReplyContent::Polling { address, mode } => payload.extend_from_slice(&[
                *address, *mode,
            ]),
            ReplyContent::Classes(classes) => payload.extend_from_slice(classes),
            ReplyContent::Variables {
                extended_device_status,
                variables,
                time_stamp,
            } => push_variables(
                *extended_device_status,
                variables.as_slice(),
                time_stamp,
                payload,
            ),
            ReplyContent::Message(message) => payload.extend_from_slice(message.as_bytes()),
            ReplyContent::Tag {
                tag,
                descriptor,
                date,
            } => push_tag(tag, descriptor, date, payload),
            ReplyContent::Sensor(sensor) => sensor.push_to(payload),
            ReplyContent::Output(output) => output.push_to(payload),
            ReplyContent::Assembly(assembly) => payload.extend_from_slice(assembly),
            ReplyContent::LongTag(long_tag) => payload.extend_from_slice(long_tag),
            ReplyContent::Counter(counter) => payload.extend_from_slice(counter),
            ReplyContent::More(status) => payload.extend_from_slice(status.as_slice()),
            ReplyContent::Refused => {}
        }
    }
}
