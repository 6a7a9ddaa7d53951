//! The device status and the content of a reply.
ghost use Rattle.std.specs.Prelude.{◌≡◌, slice_index};
ghost use Rattle.hart_commands.specs.Registers.{bytes_in, size_of};
ghost use Rattle.hart_device.specs.answer.Content.{reply_content, reply_identity, reply_polling, reply_tag, reply_variables};
ghost use Rattle.hart_device.specs.answer.Status.{device_status};

use crate::answer::process_content::{
    additional_status, classes, output_content, unit_value, unit_values,
};
use crate::answer::status::PROCESS_BITS;
use crate::answer::variables::variable_readings;
use crate::bits::bit_if;
use crate::registers::bytes_of;
use crate::{Device, Process, RegisterStore};
use hart_commands::{CodeList, Register, ReplyContent, Request};
use hart_values::{DeviceStatus, MasterId, PackedText};

impl<S: RegisterStore> Device<S> {
    /// Returns the device status that the reply shows to this master.
    pub(super) fn status(&self, process: &Process, master: MasterId) -> DeviceStatus
        ensures { result.0 ≡ device_status self.now process.now master }
    {
        let changed = bit_if(self.changed(master), DeviceStatus::CONFIGURATION_CHANGED);
        let cold_start = bit_if(*self.cold_start.get(master), DeviceStatus::COLD_START);
        let more = bit_if(
            process.has_more_status(),
            DeviceStatus::MORE_STATUS_AVAILABLE,
        );
        let is_fixed = self.byte(Register::Mode) == 0;
        let fixed = bit_if(is_fixed, DeviceStatus::LOOP_CURRENT_FIXED);
        DeviceStatus((process.status & PROCESS_BITS) | changed | cold_start | more | fixed)
    }

    /// Returns the content of the reply to a request.
    pub(super) fn content(&self, process: &Process, request: &Request) -> ReplyContent
        ensures { result ≡ reply_content self.now process.now request.now }
    {
        match request {
            Request::Identify | Request::IdentifyByTag(_) | Request::IdentifyByLongTag(_) => {
                self.identity(process)
            }
            Request::ReadPrimary => ReplyContent::Primary(unit_value(&process.first)),
            Request::ReadCurrent => ReplyContent::Current {
                loop_current: process.loop_current,
                percent_of_range: process.percent_of_range,
            },
            Request::ReadDynamic => ReplyContent::Dynamic {
                loop_current: process.loop_current,
                values: unit_values(process),
            },
            Request::SetPolling { .. } | Request::ReadPolling => self.polling(),
            Request::ReadClasses => ReplyContent::Classes(classes(process)),
            Request::ReadVariables(codes) => variables(process, codes),
            Request::ReadMessage | Request::WriteMessage(_) => {
                ReplyContent::Message(PackedText::from_bytes(self.bytes(Register::Message)))
            }
            Request::ReadTag | Request::WriteTag { .. } => self.tag(),
            Request::ReadSensor => ReplyContent::Sensor(process.sensor),
            Request::ReadOutput => {
                ReplyContent::Output(output_content(&process.output, self.protected))
            }
            Request::ReadAssembly | Request::WriteAssembly(_) => {
                ReplyContent::Assembly(self.bytes(Register::Assembly))
            }
            Request::ReadLongTag | Request::WriteLongTag(_) => {
                ReplyContent::LongTag(self.bytes(Register::LongTag))
            }
            Request::ResetChanged(_) => ReplyContent::Counter(self.counter.to_be_bytes()),
            Request::ReadMore => ReplyContent::More(additional_status(process)),
        }
    }

    /// Returns the content with the identity of the device and its counter.
    fn identity(&self, process: &Process) -> ReplyContent
        ensures { result ≡ reply_identity self.now process.now }
    {
        let extended_device_status = process.extended_device_status();
        ReplyContent::Identity(self.identity.content(self.counter, extended_device_status))
    }

    /// Returns the polling address and the loop current mode in the registers.
    fn polling(&self) -> ReplyContent
        ensures { result ≡ reply_polling self.now }
    {
        ReplyContent::Polling {
            address: self.byte(Register::Polling),
            mode: self.byte(Register::Mode),
        }
    }

    /// Returns the tag, the descriptor and the date in the registers.
    fn tag(&self) -> ReplyContent
        ensures { result ≡ reply_tag self.now }
    {
        ReplyContent::Tag {
            tag: PackedText::from_bytes(self.bytes(Register::Tag)),
            descriptor: PackedText::from_bytes(self.bytes(Register::Descriptor)),
            date: self.bytes(Register::Date),
        }
    }

    /// Returns the bytes of a register that has `N` bytes.
    fn bytes<const N: usize>(&self, register: Register) -> [u8; N]
        requires { size_of register ≡ N }
        ensures { result ≡ bytes_in self.now.contents register }
    {
        bytes_of(&self.registers, register)
    }

    /// Returns the byte of a register that has one byte.
    pub(super) fn byte(&self, register: Register) -> u8
        requires { size_of register ≡ 1 }
        ensures { result ≡ slice_index (bytes_in self.now.contents register) 0 }
    {
        self.registers.get(register)[0]
    }
}

/// Returns the extended device status, the device variables of these codes, and the time stamp.
fn variables(process: &Process, codes: &CodeList) -> ReplyContent
    ensures { result ≡ reply_variables process.now codes.now }
{
    ReplyContent::Variables {
        extended_device_status: process.extended_device_status(),
        variables: variable_readings(process, codes),
        time_stamp: process.time_stamp,
    }
}
