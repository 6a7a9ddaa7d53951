ghost use Rattle.std.specs.Prelude.{◌≡◌, ◌≤◌, ◌+◌, [], ◌∷◌, ◌++◌, length, IfOk};
ghost use Rattle.hart_commands.specs.RequestData.{IsRequest, request_reading, command_of, request_data, mode_byte};

use crate::CodeList;
use crate::request::reading::{needed, read_codes, read_reset, read_set_polling, read_tag};
use hart_values::{HartDate, LoopMode, PackedText, Payload, PollingAddress, ResponseCode};

pub(crate) mod code;
mod reading;

/// What a master asks of a device: a command and its data (HCF_SPEC-127).
#[derive(Debug, Drop, PartialEq, Eq)]
pub enum Request {
    /// Command 0: the identity of the device.
    Identify,
    /// Command 1: the primary variable.
    ReadPrimary,
    /// Command 2: the loop current and the percent of range.
    ReadCurrent,
    /// Command 3: the loop current and the dynamic variables.
    ReadDynamic,
    /// Command 6, a write: the polling address and the loop current mode.
    SetPolling {
        address: PollingAddress,
        mode: LoopMode,
    },
    /// Command 7: the polling address and the loop current mode.
    ReadPolling,
    /// Command 8: the classifications of the dynamic variables.
    ReadClasses,
    /// Command 9: the device variables with these codes.
    ReadVariables(CodeList),
    /// Command 11: the identity of the device with this tag.
    IdentifyByTag(PackedText<6>),
    /// Command 12: the message.
    ReadMessage,
    /// Command 13: the tag, the descriptor and the date.
    ReadTag,
    /// Command 14: the sensor.
    ReadSensor,
    /// Command 15: the loop current output.
    ReadOutput,
    /// Command 16: the final assembly number.
    ReadAssembly,
    /// Command 17, a write: the message.
    WriteMessage(PackedText<24>),
    /// Command 18, a write: the tag, the descriptor and the date.
    WriteTag {
        tag: PackedText<6>,
        descriptor: PackedText<12>,
        date: HartDate,
    },
    /// Command 19, a write: the final assembly number.
    WriteAssembly([u8; 3]),
    /// Command 20: the long tag.
    ReadLongTag,
    /// Command 21: the identity of the device with this long tag.
    IdentifyByLongTag([u8; 32]),
    /// Command 22, a write: the long tag.
    WriteLongTag([u8; 32]),
    /// Command 38: this master has seen the configuration changes. If the request has a value of the configuration change counter, the
    /// master has seen the changes up to this value.
    ResetChanged(Option<u16>),
    /// Command 48: the additional status bytes.
    ReadMore,
}

impl Request {
    /// Reads the data bytes of a request of this command. Ignores any bytes after the data of the command.
    ///
    /// ```rust
    /// let request = Request::read(19, &[0x01, 0x23, 0x45, 0x67])?;
    /// assert_eq!(rt; request, Request::WriteAssembly([0x01, 0x23, 0x45]));
    /// ```
    ///
    /// # Errors
    ///
    /// The first of these response codes that applies:
    ///
    /// - code 64 if the command is not known;
    /// - code 5 if there are too few bytes;
    /// - for Command 6, code 2 for an address above 63;
    /// - for Command 6, code 12 for a mode above 1;
    /// - for Command 18, code 9 for a bad date.
    pub fn read(command: u8, bytes: &[u8]) -> Result<Self, ResponseCode>
        ensures read { result ≡ request_reading command bytes.now }
        ensures well_made { IfOk result IsRequest }
    {
        match command {
            0 => Ok(Request::Identify),
            1 => Ok(Request::ReadPrimary),
            2 => Ok(Request::ReadCurrent),
            3 => Ok(Request::ReadDynamic),
            6 => read_set_polling(bytes),
            7 => Ok(Request::ReadPolling),
            8 => Ok(Request::ReadClasses),
            9 => read_codes(bytes),
            11 => Ok(Request::IdentifyByTag(PackedText::from_bytes(needed(bytes)?))),
            12 => Ok(Request::ReadMessage),
            13 => Ok(Request::ReadTag),
            14 => Ok(Request::ReadSensor),
            15 => Ok(Request::ReadOutput),
            16 => Ok(Request::ReadAssembly),
            17 => Ok(Request::WriteMessage(PackedText::from_bytes(needed(bytes)?))),
            18 => read_tag(bytes),
            19 => Ok(Request::WriteAssembly(needed(bytes)?)),
            20 => Ok(Request::ReadLongTag),
            21 => Ok(Request::IdentifyByLongTag(needed(bytes)?)),
            22 => Ok(Request::WriteLongTag(needed(bytes)?)),
            38 => read_reset(bytes),
            48 => Ok(Request::ReadMore),
            _ => Err(ResponseCode::COMMAND_NOT_IMPLEMENTED),
        }
    }

    /// Returns the number of the request's command.
    pub fn command(&self) -> u8
        ensures command { result ≡ command_of self.now }
        ensures well_made { IsRequest self.now }
    {
        // Called only for its contract, which says that the request is well made.
        self.parts(&mut [0; 2]);
        match self {
            Request::Identify => 0,
            Request::ReadPrimary => 1,
            Request::ReadCurrent => 2,
            Request::ReadDynamic => 3,
            Request::SetPolling { .. } => 6,
            Request::ReadPolling => 7,
            Request::ReadClasses => 8,
            Request::ReadVariables(_) => 9,
            Request::IdentifyByTag(_) => 11,
            Request::ReadMessage => 12,
            Request::ReadTag => 13,
            Request::ReadSensor => 14,
            Request::ReadOutput => 15,
            Request::ReadAssembly => 16,
            Request::WriteMessage(_) => 17,
            Request::WriteTag { .. } => 18,
            Request::WriteAssembly(_) => 19,
            Request::ReadLongTag => 20,
            Request::IdentifyByLongTag(_) => 21,
            Request::WriteLongTag(_) => 22,
            Request::ResetChanged(_) => 38,
            Request::ReadMore => 48,
        }
    }

    /// Returns a copy of the request. `Clone` is not derived, because it could run out of memory. The contract also says that the request
    /// is well made, so that callers need not require this.
    pub fn copy(&self) -> Self
        ensures same { result ≡ self.now }
        ensures well_made { IsRequest self.now }
    {
        // The contract of `parts` says that the request is well made.
        self.parts(&mut [0; 2]);
        match self {
            Request::Identify => Request::Identify,
            Request::ReadPrimary => Request::ReadPrimary,
            Request::ReadCurrent => Request::ReadCurrent,
            Request::ReadDynamic => Request::ReadDynamic,
            Request::SetPolling { address, mode } => Request::SetPolling {
                address: *address,
                mode: *mode,
            },
            Request::ReadPolling => Request::ReadPolling,
            Request::ReadClasses => Request::ReadClasses,
            Request::ReadVariables(codes) => Request::ReadVariables(codes.copy()),
            Request::IdentifyByTag(tag) => Request::IdentifyByTag(*tag),
            Request::ReadMessage => Request::ReadMessage,
            Request::ReadTag => Request::ReadTag,
            Request::ReadSensor => Request::ReadSensor,
            Request::ReadOutput => Request::ReadOutput,
            Request::ReadAssembly => Request::ReadAssembly,
            Request::WriteMessage(message) => Request::WriteMessage(*message),
            Request::WriteTag {
                tag,
                descriptor,
                date,
            } => Request::WriteTag {
                tag: *tag,
                descriptor: *descriptor,
                date: *date,
            },
            Request::WriteAssembly(assembly) => Request::WriteAssembly(*assembly),
            Request::ReadLongTag => Request::ReadLongTag,
            Request::IdentifyByLongTag(long_tag) => Request::IdentifyByLongTag(*long_tag),
            Request::WriteLongTag(long_tag) => Request::WriteLongTag(*long_tag),
            Request::ResetChanged(given) => Request::ResetChanged(*given),
            Request::ReadMore => Request::ReadMore,
        }
    }

    /// Replaces `data` by the data bytes of the request. Command 6 is always written with two bytes: the address and the mode.
    pub fn write(&self, data: &mut Payload)
        ensures written { «data».new ≡ request_data self.now }
        ensures well_made { IsRequest self.now }
    {
        let mut counter = [0; 2];
        let parts = self.parts(&mut counter);
        data.clear();
        data.extend_from_slice(parts.first);
        // A request without a second part has no third part.
        if !parts.second.is_empty() {
            data.extend_from_slice(parts.second);
            data.extend_from_slice(parts.third);
        }
    }

    /// Returns the number of bytes that [`Request::write`] writes.
    pub fn data_len(&self) -> usize
        ensures len { result ≡ length (request_data self.now) }
        ensures few { result ≤ 32 }
        ensures well_made { IsRequest self.now }
    {
        let mut counter = [0; 2];
        let parts = self.parts(&mut counter);
        parts.first.len() + parts.second.len() + parts.third.len()
    }

    /// Returns the parts of the request's data. If the request has a counter, the bytes of this counter are stored in `counter`.
    fn parts<'a>(&'a self, counter: &'a mut [u8; 2]) -> Parts<'a>
        ensures written { result.first.now ++ result.second.now ++ result.third.now ≡ request_data self.now }
        ensures few { length result.first.now + length result.second.now + length result.third.now ≤ 32 }
        ensures third { result.second.now ≡ [] → result.third.now ≡ [] }
        ensures well_made { IsRequest self.now }
    {
        match self {
            Request::SetPolling { address, mode } => Parts {
                first: address.as_bytes(),
                second: mode_bytes(*mode),
                third: &[],
            },
            Request::ReadVariables(codes) => Parts::one(codes.as_slice()),
            Request::IdentifyByTag(tag) => Parts::one(tag.as_bytes()),
            Request::WriteMessage(message) => Parts::one(message.as_bytes()),
            Request::WriteTag {
                tag,
                descriptor,
                date,
            } => Parts {
                first: tag.as_bytes(),
                second: descriptor.as_bytes(),
                third: date.as_bytes(),
            },
            Request::WriteAssembly(assembly) => Parts::one(assembly),
            Request::IdentifyByLongTag(long_tag) => Parts::one(long_tag),
            Request::WriteLongTag(long_tag) => Parts::one(long_tag),
            Request::ResetChanged(Some(given)) => {
                *counter = given.to_be_bytes();
                Parts::one(counter)
            }
            _ => Parts::one(&[]),
        }
    }
}

/// The parts of the data of a request, one after another. An absent part is empty.
#[derive(Clone, Copy)]
struct Parts<'a> {
    first: &'a [u8],
    second: &'a [u8],
    third: &'a [u8],
}

impl<'a> Parts<'a> {
    /// Returns `Parts` with this one part, which may be empty.
    fn one(part: &'a [u8]) -> Self
        ensures parts { (result.first.now ≡ part.now) × (result.second.now ≡ []) × (result.third.now ≡ []) }
    {
        Parts {
            first: part,
            second: &[],
            third: &[],
        }
    }
}

/// Returns the byte of a loop current mode, as a slice: 0 disabled, 1 enabled.
pub fn mode_bytes(mode: LoopMode) -> &'static [u8]
    ensures { result.now ≡ mode_byte mode ∷ [] }
{
    match mode {
        LoopMode::Disabled => &[0],
        LoopMode::Enabled => &[1],
    }
}
