//! Laws for a caller, which follow from the contracts.
ghost use Rattle.std.specs.Prelude.{◌≡◌, ◌≢◌, ◌<◌, ◌≤◌, ◌-◌, ◌/◌, [], ◌∷◌, List, Bool, ℕ, Ok, Option, Some, false, true, if◌then◌else◌};
ghost use Rattle.std.specs.Prelude.{All, length, slice_get, slice_index, take};
ghost use Rattle.hart_frame.specs.heard.Character.{Character};
ghost use Rattle.hart_frame.specs.heard.Frames.{AreFrames};
ghost use Rattle.hart_frame.specs.declared.heard.found.Found.{Found};
ghost use Rattle.hart_commands.specs.Codes.{code_name};
ghost use Rattle.hart_commands.specs.Commands.{command_name, reply_rows, request_rows};
ghost use Rattle.hart_commands.specs.Fields.{fields_of};
ghost use Rattle.hart_commands.specs.Parts.{content_bytes};
ghost use Rattle.hart_commands.specs.ReplyData.{reply_reading};
ghost use Rattle.hart_commands.specs.RequestData.{request_reading};
ghost use Rattle.hart_commands.specs.StatusBits.{comm_fault_name, device_state_name};
ghost use Rattle.hart_commands.specs.Units.{unit_name};
ghost use Rattle.hart_commands.specs.declared.reply.Reply.{Reply};
ghost use Rattle.hart_commands.specs.declared.request.Request.{Request};
ghost use Rattle.hart_device.specs.Device.{DeviceState, IsDevice};
ghost use Rattle.hart_device.specs.declared.identity_parts.IdentityParts.{IdentityParts};
ghost use Rattle.hart_c.specs.declared.data.HartField.{HartField};
ghost use Rattle.hart_c.specs.declared.data.HartReading.{HartReading};
ghost use Rattle.hart_c.specs.declared.device.HartDevice.{HartDevice};
ghost use Rattle.hart_c.specs.declared.fault.HartOutcome.{HartOutcome};
ghost use Rattle.hart_c.specs.Data.{NameOutcome, ReplyOutcome, RequestOutcome, StandsAt, field_name};
ghost use Rattle.hart_c.specs.Device.{HearOutcome, IsKept, NewDeviceOutcome, device_of, with_protection};
ghost use Rattle.hart_c.specs.Find.{Finds, IsSearchedSoFar};
ghost use Rattle.hart_frame.specs.scan.Next.{AreNext};
ghost use Rattle.hart_c.specs.declared.find.HartChar.{HartChar};
ghost use Rattle.hart_c.specs.declared.find.HartSearch.{HartSearch};
ghost use Rattle.hart_c.specs.declared.frame.HartFrame.{HartFrame};
ghost use Rattle.hart_c.specs.declared.identity.HartIdentity.{HartIdentity};
ghost use Rattle.hart_c.specs.declared.master.HartAcceptance.{HartAcceptance};
ghost use Rattle.hart_c.specs.declared.process.HartProcess.{HartProcess};
ghost use Rattle.hart_c.specs.declared.registers.HartRegisters.{HartRegisters};
ghost use Rattle.hart_c.specs.Messages.{DecodeOutcome, EncodeOutcome, IsFrame};
ghost use Rattle.hart_c.specs.Numbers.{found_in, frame_in};
ghost use Rattle.hart_c.specs.Acceptance.{AcceptFrameOutcome, MatchOutcome};
ghost use Rattle.hart_c.specs.Master.{AcceptOutcome};
ghost use Rattle.hart_c.specs.FrameMaster.{AgainOutcome, IsMaster, NewMasterOutcome, ReceiveOutcome, SendOutcome, SubmitOutcome};
ghost use Rattle.hart_c.specs.FrameMaster.{TickOutcome};
ghost use Rattle.hart_c.specs.Marks.{Unmarks};
ghost use Rattle.hart_c.specs.Explain.{ExplainOutcome};
ghost use Rattle.hart_c.specs.Own.{AnswerOutcome, HearOwnOutcome};
ghost use Rattle.hart_c.specs.Texts.{PackOutcome, UnpackOutcome};
ghost use Rattle.hart_master.specs.FrameMaster.{FrameMasterState};
ghost use Rattle.hart_c.specs.declared.frame_master.HartEvent.{HartEvent};
ghost use Rattle.hart_c.specs.declared.frame_master.HartMaster.{HartMaster};
ghost use Rattle.hart_c.specs.declared.mark.HartUnmarked.{HartUnmarked};
ghost use Rattle.hart_c.specs.declared.own.HartHearing.{HartHearing};
ghost use Rattle.hart_c.specs.declared.reply.HartMatch.{HartMatch};

use hart_commands::laws::{read_data_begin_as_written, written_payloads_are_read_again};
use hart_device::laws::bytes_have_one_image_fault;
use hart_frame::laws::{bytes_have_one_fault, messages_are_short};

/// Repeated searches find exactly the frames of the whole input, if each search begins with the characters that the last search left
/// unused. The input may come in any pieces. Each search finds the next frames of the input. To get the place of a frame in the whole
/// input, add the number of characters that earlier searches used up. When the input has ended and is used up, all its frames were found.
pub fn searches_give_all_frames()
    ensures next { (heard : List Character) (ended : Bool) (given : List Found) (used : ℕ)
        → IsSearchedSoFar heard ended given used → AreNext heard ended 0 given used }
    ensures all { (heard : List Character) (given : List Found)
        → IsSearchedSoFar heard true given (length heard) → AreFrames heard 0 given }
{}

/// The identity of a device and what the caller keeps of the device determine the device's state. So each call goes on from the state in
/// which the previous call left the device.
pub fn devices_are_kept()
    ensures kept { (state : DeviceState) → IsDevice state → IsKept state.identity (device_of state) state }
    ensures one_state { (parts : IdentityParts) (device : HartDevice) (state other : DeviceState)
        → IsKept parts device state → IsKept parts device other → state ≡ other }
{}

/// The field that a call writes at an index is the field whose name `hart_field_name` writes for this index. The field lies within the
/// data, right after the fields before it. Its kind is the kind in the field's row of the table, and its length is allowed for this kind: a
/// float has 4 bytes, a date 3, a number 1 or 2, packed text 6, 12 or 24, and device variables 8 each.
pub fn fields_stand_where_they_are_shown()
    ensures requests { (command index : ℕ) (bytes : List ℕ) (before after : List HartField) (reading : HartReading) (shown : HartField)
        → RequestOutcome command bytes before after reading → index < reading.count → slice_get after index ≡ Some shown
        → StandsAt false command 0 (fields_of (request_rows command) (take reading.taken bytes)) bytes index shown }
    ensures replies { (command index : ℕ) (payload : List ℕ) (before after : List HartField) (reading : HartReading)
        (shown : HartField) (reply : Reply) → reply_reading command payload ≡ Some reply
        → ReplyOutcome command payload before after reading → index < reading.count → slice_get after index ≡ Some shown
        → StandsAt true command 2 (fields_of (reply_rows command) (content_bytes reply.content)) payload index shown }
{}

/// An array of 16 fields has room for any data, and 64 bytes have room for any name.
pub fn sixteen_fields_and_names_of_64_bytes_have_room()
    ensures requests { (command : ℕ) (bytes : List ℕ) (before after : List HartField) (reading : HartReading)
        → RequestOutcome command bytes before after reading → reading.count ≤ 16 }
    ensures replies { (command : ℕ) (payload : List ℕ) (before after : List HartField) (reading : HartReading)
        → ReplyOutcome command payload before after reading → reading.count ≤ 16 }
    ensures command_names { (command : ℕ) (before after : List ℕ) (outcome : HartOutcome) → 64 ≤ length before
        → NameOutcome (command_name command) before after outcome → outcome.fault ≢ 12 }
    ensures field_names { (is_reply : Bool) (command index : ℕ) (before after : List ℕ) (outcome : HartOutcome) → 64 ≤ length before
        → NameOutcome (field_name is_reply command index) before after outcome → outcome.fault ≢ 12 }
    ensures unit_names { (unit : ℕ) (before after : List ℕ) (outcome : HartOutcome) → 64 ≤ length before
        → NameOutcome (unit_name unit) before after outcome → outcome.fault ≢ 12 }
    ensures code_names { (command code : ℕ) (before after : List ℕ) (outcome : HartOutcome) → 64 ≤ length before
        → NameOutcome (code_name command code) before after outcome → outcome.fault ≢ 12 }
    ensures status_names { (bit : ℕ) (before after : List ℕ) (outcome : HartOutcome) → 64 ≤ length before
        → NameOutcome (device_state_name bit) before after outcome → outcome.fault ≢ 12 }
    ensures comm_fault_names { (bit : ℕ) (before after : List ℕ) (outcome : HartOutcome) → 64 ≤ length before
        → NameOutcome (comm_fault_name bit) before after outcome → outcome.fault ≢ 12 }
{}

/// Bytes that are not taken are ignored: if only the taken bytes are passed, the call has the same result and writes the same fields. A
/// reply takes at least two bytes: its response code and its device status.
pub fn bytes_that_are_not_taken_are_ignored()
    ensures requests { (command : ℕ) (bytes : List ℕ) (request : Request) (before after : List HartField) (reading : HartReading)
        → All (λ byte. byte < 256) bytes → request_reading command bytes ≡ Ok request
        → RequestOutcome command bytes before after reading → RequestOutcome command (take reading.taken bytes) before after reading }
    ensures replies { (command : ℕ) (payload : List ℕ) (reply : Reply) (before after : List HartField) (reading : HartReading)
        → reply_reading command payload ≡ Some reply
        → ReplyOutcome command payload before after reading → ReplyOutcome command (take reading.taken payload) before after reading }
    ensures two { (command : ℕ) (payload : List ℕ) (reply : Reply) (before after : List HartField) (reading : HartReading)
        → reply_reading command payload ≡ Some reply → ReplyOutcome command payload before after reading → 2 ≤ reading.taken }
{
    // These calls do nothing: only their contracts are needed.
    read_data_begin_as_written();
    written_payloads_are_read_again();
}

/// `hart_encode` accepts each frame that another call has written: its address is in range, it has at most three expansion bytes, and a
/// reply has its two status bytes.
pub fn shown_frames_can_be_written()
    ensures found { (chars : List Character) (ended : Bool) (before after : List HartFrame) (search : HartSearch)
        → Finds chars ended before after search → All IsFrame (take search.count after) }
    ensures decoded { (bytes : List ℕ) (before after : HartFrame) (outcome : HartOutcome)
        → DecodeOutcome bytes before after outcome → outcome.fault ≡ 0 → IsFrame after }
    ensures accepted { (numbers : HartFrame) (heard : List HartChar) (before after : HartFrame) (acceptance : HartAcceptance)
        → AcceptOutcome numbers heard before after acceptance → acceptance.is_accepted ≡ true → IsFrame after }
{}

/// A message depends only on the frame. If two structs describe the same frame and have the same `expansion_len`, they have the same
/// message. These parts of a struct do not matter: `start` and `stop`, the fields of the unused kind of address, and the bytes in
/// `expansion` and `payload` after the lengths.
pub fn numbers_of_one_frame_are_written_alike()
    ensures { (frame other : HartFrame) (preambles : ℕ) (before after : List ℕ) (outcome : HartOutcome)
        → frame_in other ≡ frame_in frame → other.expansion_len ≡ frame.expansion_len
        → EncodeOutcome frame preambles before after outcome → EncodeOutcome other preambles before after outcome }
{}

/// 287 bytes have room for any message: with this room, neither `hart_encode` nor `hart_hear` returns the fault `HART_NO_ROOM`.
pub fn messages_of_287_bytes_have_room()
    ensures encode { (frame : HartFrame) (preambles : ℕ) (before after : List ℕ) (outcome : HartOutcome) → 287 ≤ length before
        → EncodeOutcome frame preambles before after outcome → outcome.fault ≢ 12 }
    ensures hear { (identity : HartIdentity) (process : HartProcess) (heard : List HartChar) (before after : HartDevice)
        (old new : List ℕ) (outcome : HartOutcome) → 287 ≤ length old
        → HearOutcome identity process heard before after old new outcome → outcome.fault ≢ 12 }
{
    // This call does nothing: only its contract is needed.
    messages_are_short();
}

/// In a kept image, byte 1 is the polling address, and byte 2 is the loop current mode. The last byte has the flags, and its bit 2 is write
/// protection. If that bit is set or cleared, the kept state differs only in its write protection.
pub fn kept_bytes_are_what_they_say()
    ensures registers { (parts : IdentityParts) (device : HartDevice) (state : DeviceState) → length device.image ≡ 86
        → IsKept parts device state
        → (state.contents.polling ≡ slice_index device.image 1 ∷ []) × (state.contents.mode ≡ slice_index device.image 2 ∷ []) }
    ensures protected { (parts : IdentityParts) (device : HartDevice) (state : DeviceState) → length device.image ≡ 86
        → IsKept parts device state
        → slice_index device.image (device.image_len - 1) / 4 ≡ (if state.protected then 1 else 0) }
    ensures protects { (parts : IdentityParts) (device : HartDevice) (state : DeviceState) (on : Bool) → length device.image ≡ 86
        → IsKept parts device state → IsKept parts (with_protection on device) (record state { protected = on }) }
{}

/// If a call can fail, its contract allows only one result and one output for the same arguments. So the call has at most one fault for
/// these arguments, and no fault if it can succeed. Searches for frames are an exception: their contracts allow different numbers of
/// used-up characters, but no frame depends on this number.
pub fn calls_have_one_outcome()
    ensures decode { (bytes : List ℕ) (before after other : HartFrame) (outcome another : HartOutcome)
        → DecodeOutcome bytes before after outcome → DecodeOutcome bytes before other another
        → (outcome ≡ another) × (found_in after ≡ found_in other) }
    ensures encode { (frame : HartFrame) (preambles : ℕ) (before after other : List ℕ) (outcome another : HartOutcome)
        → EncodeOutcome frame preambles before after outcome → EncodeOutcome frame preambles before other another
        → (outcome ≡ another) × (after ≡ other) }
    ensures requests { (command : ℕ) (bytes : List ℕ) (before after other : List HartField) (reading another : HartReading)
        → RequestOutcome command bytes before after reading → RequestOutcome command bytes before other another
        → (reading ≡ another) × (after ≡ other) }
    ensures replies { (command : ℕ) (payload : List ℕ) (before after other : List HartField) (reading another : HartReading)
        → ReplyOutcome command payload before after reading → ReplyOutcome command payload before other another
        → (reading ≡ another) × (after ≡ other) }
    ensures names { (name : Option (List ℕ)) (before after other : List ℕ) (outcome another : HartOutcome)
        → NameOutcome name before after outcome → NameOutcome name before other another → (outcome ≡ another) × (after ≡ other) }
    ensures new_devices { (given : HartRegisters) (before after other : HartDevice) (outcome another : HartOutcome)
        → NewDeviceOutcome given before after outcome → NewDeviceOutcome given before other another
        → (outcome ≡ another) × (after ≡ other) }
    ensures hear { (identity : HartIdentity) (process : HartProcess) (heard : List HartChar) (before after other : HartDevice)
        (old new newer : List ℕ) (outcome another : HartOutcome)
        → HearOutcome identity process heard before after old new outcome
        → HearOutcome identity process heard before other old newer another
        → (outcome ≡ another) × (after ≡ other) × (new ≡ newer) }
    ensures matches { (request frame : HartFrame) (matched another : HartMatch)
        → MatchOutcome request frame matched → MatchOutcome request frame another → matched ≡ another }
    ensures accept_frame { (numbers heard : HartFrame) (acceptance another : HartAcceptance)
        → AcceptFrameOutcome numbers heard acceptance → AcceptFrameOutcome numbers heard another → acceptance ≡ another }
    ensures accept { (numbers : HartFrame) (heard : List HartChar) (before after other : HartFrame) (acceptance another : HartAcceptance)
        → AcceptOutcome numbers heard before after acceptance → AcceptOutcome numbers heard before other another
        → (acceptance ≡ another) × (found_in after ≡ found_in other) }
{
    // These calls do nothing: only their contracts are needed.
    bytes_have_one_fault();
    bytes_have_one_image_fault();
}

/// A kept master has at most one state. So each call continues with the master that the previous call left.
#[tactic(auto, using(crate::proofs::Masters::one_master))]
pub fn masters_are_kept()
    ensures { (master : HartMaster) (state other : FrameMasterState) → IsMaster master state → IsMaster master other → state ≡ other }
{}

/// Like [`calls_have_one_outcome`], for the calls of a master.
pub fn masters_have_one_outcome()
    ensures new_masters { (retries reply_limit : ℕ) (before after other : HartMaster) (told another : ℕ)
        → NewMasterOutcome retries reply_limit before after told → NewMasterOutcome retries reply_limit before other another
        → (told ≡ another) × (after ≡ other) }
    ensures submit { (request : HartFrame) (before after other : HartMaster) (told another : ℕ)
        → SubmitOutcome request before after told → SubmitOutcome request before other another
        → (told ≡ another) × (after ≡ other) }
    ensures send { (preambles : ℕ) (before after other : HartMaster) (old new newer : List ℕ) (outcome another : HartOutcome)
        → SendOutcome preambles before after old new outcome → SendOutcome preambles before other old newer another
        → (outcome ≡ another) × (after ≡ other) × (new ≡ newer) }
    ensures receive { (frame : HartFrame) (before after other : HartMaster) (told another : HartEvent)
        → ReceiveOutcome frame before after told → ReceiveOutcome frame before other another → (told ≡ another) × (after ≡ other) }
    ensures tick { (times : ℕ) (before after other : HartMaster) (told another : HartEvent)
        → TickOutcome times before after told → TickOutcome times before other another → (told ≡ another) × (after ≡ other) }
    ensures again { (before after other : HartMaster) (told another : HartEvent)
        → AgainOutcome before after told → AgainOutcome before other another → (told ≡ another) × (after ≡ other) }
{
    // This call does nothing: only its contract is needed.
    masters_are_kept();
}

/// Like [`calls_have_one_outcome`], for a device with commands of its maker's own.
pub fn own_commands_have_one_outcome()
    ensures hear { (identity : HartIdentity) (process : HartProcess) (own : List ℕ) (heard : List HartChar)
        (before after other : HartDevice) (shown asked again : HartFrame) (old new newer : List ℕ) (told another : HartHearing)
        → HearOwnOutcome identity process own heard before after shown asked old new told
        → HearOwnOutcome identity process own heard before other shown again old newer another
        → (told ≡ another) × (after ≡ other) × (found_in asked ≡ found_in again) × (new ≡ newer) }
    ensures answer { (identity : HartIdentity) (process : HartProcess) (asked : HartFrame) (code : ℕ) (is_write : Bool) (bytes : List ℕ)
        (before after other : HartDevice) (old new newer : List ℕ) (outcome another : HartOutcome)
        → AnswerOutcome identity process asked code is_write bytes before after old new outcome
        → AnswerOutcome identity process asked code is_write bytes before other old newer another
        → (outcome ≡ another) × (after ≡ other) × (new ≡ newer) }
{
    // These calls do nothing: only their contracts are needed.
    calls_have_one_outcome();
    bytes_have_one_image_fault();
}

/// Like [`calls_have_one_outcome`], for packed texts, the marks of a port, and explanations.
pub fn texts_have_one_outcome()
    ensures pack { (text before after other : List ℕ) (outcome another : HartOutcome)
        → PackOutcome text before after outcome → PackOutcome text before other another → (outcome ≡ another) × (after ≡ other) }
    ensures unpack { (packed before after other : List ℕ) (outcome another : HartOutcome)
        → UnpackOutcome packed before after outcome → UnpackOutcome packed before other another → (outcome ≡ another) × (after ≡ other) }
    ensures unmark { (bytes : List ℕ) (before after other : List HartChar) (told another : HartUnmarked)
        → Unmarks bytes before after told → Unmarks bytes before other another → (told ≡ another) × (after ≡ other) }
    ensures explain { (style : ℕ) (frame : HartFrame) (before after other : List ℕ) (outcome another : HartOutcome)
        → ExplainOutcome style frame before after outcome → ExplainOutcome style frame before other another
        → (outcome ≡ another) × (after ≡ other) }
{}
