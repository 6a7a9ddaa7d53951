//! Laws about the definitions alone, for the crates that use this crate.
ghost use Rattle.std.specs.Prelude.{◌≡◌, ◌≢◌, ◌⊎◌, ℕ, Bool, false, true, Ok, Option, None, Some, IfSome, IsSomeAnd};
ghost use Rattle.std.specs.Prelude.{length, unwrap_or};
ghost use Rattle.std.specs.Prelude.{List, [], ◌∷◌, ◌++◌, Contains, slice_get, if◌then◌else◌};
ghost use Rattle.std.specs.Int.{bit_at};
ghost use Rattle.hart_values.specs.EachMaster.{of_master, with_master};
ghost use Rattle.hart_values.specs.declared.address.Address.TheVariants.{Unique};
ghost use Rattle.hart_values.specs.declared.each_master.EachMaster.{EachMaster};
ghost use Rattle.hart_values.specs.declared.master_id.MasterId.{MasterId};
ghost use Rattle.hart_frame.specs.heard.Character.{Character, faultless};
ghost use Rattle.hart_frame.specs.wire.Body.{IsBody};
ghost use Rattle.hart_frame.specs.wire.FrameParts.{FrameParts, reply_parts, request_parts};
ghost use Rattle.hart_commands.specs.Registers.{AreValid, Contents, Overwrite, bytes_in, last_named, overwrite_of, overwritten};
ghost use Rattle.hart_commands.specs.Registers.{registers_of};
ghost use Rattle.hart_commands.specs.ReplyData.{IsReply, reply_reading};
ghost use Rattle.hart_commands.specs.RequestData.{IsRequest, is_known};
ghost use Rattle.hart_commands.specs.declared.register.Register.{Register};
ghost use Rattle.hart_commands.specs.declared.request.Request.{Request};
ghost use Rattle.hart_commands.specs.declared.request.Request.TheVariants.{ResetChanged};
ghost use Rattle.hart_device.specs.answer.Answer.{after_refusal, answer_of, code_of, effect_of, is_answered, reading_of, reply_of};
ghost use Rattle.hart_device.specs.answer.Answer.{state_after};
ghost use Rattle.hart_device.specs.answer.Delivery.{Brings, Brought};
ghost use Rattle.hart_device.specs.answer.Garbled.{BeginsWithGarbled, HasGarbled};
ghost use Rattle.hart_device.specs.declared.fault.DeviceFault.{DeviceFault};
ghost use Rattle.hart_device.specs.declared.answer.garbled.GarbledRequest.{GarbledRequest};
ghost use Rattle.hart_device.specs.declared.identity_parts.IdentityParts.{IdentityParts};
ghost use Rattle.hart_device.specs.declared.process.Process.{Process};
ghost use Rattle.hart_device.specs.Device.{DeviceState, IsDevice, Nothing, Executes, Resets, restarted};
ghost use Rattle.hart_device.specs.Identity.{own_numbers};
ghost use Rattle.hart_device.specs.Process.{IsFloat, IsProcess};
ghost use Rattle.hart_device.specs.Image.{IsImageOf, IsImageFault, image_of};

use crate::Process;
use hart_commands::SensorContent;
use hart_commands::laws::all_registers_are_listed_once;
use hart_values::Bits32;
use hart_values::laws::packed_text_and_bytes_determine_each_other;

/// A command that is refused, or not answered, has no effect. A command without effect changes only the cold start bit of its master, which
/// the reply shows and clears. If there is no reply, nothing changes.
#[tactic(auto, using(crate::proofs::lemmas::answer::Effect::refused, crate::proofs::lemmas::answer::Effect::without_effect))]
pub fn refused_commands_change_nothing()
    ensures refused { (state : DeviceState) (frame : FrameParts) → code_of state frame ≢ 0 → effect_of state frame ≡ Nothing }
    ensures silent { (state : DeviceState) (frame : FrameParts)
        → is_answered state frame ≡ false → effect_of state frame ≡ Nothing }
    ensures stays { (state : DeviceState) (frame : FrameParts) → effect_of state frame ≡ Nothing
        → state_after state frame ≡ after_refusal state frame }
    ensures stays_in_silence { (state : DeviceState) (frame : FrameParts)
        → is_answered state frame ≡ false → state_after state frame ≡ state }
{}

/// An answer is a reply to the frame, and the first byte of its payload is the response code for the frame. If there is no answer,
/// `is_answered` is false for the frame.
pub fn answers_give_their_code()
    ensures answered { (state : DeviceState) (process : Process) (frame reply : FrameParts)
        → answer_of state process frame ≡ Some reply
        → (is_answered state frame ≡ true) × (reply ≡ reply_parts frame reply.payload)
        × (slice_get reply.payload 0 ≡ Some (code_of state frame)) }
    ensures silent { (state : DeviceState) (process : Process) (frame : FrameParts)
        → answer_of state process frame ≡ None → is_answered state frame ≡ false }
{}

/// Every value of the type `Process` is well made, because the types of its parts ensure this.
#[tactic(auto, using(std::proofs::lemmas::Grind::elements))]
pub fn processes_are_well_made(process: &Process)
    ensures { IsProcess process.now }
{
    // These calls do nothing: only their contracts are needed, one for each part.
    floats_have_four_bytes(&process.loop_current);
    floats_have_four_bytes(&process.percent_of_range);
    floats_have_four_bytes(&process.first.value);
    for variable in process.others.as_slice() {
        floats_have_four_bytes(&variable.value);
    }
    serial_numbers_have_three_bytes(&process.sensor);
    floats_have_four_bytes(&process.sensor.upper_limit);
    floats_have_four_bytes(&process.sensor.lower_limit);
    floats_have_four_bytes(&process.sensor.minimum_span);
    floats_have_four_bytes(&process.output.upper_range_value);
    floats_have_four_bytes(&process.output.lower_range_value);
    floats_have_four_bytes(&process.output.damping);
}

/// A float has four bytes, because its type ensures this.
fn floats_have_four_bytes(float: &Bits32)
    ensures { IsFloat float.now }
{
    float.0.as_slice();
}

/// The serial number of a sensor has three bytes, because its type ensures this.
fn serial_numbers_have_three_bytes(sensor: &SensorContent)
    ensures { length sensor.now.serial_number ≡ 3 }
{
    sensor.serial_number.as_slice();
}

/// If a device with valid contents and a well-made process answers a known command, its reply is well made, and a master reads the
/// answer as this reply.
pub fn answers_are_replies()
    ensures well_made { (state : DeviceState) (process : Process) (frame : FrameParts)
        → AreValid state.contents → IsProcess process → is_known frame.command ≡ true → IsReply (reply_of state process frame) }
    ensures read { (state : DeviceState) (process : Process) (frame answer : FrameParts)
        → AreValid state.contents → IsProcess process → is_known frame.command ≡ true
        → answer_of state process frame ≡ Some answer
        → reply_reading frame.command answer.payload ≡ Some (reply_of state process frame) }
{}

/// A restart sets both masters' cold start bits. A reply with a response code shows the bit of its master and clears it. The bit of the
/// other master is unchanged, and without a reply both bits are unchanged. So between two restarts, only the first reply with a response
/// code to each master shows the bit.
pub fn cold_starts_are_shown_once()
    ensures shown { (state : DeviceState) (process : Process) (frame reply : FrameParts)
        → answer_of state process frame ≡ Some reply
        → IsSomeAnd (slice_get reply.payload 1) (λ status. bit_at status 5 ≡ (if of_master frame.master state.cold_start then 1 else 0)) }
    ensures set { (state : DeviceState) (master : MasterId) → of_master master (restarted state).cold_start ≡ true }
    ensures once { (state : DeviceState) (process : Process) (frame later reply : FrameParts)
        → is_answered state frame ≡ true → later.master ≡ frame.master
        → answer_of (state_after state frame) process later ≡ Some reply
        → IsSomeAnd (slice_get reply.payload 1) (λ status. bit_at status 5 ≡ 0) }
    ensures cleared { (state : DeviceState) (frame : FrameParts) → is_answered state frame ≡ true
        → (state_after state frame).cold_start ≡ with_master frame.master false state.cold_start }
    ensures stays { (state : DeviceState) (frame : FrameParts) → is_answered state frame ≡ false
        → (state_after state frame).cold_start ≡ state.cold_start }
{}

/// A list of characters has either exactly one garbled request for a device, or no garbled request.
pub fn garbled_requests_are_decided()
    ensures one { (identity : IdentityParts) (chars : List Character) (request other : GarbledRequest)
        → HasGarbled identity chars request → HasGarbled identity chars other → request ≡ other }
    ensures decided { (identity : IdentityParts) (chars : List Character) → ((request : GarbledRequest) × HasGarbled identity chars request)
        ⊎ ((request : GarbledRequest) → HasGarbled identity chars request → ⊥) }
{}

/// Every delivery brings a device exactly one of these: a frame, a garbled request, or no message.
pub fn deliveries_bring_one()
    ensures brings { (identity : IdentityParts) (delivery : List Character)
        → (brought : Brought) × Brings identity delivery brought }
    ensures one { (identity : IdentityParts) (delivery : List Character) (brought other : Brought)
        → Brings identity delivery brought → Brings identity delivery other → brought ≡ other }
{}

/// No frame changes the identity of the device or its write protection.
#[tactic(auto, using(crate::proofs::lemmas::answer::Effect::identity_stays, crate::proofs::lemmas::answer::Effect::protection_stays))]
pub fn frames_leave_identity_and_protection()
    ensures identity { (state : DeviceState) (frame : FrameParts) → (state_after state frame).identity ≡ state.identity }
    ensures protected { (state : DeviceState) (frame : FrameParts) → (state_after state frame).protected ≡ state.protected }
{}

/// If a configuration write is answered with code 0, the device executes the overwrite of this write: it sets the write's registers to
/// their new bytes. No other frame executes an overwrite, and every executed overwrite is well made.
pub fn writes_execute_their_overwrite()
    ensures executes { (state : DeviceState) (frame : FrameParts) (request : Request) (overwrite : Overwrite)
        → is_answered state frame ≡ true → code_of state frame ≡ 0
        → reading_of frame ≡ Ok request → overwrite_of request ≡ Some overwrite
        → effect_of state frame ≡ Executes overwrite }
    ensures only { (state : DeviceState) (frame : FrameParts) (overwrite : Overwrite)
        → effect_of state frame ≡ Executes overwrite
        → (is_answered state frame ≡ true) × (code_of state frame ≡ 0)
        × (request : Request) × (reading_of frame ≡ Ok request) × (overwrite_of request ≡ Some overwrite) }
    ensures well_made { (state : DeviceState) (frame : FrameParts) (overwrite : Overwrite)
        → effect_of state frame ≡ Executes overwrite → IsRequest overwrite }
{}

/// If Command 38 is answered with code 0, it resets the configuration-changed bit of its master. No other frame resets this bit. If the
/// command names a counter, this counter is the device's counter.
pub fn resets_name_this_counter()
    ensures resets { (state : DeviceState) (frame : FrameParts) (counter : Option ℕ)
        → is_answered state frame ≡ true → code_of state frame ≡ 0 → reading_of frame ≡ Ok (ResetChanged counter)
        → effect_of state frame ≡ Resets }
    ensures only { (state : DeviceState) (frame : FrameParts)
        → effect_of state frame ≡ Resets
        → (is_answered state frame ≡ true) × (code_of state frame ≡ 0)
        × (counter : Option ℕ) × (reading_of frame ≡ Ok (ResetChanged counter)) × IfSome counter (λ n. n ≡ state.counter) }
{}

/// If an overwrite is applied both before and after another overwrite, its first application makes no difference.
pub fn overwrites_absorb()
    ensures { (first other : Overwrite) (old : Contents)
        → overwritten first (overwritten other (overwritten first old)) ≡ overwritten first (overwritten other old) }
{}

/// If a list of overwrites is applied in order, each register holds the bytes of the last overwrite that names it. A register that no
/// overwrite names holds its initial bytes. An overwrite can be left out of the list if the same overwrite comes again later.
#[tactic(auto, using(crate::proofs::lemmas::Laws::registers_of_lists))]
pub fn registers_of_lists()
    ensures each { (overwrites : List Overwrite) (initial : Contents) (register : Register)
        → bytes_in (registers_of overwrites initial) register
        ≡ unwrap_or (last_named overwrites register) (bytes_in initial register) }
    ensures none { (initial : Contents) → registers_of [] initial ≡ initial }
    ensures first { (overwrite : Overwrite) (later : List Overwrite) (initial : Contents)
        → registers_of (overwrite ∷ later) initial ≡ registers_of later (overwritten overwrite initial) }
    ensures last { (overwrites : List Overwrite) (overwrite : Overwrite) (initial : Contents)
        → registers_of (overwrites ++ overwrite ∷ []) initial ≡ overwritten overwrite (registers_of overwrites initial) }
    ensures again { (overwrite : Overwrite) (later : List Overwrite) (initial : Contents)
        → Contains later overwrite → registers_of (overwrite ∷ later) initial ≡ registers_of later initial }
{}

/// Bytes that are an image of some state have no image fault.
pub fn images_have_no_fault()
    ensures { (state : DeviceState) (image : List ℕ) (fault : DeviceFault)
        → IsImageOf state image → IsImageFault image fault → ⊥ }
{}

/// Bytes have at most one image fault.
#[tactic(auto, using(crate::proofs::lemmas::Image::one_fault))]
pub fn bytes_have_one_image_fault()
    ensures { (image : List ℕ) (fault other : DeviceFault)
        → IsImageFault image fault → IsImageFault image other → fault ≡ other }
{}

/// A device's state has at most one image of each version. An image determines the state, except for the identity and the cold
/// start bits.
pub fn images_have_one_state()
    ensures one_image { (state : DeviceState) (image other : List ℕ) (is : IsImageOf state image) (other_is : IsImageOf state other)
        → is.version ≡ other_is.version → image ≡ other }
    ensures one_state { (state other : DeviceState) (image : List ℕ)
        → IsImageOf state image → IsImageOf other image → state.identity ≡ other.identity → state.cold_start ≡ other.cold_start
        → state ≡ other }
{
    // These calls do nothing: only their contracts are needed. The first contract says that `registers` lists every register. The second
    // says that bytes are the packed form of at most one text.
    all_registers_are_listed_once();
    packed_text_and_bytes_determine_each_other();
}

/// A device that is made again from its identity, an image and its cold start bits has the same state. This is true for the image that the
/// device writes, and for any other image of the device, in either version. The images of a device do not depend on its cold start bits.
pub fn devices_are_kept_whole()
    ensures image { (state : DeviceState) → IsDevice state → IsImageOf state (image_of state) }
    ensures any_cold_start { (state : DeviceState) (image : List ℕ) (cold_start : EachMaster Bool)
        → IsImageOf state image → IsImageOf (record state { cold_start = cold_start }) image }
    ensures whole { (state other : DeviceState) → IsDevice state
        → IsImageOf other (image_of state) → other.identity ≡ state.identity
        → record other { cold_start = state.cold_start } ≡ state }
    ensures either_version { (state other : DeviceState) (image : List ℕ)
        → IsImageOf state image → IsImageOf other image → other.identity ≡ state.identity
        → record other { cold_start = state.cold_start } ≡ state }
{}

/// An undamaged request to the device's own unique address also has the form of a garbled request, with the same master and command and
/// without a fault.
pub fn whole_requests_have_the_form_of_garbled_ones()
    ensures { (identity : IdentityParts) (master : MasterId) (command : ℕ) (payload body : List ℕ)
        → IsBody (request_parts master (Unique (own_numbers identity)) command payload) body
        → BeginsWithGarbled identity (faultless body) (record { master = master; command = command; faults = 0 }) }
{}
