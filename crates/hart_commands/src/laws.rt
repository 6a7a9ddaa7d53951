//! Laws: facts about the definitions, not about code. They are for the crates that use this crate.
ghost use Rattle.std.specs.Prelude.{◌≡◌, ◌≢◌, ◌==◌, ◌||◌, ◌<◌, ◌≤◌, ◌↔◌, ◌++◌, All, AllPairs, Contains, List, [], ◌∷◌, ℕ, false, true};
ghost use Rattle.std.specs.Prelude.{Ok, Err, None, Some, IfSome, IsTrue, IsSome, drop, is_some, length, slice_get, take};
ghost use Rattle.hart_commands.specs.RequestData.{IsRequest, MayFollow, command_of, is_known, request_data, request_reading};
ghost use Rattle.hart_commands.specs.Commands.{command_name, reply_rows, request_rows, written_by};
ghost use Rattle.hart_commands.specs.Fields.{bytes_of, field_bytes, fields_of};
ghost use Rattle.hart_commands.specs.FieldWidths.{HasWidthOfKind};
ghost use Rattle.hart_commands.specs.RequestData.{AreTooFew, needed_data};
ghost use Rattle.hart_commands.specs.Parts.{content_bytes, content_parts, request_parts};
ghost use Rattle.hart_commands.specs.RequestCode.{is_write};
ghost use Rattle.hart_commands.specs.Registers.{AreValid, Contents, named_in, overwrite_of, overwritten, place_of, registers, set_by};
ghost use Rattle.hart_commands.specs.Values.{one};
ghost use Rattle.hart_commands.specs.WellMade.{are_request_rows, are_well_made, is_command_name};
ghost use Rattle.hart_values.specs.LoopMode.{mode_byte};
ghost use Rattle.hart_values.specs.declared.loop_mode.LoopMode.{LoopMode};
ghost use Rattle.hart_commands.specs.declared.register.Register.TheVariants.{Polling, Mode, Message, Tag, Descriptor, Date};
ghost use Rattle.hart_commands.specs.declared.register.Register.TheVariants.{Assembly, LongTag};
ghost use Rattle.hart_commands.specs.declared.request.Request.TheVariants.{SetPolling, WriteMessage, WriteTag, WriteAssembly, WriteLongTag};
ghost use Rattle.hart_commands.specs.ReplyData.{IsReply, reply_payload, reply_reading};
ghost use Rattle.hart_commands.specs.declared.register.Register.{Register};
ghost use Rattle.hart_commands.specs.declared.request.Request.{Request};
ghost use Rattle.hart_commands.specs.declared.reply.Reply.{Reply};
ghost use Rattle.hart_commands.specs.declared.content.ReplyContent.TheVariants.{Refused};

use crate::{Register, Request};

/// Every value of the type `Request` is well made (`IsRequest`), because the types of its parts ensure this.
pub fn requests_are_well_made(request: &Request)
    ensures { IsRequest request.now }
{
    request.command();
}

/// The written data of a well-made request are read back as that request. Bytes that `MayFollow` allows may come after these data.
#[tactic(auto, using(crate::proofs::lemmas::Request::written_is_read))]
pub fn written_data_are_read_again()
    ensures { (request : Request) (rest : List ℕ) → IsRequest request → MayFollow request rest
        → request_reading (command_of request) (request_data request ++ rest) ≡ Ok request }
{}

/// The written data of a well-made request are read back as that request, if no bytes follow.
#[tactic(auto, using(crate::proofs::lemmas::Request::written_is_own))]
pub fn written_data_are_their_request()
    ensures { (request : Request) → IsRequest request
        → request_reading (command_of request) (request_data request) ≡ Ok request }
{}

/// If the data of a command are read as a request, this request is well made, and is a request of that command.
pub fn requests_have_their_command()
    ensures { (command : ℕ) (bytes : List ℕ) (request : Request)
        → request_reading command bytes ≡ Ok request → (command_of request ≡ command) × IsRequest request }
{}

/// Data that are read as a request begin with the written data of this request. Command 6 without a mode is an exception: its data are one
/// byte, the address, and its written data are the address and a mode.
pub fn read_data_begin_as_written()
    ensures agree { (command : ℕ) (bytes : List ℕ) (request : Request) → All (λ byte. byte < 256) bytes
        → request_reading command bytes ≡ Ok request
        → take (length (request_data request)) bytes ≡ take (length bytes) (request_data request) }
    ensures whole { (command : ℕ) (bytes : List ℕ) (request : Request) → All (λ byte. byte < 256) bytes
        → request_reading command bytes ≡ Ok request → length (request_data request) ≤ length bytes
        → take (length (request_data request)) bytes ≡ request_data request }
    ensures left_out { (command : ℕ) (bytes : List ℕ) (request : Request) → All (λ byte. byte < 256) bytes
        → request_reading command bytes ≡ Ok request → length bytes < length (request_data request)
        → (command ≡ 6) × (length bytes ≡ 1) }
    ensures fields { (command : ℕ) (bytes : List ℕ) (request : Request) → All (λ byte. byte < 256) bytes
        → request_reading command bytes ≡ Ok request → length bytes < length (request_data request)
        → fields_of (request_rows command) (take (length (request_data request)) bytes)
        ≡ take 1 (fields_of (request_rows command) (request_data request)) }
{}

/// Data are refused with code 5 exactly if they are too few for their command. So data of at least the needed length are never refused with
/// code 5. If bytes are added to data refused with code 5, the longer data are refused with code 5 too, until they have the needed length.
pub fn too_few_data_are_fewer_than_needed()
    ensures exactly { (command : ℕ) (bytes : List ℕ) → (request_reading command bytes ≡ Err 5) ↔ AreTooFew command bytes }
    ensures enough { (command : ℕ) (bytes : List ℕ) → needed_data command ≤ length bytes → request_reading command bytes ≢ Err 5 }
    ensures still { (command : ℕ) (bytes rest : List ℕ) → request_reading command bytes ≡ Err 5
        → length (bytes ++ rest) < needed_data command → request_reading command (bytes ++ rest) ≡ Err 5 }
{}

/// Data are refused with code 64 exactly if their command is not known.
pub fn unknown_commands_are_refused()
    ensures { (command : ℕ) (bytes : List ℕ)
        → (request_reading command bytes ≡ Err 64) ↔ (is_known command ≡ false) }
{}

/// `Register::ALL` lists every register exactly once, each at its `place_of`.
pub fn all_registers_are_listed_once()
    ensures same { Register.ALL ≡ registers }
    ensures every { (register : Register) → Contains registers register }
    ensures place { (register : Register) → slice_get registers (place_of register) ≡ Some register }
    ensures once { AllPairs (λ register other. register ≢ other) registers }
{}

/// A request has an overwrite exactly if its command is a configuration write. The overwrite names one register for each part of
/// the request's data. A request that is no configuration write names no register.
pub fn writes_have_overwrites()
    ensures exactly { (request : Request) → IsTrue (is_write (command_of request)) ↔ IsSome (overwrite_of request) }
    ensures some_register { (request : Request) → IsTrue (is_write (command_of request))
        → (register : Register) × IsSome (named_in request register) }
    ensures every_part { (request : Request) → IsTrue (is_write (command_of request))
        → length (written_by (command_of request)) ≡ length (request_parts request) }
    ensures only_writes { (request : Request) (register : Register) → IsSome (named_in request register)
        → IsTrue (is_write (command_of request)) }
{}

/// Each configuration write sets these registers to the bytes in its data, and sets no other register:
///
/// - Command 6 the polling address and the loop current mode,
/// - Command 17 the message,
/// - Command 18 the tag, the descriptor and the date,
/// - Command 19 the final assembly number,
/// - Command 22 the long tag.
///
/// No other command sets a register.
#[tactic(auto, unfolding(crate::specs::Commands::written_by))]
pub fn writes_set_these_registers()
    ensures polling { (address : ℕ) (mode : LoopMode) (register : Register) → named_in (SetPolling address mode) register
        ≡ set_by ((Polling, one address) ∷ (Mode, one (mode_byte mode)) ∷ []) register }
    ensures message { (message : List ℕ) (register : Register) → named_in (WriteMessage message) register
        ≡ set_by ((Message, message) ∷ []) register }
    ensures tag { (tag descriptor date : List ℕ) (register : Register) → named_in (WriteTag tag descriptor date) register
        ≡ set_by ((Tag, tag) ∷ (Descriptor, descriptor) ∷ (Date, date) ∷ []) register }
    ensures assembly { (assembly : List ℕ) (register : Register) → named_in (WriteAssembly assembly) register
        ≡ set_by ((Assembly, assembly) ∷ []) register }
    ensures long_tag { (long_tag : List ℕ) (register : Register) → named_in (WriteLongTag long_tag) register
        ≡ set_by ((LongTag, long_tag) ∷ []) register }
    ensures others { (request : Request) (register : Register) → ((command_of request == 6) || (command_of request == 17)
        || (command_of request == 18) || (command_of request == 19) || (command_of request == 22)) ≡ false
        → named_in request register ≡ None }
{}

/// The configuration writes are Commands 6, 17, 18, 19 and 22.
#[tactic(auto, using(std::proofs::lemmas::Bool::Decides::nat_tests), unfolding(crate::specs::Commands::written_by))]
pub fn configuration_writes_have_these_numbers()
    ensures { (command : ℕ) → is_write command
        ≡ ((command == 6) || (command == 17) || (command == 18) || (command == 19) || (command == 22)) }
{}

/// If the contents of all registers are valid, they are still valid after the overwrite of a well-made write.
#[tactic(auto, unfolding(crate::specs::Commands::written_by))]
pub fn overwrites_are_valid()
    ensures { (write : Request) (old : Contents) → IsRequest write → AreValid old → AreValid (overwritten write old) }
{}

/// The written payload of a well-made reply is read back as that reply. Every reply that is read from a payload is well made, and has a
/// known command and a response code below 128. If the code is not 0, the content is `Refused`. Writing a reply that was read gives a
/// prefix of the payload from which it was read.
pub fn written_payloads_are_read_again()
    ensures again { (reply : Reply) → IsReply reply → reply_reading reply.command (reply_payload reply) ≡ Some reply }
    ensures well_made { (command : ℕ) (payload : List ℕ) (reply : Reply)
        → reply_reading command payload ≡ Some reply → IsReply reply × (reply.command ≡ command) }
    ensures kept { (command : ℕ) (payload : List ℕ) (reply : Reply) → reply_reading command payload ≡ Some reply
        → reply_payload reply ≡ take (length (reply_payload reply)) payload }
    ensures known { (command : ℕ) (payload : List ℕ) (reply : Reply) → reply_reading command payload ≡ Some reply
        → (is_known command ≡ true) × (reply.code < 128) }
    ensures refused { (command : ℕ) (payload : List ℕ) (reply : Reply) → reply_reading command payload ≡ Some reply
        → reply.code ≢ 0 → reply.content ≡ Refused }
{}

/// A command has a name exactly if the command is known, and no two commands have the same name.
pub fn known_commands_have_names()
    ensures known { (command : ℕ) → is_some (command_name command) ≡ is_known command }
    ensures different { (command other : ℕ) → IsSome (command_name command) → command_name command ≡ command_name other
        → command ≡ other }
{}

/// The fields of a well-made request's data are the parts of the request: as many fields as parts, in the same order, with the same bytes.
/// In the same way, the fields of a well-made reply's data are the parts of its content.
#[tactic(auto, using(crate::proofs::lemmas::Request::parts_of_request, crate::proofs::lemmas::Reply::parts_of_reply))]
pub fn fields_are_the_parts()
    ensures request { (request : Request) → IsRequest request
        → field_bytes (fields_of (request_rows (command_of request)) (request_data request)) ≡ request_parts request }
    ensures reply { (reply : Reply) → IsReply reply
        → field_bytes (fields_of (reply_rows reply.command) (content_bytes reply.content)) ≡ content_parts reply.content }
{}

/// The fields cover all data: the bytes of a well-made request's fields, one after another, are all of the request's data. The same is true
/// of the fields of a well-made reply.
#[tactic(auto, using(crate::proofs::lemmas::Laws::all_of_the_data))]
pub fn fields_are_all_of_the_data()
    ensures request { (request : Request) → IsRequest request
        → bytes_of (fields_of (request_rows (command_of request)) (request_data request)) ≡ request_data request }
    ensures reply { (reply : Reply) → IsReply reply
        → bytes_of (fields_of (reply_rows reply.command) (content_bytes reply.content)) ≡ content_bytes reply.content }
{}

/// The table of commands is well made. Field names have 1 to 40 small letters, digits and `_`, and no two fields of the same data share a
/// name. A field has a size that its kind allows. Data have at most 16 fields. Data of a request have at most seven, and no byte follows
/// them. The name of a command has at most 64 printable characters. A command needs at most 255 bytes.
#[tactic(auto, using(crate::proofs::lemmas::WellMade::well_made))]
pub fn the_table_is_well_made()
    ensures requests { (command : ℕ) → are_request_rows (request_rows command) ≡ true }
    ensures replies { (command : ℕ) → are_well_made (reply_rows command) ≡ true }
    ensures names { (command : ℕ) → IfSome (command_name command) (λ name. is_command_name name ≡ true) }
    ensures needed { (command : ℕ) → needed_data command ≤ 255 }
{}

/// The kind of a field limits its number of bytes: 4 for a float, 3 for a date, 1 or 2 for a number, 6, 12 or 24 for a packed text, and 8
/// for each device variable. These limits hold for the fields of any request data and of any payload that is read as a reply.
#[tactic(auto, using(crate::proofs::lemmas::FieldWidths::widths_of_kinds))]
pub fn fields_have_the_width_of_their_kind()
    ensures request { (command : ℕ) (bytes : List ℕ) → All HasWidthOfKind (fields_of (request_rows command) bytes) }
    ensures reply { (command : ℕ) (payload : List ℕ) (reply : Reply) → reply_reading command payload ≡ Some reply
        → All HasWidthOfKind (fields_of (reply_rows command) (take (length (content_bytes reply.content)) (drop 2 payload))) }
{}
