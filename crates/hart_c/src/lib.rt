//! HART messages for callers in C (HCF_SPEC-081, HCF_SPEC-127). The calls find, read and write frames, run a field device or a master
//! that the caller keeps, and accept replies as a master does.
//!
//! `include/hart.h` declares what is exported, and states the duties of the caller. No call keeps a pointer or a state of its own,
//! and none allocates: the caller keeps what lasts from call to call. The result of each call depends only on its arguments.
#![tactic(auto)]

ghost use Rattle.std.specs.Prelude.{◌≡◌};

mod data;
mod decode;
mod device;
mod encode;
mod explain;
mod fault;
mod find;
mod frame;
mod frame_master;
mod heard;
mod identity;
pub mod laws;
mod mark;
mod master;
mod name;
mod output;
mod own;
mod packed_text;
mod process;
mod reason;
mod registers;
mod reply;

pub use data::{HartField, HartReading, hart_read_reply, hart_read_request};
pub use decode::{hart_check_byte, hart_decode};
pub use device::{HartDevice, hart_hear, hart_new_device, hart_restart};
pub use encode::hart_encode;
pub use explain::hart_explain;
pub use fault::HartOutcome;
pub use find::{HartChar, HartSearch, hart_find, hart_find_in_bytes};
pub use frame::HartFrame;
pub use frame_master::{
    HartEvent, HartMaster, hart_again, hart_new_master, hart_receive, hart_send, hart_submit,
    hart_tick,
};
pub use identity::{HartIdentity, hart_bench_identity};
pub use mark::{HartUnmarked, hart_unmark};
pub use master::{HartAcceptance, HartUnique, hart_accept, hart_unique_of};
pub use name::{
    hart_code_name, hart_comm_fault_name, hart_command_name, hart_field_name, hart_status_name,
    hart_unit_name,
};
pub use own::{HartHearing, hart_answer, hart_hear_own};
pub use packed_text::{hart_pack_text, hart_unpack_text};
pub use process::{HartOutput, HartProcess, HartSensor, HartVariable, hart_bench_process};
pub use registers::{HartRegisters, hart_bench_registers};
pub use reply::{HartMatch, hart_accept_frame, hart_matches};

/// The version: major, minor and patch, a byte each.
pub const HART_VERSION: u32 = 0x000100;

/// Returns the version of the library.
#[unsafe(no_mangle)]
pub extern "C" fn hart_version() -> u32
    ensures { result ≡ 0x000100 }
{
    HART_VERSION
}
