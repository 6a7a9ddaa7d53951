//! A master of a HART line. It holds at most one request (the request in hand), sends this request one or more times, and accepts the reply
//! (HCF_SPEC-081).
//!
//! A [`Master`] does no input or output. Its caller submits a request, sends the frame that [`Master::send`] returns, and then passes in
//! the characters that were heard, or how long no characters were heard.
//!
//! ```rust
//! let mut master = Master::new(MasterId::Primary, 1, 33)?;
//! master.submit(Address::polling(0)?, Request::Identify)?;
//! assert!(rt; master.send().is_some());
//! assert_eq!(rt; master.tick(33), MasterEvent::Retry);
//! assert!(rt; master.send().is_some());
//! assert_eq!(rt; master.tick(33), MasterEvent::NoReply(2));
//! ```
//!
//! A [`FrameMaster`] is a master whose requests are frames, of any command, known or not. It reads the reply data of known commands, but
//! only to decide whether a frame is the reply.
//!
//! The program `hart` does not call [`unique_of`]. This function is for programs that search for devices with this library.
//!
//! No call of this crate allocates.
#![tactic(auto)]

mod acceptance;
mod event;
mod fault;
mod frame_event;
mod frame_hand;
mod frame_master;
mod hand;
pub mod laws;
mod master;
mod pairing;
mod unique;

pub use acceptance::{matches, matches_frame};
pub use event::MasterEvent;
pub use fault::{MasterFault, Rejected};
pub use frame_event::{FrameEvent, RejectedFrame};
pub use frame_hand::{FrameHand, FrameTransaction};
pub use frame_master::{FrameMaster, is_request};
pub use master::Master;
pub use pairing::may_ask;
pub use unique::unique_of;
