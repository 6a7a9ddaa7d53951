//! The HART line between a field device and its two masters: the events of a script, how they are written, and what they lead to.
//!
//! Each line of a script is one event, unless it is empty or a comment. An event is a request for a master, a turn with what is heard in
//! its two legs, a switch of the write protection, noise, or a restart. [`read_script`] reads the events, or names the first bad line.
//! [`run`] carries the events out. It returns what was spoken, the outcome of each submission, and the device. If a leg has undetected
//! damage, [`run`] returns a fault instead, which names the first such leg. If memory is refused, [`run`] returns a fault, too.
//!
//! ```rust
//! let events = read_script(rt.alloc(), b"submit P @0 0\nturn P ok lost\n")?;
//! let device: Device<FieldRegisters> = Device::new(bench::identity(), &bench::register_values());
//! let primary = Master::new(MasterId::Primary, 3, 33)?;
//! let secondary = Master::new(MasterId::Secondary, 3, 41)?;
//! let report = run(
//!     rt.alloc(),
//!     device,
//!     primary,
//!     secondary,
//!     events.as_slice(),
//!     &bench::process(),
//! )?;
//! let outcome = report.outcomes.as_slice().first().ok_or("no outcome")?;
//! assert_eq!(rt; *outcome, Outcome::Unfinished { sendings: 1 });
//! ```
//!
//! The modules:
//!
//! - `script`: texts whose lines stand for events.
//! - `line`: a device and two masters on one line.
//! - `world`: definitions and lemmas, but no code. A world describes everything that has happened on the line. The reader of a script knows
//!   the whole world. The device and the masters know only parts of it.
#![tactic(auto)]

mod event;
mod fault;
mod fault_text;
mod filling;
pub mod laws;
mod line;
mod memory;
mod plain_list;
mod script;

pub use event::{Heard, LineEvent};
pub use fault::{Leg, LineFault};
pub use fault_text::FaultText;
pub use filling::Filling;
pub use hart_text::read_data;
pub use line::log::Log;
pub use line::logged::run_logged;
pub use line::report::{Ending, Outcome, Outcomes, Party, Report, Spoken, SpokenList};
pub use line::run::run;
pub use memory::{NoRoom, reserved};
pub use plain_list::{CharList, PlainList};
pub use script::read_script;
pub use script::words::{read_address, read_command, read_who};
