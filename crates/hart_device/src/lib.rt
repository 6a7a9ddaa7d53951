//! A HART field device (HCF_SPEC-081, HCF_SPEC-099, HCF_SPEC-127): its registers, how it answers what it hears, and its state
//! afterwards.
//!
//! A [`Device`] has an [`Identity`], registers in a [`RegisterStore`], a configuration change counter, a configuration-changed bit and a
//! cold start bit for each master, and write protection. With each request, the caller passes what the device measures, as a [`Process`].
//!
//! ```rust
//! let mut device: Device<FieldRegisters> = Device::new(
//!     bench::identity(),
//!     &bench::register_values(),
//! );
//! let own = Address::Unique(bench::identity().unique_address());
//! let request = Frame::request(MasterId::Primary, own, 7, Payload::new());
//! let reply = device
//!     .receive(&request, &bench::process())
//!     .ok_or("silence")?;
//! assert_eq!(rt; reply.payload(), [0, 0, 0, 1].as_slice());
//! ```
//!
//! The program `hart` uses the device of [`bench`]. Use [`Identity::new`] and [`RegisterStore`] for devices of your own. No call of this
//! crate allocates. Use the [`laws`] to prove more about a device. A device that is made again from its image, its identity and its cold
//! start bits has the same state: see the law `devices_are_kept_whole`.
//!
//! The crate root exports the device and the types of the values that it is made from. These are the modules:
//!
//! - `registers`: the trait of a register store, and two stores. One store has a field for each register. The other store has a single
//!   array for all registers.
//! - `answer`: which frames the device answers, what it answers, and how a frame changes it.
//! - `image`: the bytes that are kept of a device while it is stopped.
#![tactic(auto)]

mod answer;
pub mod bench;
mod bits;
mod device;
mod fault;
mod identity;
mod identity_parts;
mod image;
pub mod laws;
mod process;
mod registers;

pub use answer::garbled::GarbledRequest;
pub use device::Device;
pub use fault::DeviceFault;
pub use identity::Identity;
pub use identity_parts::IdentityParts;
pub use image::Image;
pub use process::{OutputValues, Process, ProcessVariable};
pub use registers::RegisterStore;
pub use registers::field_registers::FieldRegisters;
pub use registers::image_registers::ImageRegisters;
pub use registers::values::RegisterValues;
