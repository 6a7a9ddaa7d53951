ghost use Rattle.std.specs.Prelude.{◌≡◌, IfSome, option_map, length};
ghost use Rattle.hart_commands.specs.Registers.{IsValidIn, NamesValid, named_in, overwrite_of, size_of};

use crate::request::mode_bytes;
use crate::{Register, Request, is_write};
use std::marker::Model;

/// The registers that a write sets, each with its new bytes (HCF_SPEC-127).
///
/// In contracts, an overwrite is the write request. The request determines which registers are set, and their new bytes. The request is
/// borrowed, so that nothing is copied.
#[derive(Debug, Drop)]
pub struct Overwrite<'a> {
    write: &'a Request,
}

impl<'a> Model for Overwrite<'a> {
    ghost use Rattle.hart_commands.specs.Registers.{Overwrite};

    ghost Value = { Overwrite };

    ghost view = { λ overwrite. overwrite.write.now };
}

impl<'a> Overwrite<'a> {
    /// Returns the new bytes of a register, or `None` if the write does not set the register.
    #[tactic(auto, unfolding(crate::specs::Commands::written_by))]
    pub fn get(&self, register: Register) -> Option<&'a [u8]>
        ensures named { option_map (λ bytes. bytes.now) result ≡ named_in self.now register }
        ensures valid { IfSome result (λ bytes. IsValidIn register bytes.now) }
        ensures size { IfSome result (λ bytes. length bytes.now ≡ size_of register) }
    {
        match (self.write, register) {
            (Request::SetPolling { address, .. }, Register::Polling) => Some(address.as_bytes()),
            (Request::SetPolling { mode, .. }, Register::Mode) => Some(mode_bytes(*mode)),
            (Request::WriteMessage(message), Register::Message) => Some(message.as_bytes()),
            (Request::WriteTag { tag, .. }, Register::Tag) => Some(tag.as_bytes()),
            (Request::WriteTag { descriptor, .. }, Register::Descriptor) => {
                Some(descriptor.as_bytes())
            }
            (Request::WriteTag { date, .. }, Register::Date) => Some(date.as_bytes()),
            (Request::WriteAssembly(assembly), Register::Assembly) => Some(assembly),
            (Request::WriteLongTag(long_tag), Register::LongTag) => Some(long_tag),
            _ => None,
        }
    }
}

/// Returns the overwrite of a configuration write, or `None` for every other request.
#[tactic(auto, unfolding(crate::specs::Commands::written_by))]
pub fn writes_of(request: &Request) -> Option<Overwrite<'_>>
    ensures overwrite { result ≡ overwrite_of request.now }
    ensures valid { IfSome result NamesValid }
{
    if is_write(request.command()) {
        Some(Overwrite { write: request })
    } else {
        None
    }
}
