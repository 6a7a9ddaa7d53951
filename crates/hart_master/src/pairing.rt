//! Which requests may be sent to which addresses.
ghost use Rattle.std.specs.Prelude.{◌≡◌};
ghost use Rattle.hart_master.specs.Pairing.{may_ask, may_go_to, may_send};

use hart_commands::{Request, command_name, may_be_broadcast};
use hart_frame::Frame;
use hart_values::Address;

/// Returns true if the request may be sent to this address. Only Command 0 may go to a polling address, and only Commands 11 and 21 may be
/// broadcast. Every command may go to any other address.
pub fn may_ask(address: Address, request: &Request) -> bool
    ensures { result ≡ may_ask address request.now }
{
    may_go_to(address, request.command())
}

/// Returns true if the frame has an unknown command, or if its command may be sent to its address.
pub(crate) fn may_send(frame: &Frame) -> bool
    ensures { result ≡ may_send frame.now }
{
    command_name(frame.command()).is_none() || may_go_to(frame.address(), frame.command())
}

/// Returns true if this command may be sent to this address.
fn may_go_to(address: Address, command: u8) -> bool
    ensures { result ≡ may_go_to address command }
{
    match address {
        Address::Polling(_) => command == 0,
        Address::Unique(_) => !address.is_broadcast() || may_be_broadcast(command),
    }
}
