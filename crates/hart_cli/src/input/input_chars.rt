//! The characters of an input.
ghost use Rattle.std.specs.Prelude.{◌≡◌, ◌<◌, IfErr, IfOk, List, Option, length, ℕ};
ghost use Rattle.hart_frame.specs.heard.Character.{Character};
ghost use Rattle.hart_text.specs.Items.{ReadsAs};
ghost use Rattle.hart_cli.specs.input.Input.{Ending};
ghost use Rattle.hart_cli.specs.input.InputChars.{HasChars, IsWholeTextFault};
ghost use Rattle.hart_cli.specs.declared.fault.CliFault.{CliFault};

use crate::fault::CliFault;
use hart_frame::Char;
use hart_line::Filling;
use hart_station::pieces::read_pieces;
use hart_text::Digits;
use std::alloc::Global;

/// The bytes read from an input, and how the input ended, determine its first fault and the characters before that fault.
pub fn inputs_are_unambiguous()
    ensures { (text : List ℕ) (ending : Ending) (xs ys : List Character) (f g : Option CliFault)
        → HasChars text ending xs f → HasChars text ending ys g → (xs ≡ ys) × (f ≡ g) }
{}

/// Returns the characters of an input that was read to its end.
///
/// # Errors
///
/// [`CliFault::BadHex`] with the first place where neither a separator nor an item begins; fault bits of a character are no fault of the
/// input. [`CliFault::Memory`] if memory was refused. The call asks for room for one character per two bytes of the input.
pub fn read_chars(alloc: Global, mut text: Filling<u8>) -> Result<Vec<Char>, CliFault>
    requires spare { length text.items < text.room }
    ensures chars { IfOk result (λ chars. ReadsAs text.items chars.items) }
    ensures fault { IfErr result (IsWholeTextFault text.items) }
{
    // An item has two bytes at least.
    let mut chars = Filling::with_room(alloc, text.len() / 2)?;
    // The end of an input completes its last item, as a space does.
    text.push(b' ');
    let place = read_pieces(&Digits::new(), text.as_slice(), &mut chars);
    if place < text.len() {
        return Err(CliFault::BadHex { place });
    }
    Ok(chars.finish())
}
