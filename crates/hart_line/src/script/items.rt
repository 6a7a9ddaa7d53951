//! Words of hex items. Each item means one received character.
ghost use Rattle.std.specs.Prelude.{◌≡◌, ◌≤◌, ◌<◌, [], ◌∷◌, ◌++◌, MatchOption, length};
ghost use Rattle.hart_text.specs.Item.{BeginsAsItem, NoItemBegins};
ghost use Rattle.hart_line.specs.script.Items.{IsItemsWord};
ghost use Rattle.hart_line.specs.script.Rows.{IsNeededByItems, ReadsWords};

use crate::script::rows::RowFault;
use crate::{CharList, Filling};
use hart_frame::Char;
use hart_text::{Digits, LeadingItem, gives_faults, leading_item};
use std::alloc::Global;

/// Returns the same item as [`leading_item`], and appends its character to `chars`. Without an item, returns `None` and appends no
/// character. If the item has no fault bits, looks up its digits in the table `digits`.
#[inline(always)]
#[tactic(auto, using(hart_text::proofs::lemmas::Item::begins_as_plain))]
fn push_item(digits: &Digits, text: &[u8], chars: &mut Filling<Char>) -> Option<LeadingItem>
    requires { 2 ≤ length text.now → length chars.old.items < chars.old.room }
    ensures { MatchOption result (NoItemBegins text.now × (chars.new ≡ chars.old)) (λ lead. BeginsAsItem text.now lead.char lead.len
        × (chars.new ≡ record chars.old { items = chars.old.items ++ lead.char ∷ [] })) }
{
    // Each branch has its own `push`. With one `push` after both branches, LLVM would build each character again from its two bytes.
    if gives_faults(text) {
        let lead = leading_item(text)?;
        chars.push(lead.char);
        return Some(lead);
    }
    let [high, low, ..] = text else {
        return None;
    };
    let char = Char::new(digits.byte_of(*high, *low)?, 0)?;
    chars.push(char);
    Some(LeadingItem { char, len: 2 })
}

/// Reads a word that is not empty and consists of items, end to end. Reserves room for one character for every two bytes of the word. If
/// this room is refused, the error is [`RowFault::Memory`]. Otherwise a word of any other form has the error [`RowFault::Bad`].
pub(crate) fn read_items(alloc: Global, digits: &Digits, word: &[u8]) -> Result<CharList, RowFault>
    ensures { ReadsWords (IsNeededByItems word.now) (IsItemsWord word.now) result }
{
    if word.is_empty() {
        return Err(RowFault::Bad);
    }
    // An item has two bytes at least.
    let mut chars = match Filling::with_room(alloc, word.len() / 2) {
        Ok(chars) => chars,
        Err(none) => return Err(RowFault::Memory(none)),
    };
    let mut rest = word;
    while let Some(lead) = push_item(digits, rest, &mut chars) {
        rest = &rest[lead.len..];
    }
    if !rest.is_empty() {
        return Err(RowFault::Bad);
    }
    Ok(CharList::new(chars.finish()))
}
