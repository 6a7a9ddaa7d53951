//! Chunks of items without fault bits.
ghost use Rattle.std.specs.Prelude.{◌≡◌, ◌+◌, ◌++◌, ◌<◌, ◌≤◌, ◌⊎◌, [], drop, length, take, IfNone, MatchOption};
ghost use Rattle.hart_frame.specs.heard.Character.{faultless};
ghost use Rattle.hart_text.specs.Items.{NoFaultlessBegins, ReadsUpTo, ReadsMore};

use crate::digits::Digits;
use crate::item_run::{ItemRun, RUN_LEN, item_run};
use crate::items::next_piece;
use hart_values::ByteList;

/// The maximum number of characters in a chunk.
pub const CHUNK_LEN: usize = 8192;

/// The bytes of faultless characters.
pub type Chunk = ByteList<CHUNK_LEN>;

/// Reads pieces (separators, and items without fault bits) from the beginning of a text into an empty chunk of any size. Stops where no
/// such piece begins, or when the chunk has room for fewer than 16 more characters. Returns the place after the pieces that were read.
#[tactic(auto, using(crate::proofs::lemmas::Items::one_after_another))]
pub fn read_chunk<const N: usize>(digits: &Digits, text: &[u8], chunk: &mut ByteList<N>) -> usize
    requires { chunk.old ≡ [] }
    ensures within { result ≤ length text.now }
    ensures reads { ReadsUpTo text.now (faultless chunk.new) (drop result text.now) }
    ensures stops { (N < length chunk.new + RUN_LEN) ⊎ NoFaultlessBegins (drop result text.now) }
    ensures few { length chunk.new ≤ result }
{
    let mut place = 0;
    while let Some(len) = read_some(digits, &text[place..], chunk) {
        place += len;
    }
    place
}

/// Reads the first piece of a text, or several items at once if they are spaced alike. Returns how many bytes were read. Returns `None` if
/// the text begins with no piece, if its first piece has fault bits, or if the chunk has room for fewer than 16 more characters.
#[tactic(auto, using(crate::proofs::lemmas::Items::begins_reads, crate::proofs::lemmas::Items::damaged_stops))]
fn read_some<const N: usize>(digits: &Digits, text: &[u8], chunk: &mut ByteList<N>) -> Option<usize>
    ensures reads { MatchOption result (chunk.new ≡ chunk.old) (ReadsMore text.now chunk.old chunk.new) }
    ensures stops { IfNone result ((N < length chunk.old + RUN_LEN) ⊎ NoFaultlessBegins text.now) }
{
    if N - chunk.len() < RUN_LEN {
        return None;
    }
    if let Some(run) = item_run(text) {
        push_run(chunk, &run);
        return Some(run.len);
    }
    let lead = next_piece(digits, text)?;
    match lead.char {
        None => {}
        Some(char) if char.is_faultless() => chunk.push(char.byte()),
        Some(_) => return None,
    }
    Some(lead.len)
}

/// Appends the bytes of the items in `run` to `chunk`.
#[inline(always)]
fn push_run<const N: usize>(chunk: &mut ByteList<N>, run: &ItemRun)
    requires few { run.now.count ≤ RUN_LEN }
    requires room { length chunk.old + RUN_LEN ≤ N }
    ensures { chunk.new ≡ chunk.old ++ take run.now.count run.now.bytes }
{
    if run.count == RUN_LEN {
        // The run has `RUN_LEN` items here, a constant number, so their bytes are copied without a loop.
        chunk.extend_from_slice(&run.bytes);
    } else {
        chunk.extend_from_slice(&run.bytes[..run.count]);
    }
}
