//! The line that `hart dump` writes for a frame.
ghost use Rattle.std.specs.Prelude.{◌≡◌, ◌∷◌, [], ◌++◌, ◌+◌, ◌<◌, ◌≤◌, ◌^◌, decimal, length};
ghost use Rattle.hart_frame.specs.heard.Frames.{moved};
ghost use Rattle.hart_frame.specs.wire.View.{found_of};
ghost use Rattle.hart_explain.specs.Header.{address_word};
ghost use Rattle.hart_cli.specs.dump.Text.{burst_word, dump_line, kind_word, line_room, master_word};

use hart_explain::Pairs;
use hart_explain::hex_text::{device_bytes, push_hex};
use hart_frame::{FoundView, FrameKind};
use hart_station::lines::{push_hex_word, push_word};
use hart_values::{Address, ByteList, MasterId};
use itoa::Buffer;

/// Adds the line of a frame: its start and stop, counted from `first` on, its parts, and a line feed. Single spaces separate the words.
pub fn push_frame_line<const N: usize>(
    lines: &mut ByteList<N>,
    pairs: &Pairs,
    first: u64,
    found: &FoundView<'_>,
)
    requires room { length lines.old + line_room (found_of found.now) ≤ N }
    requires start { first + found.now.start < 2 ^ 64 }
    requires stop { first + found.now.stop < 2 ^ 64 }
    ensures line { lines.new ≡ lines.old ++ dump_line (moved first (found_of found.now)) }
    ensures few { length lines.new ≤ length lines.old + line_room (found_of found.now) }
{
    let frame = &found.frame;
    push_places(lines, first + found.start, first + found.stop);
    push_head(lines, frame.kind(), frame.master(), frame.burst());
    push_address(lines, pairs, frame.address());
    push_hex_word(lines, pairs, frame.expansion());
    lines.push(b' ');
    push_word(lines, Buffer::new().format(frame.command()));
    push_hex_word(lines, pairs, frame.payload());
    lines.push(b'\n');
}

/// Adds the words of two places, each with a space after it.
fn push_places<const N: usize>(lines: &mut ByteList<N>, start: u64, stop: u64)
    requires { length lines.old + 42 ≤ N }
    ensures words { lines.new ≡ lines.old ++ (decimal start ++ 32 ∷ []) ++ decimal stop ++ 32 ∷ [] }
    ensures len { length lines.new ≤ length lines.old + 42 }
{
    push_word(lines, Buffer::new().format(start));
    push_word(lines, Buffer::new().format(stop));
}

/// Adds three words, each with a space after it: the kind of frame, the master, and the burst bit.
fn push_head<const N: usize>(
    lines: &mut ByteList<N>,
    kind: FrameKind,
    master: MasterId,
    burst: bool,
)
    requires { length lines.old + 8 ≤ N }
    ensures words { lines.new ≡
        lines.old ++ (kind_word kind ++ 32 ∷ []) ++ (master_word master ++ 32 ∷ []) ++ burst_word burst ++ 32 ∷ [] }
    ensures len { length lines.new ≤ length lines.old + 8 }
{
    push_word(lines, kind_word(kind));
    push_word(lines, master_word(master));
    push_word(lines, burst_word(burst));
}

/// Returns the word of a frame's kind.
fn kind_word(kind: FrameKind) -> &'static str
    ensures word { result.now ≡ kind_word kind }
    ensures short { length result.now ≤ 3 }
{
    match kind {
        FrameKind::Stx => "STX",
        FrameKind::Ack => "ACK",
    }
}

/// Returns the word of a master.
fn master_word(master: MasterId) -> &'static str
    ensures word { result.now ≡ master_word master }
    ensures short { length result.now ≤ 1 }
{
    match master {
        MasterId::Primary => "P",
        MasterId::Secondary => "S",
    }
}

/// Returns the word of a burst bit.
fn burst_word(burst: bool) -> &'static str
    ensures word { result.now ≡ burst_word burst }
    ensures short { length result.now ≤ 1 }
{
    if burst { "1" } else { "0" }
}

/// Adds the word of an address and the space after it.
fn push_address<const N: usize>(line: &mut ByteList<N>, pairs: &Pairs, address: Address)
    requires { length line.old + 11 ≤ N }
    ensures word { line.new ≡ line.old ++ address_word address ++ 32 ∷ [] }
    ensures len { length line.new ≤ length line.old + 11 }
{
    match address {
        Address::Polling(polling) => {
            line.push(b'@');
            push_word(line, Buffer::new().format(polling.number()));
        }
        Address::Unique(device) => {
            if address.is_broadcast() {
                push_word(line, "all");
            } else {
                push_hex(line, pairs, &device_bytes(device));
                line.push(b' ');
            }
        }
    }
}
