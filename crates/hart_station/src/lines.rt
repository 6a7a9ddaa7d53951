//! Lines of words and bytes, in buffers of a fixed size. So making a line allocates nothing, and no contract needs a case for refused
//! memory.
ghost use Rattle.std.specs.Prelude.{◌≡◌, ◌∷◌, [], ◌++◌, ◌+◌, ◌-◌, ◌*◌, ◌<◌, ◌≤◌, length, max};
ghost use Rattle.hart_frame.specs.wire.Message.{IsPreambleCount};
ghost use Rattle.hart_station.specs.Lines.{IsMessageLine, bytes_word, counter_line, hex_items, hex_line, image_line};

use hart_device::{Device, RegisterStore};
use hart_explain::Pairs;
use hart_explain::hex_text::push_hex;
use hart_frame::{Frame, Message, encode};
use hart_values::ByteList;
use itoa::Buffer;

/// Adds a text as it is.
pub fn push_text<const N: usize>(line: &mut ByteList<N>, text: &str)
    requires { length line.old + length text.now ≤ N }
    ensures text { line.new ≡ line.old ++ text.now }
    ensures len { length line.new ≡ length line.old + length text.now }
{
    line.extend_from_slice(text.as_bytes());
}

/// Adds a word and the space after it.
pub fn push_word<const N: usize>(line: &mut ByteList<N>, word: &str)
    requires { length line.old + length word.now < N }
    ensures word { line.new ≡ line.old ++ word.now ++ 32 ∷ [] }
    ensures len { length line.new ≡ length line.old + length word.now + 1 }
{
    line.extend_from_slice(word.as_bytes());
    line.push(b' ');
}

/// Adds bytes as a word: in hex, or `-` if there are no bytes.
pub fn push_hex_word<const N: usize>(line: &mut ByteList<N>, pairs: &Pairs, bytes: &[u8])
    requires { length line.old + 2 * length bytes.now < N }
    ensures word { line.new ≡ line.old ++ bytes_word bytes.now }
    ensures len { length line.new ≤ length line.old + max 1 (2 * length bytes.now) }
{
    if bytes.is_empty() {
        line.push(b'-');
    } else {
        push_hex(line, pairs, bytes);
    }
}

/// The line of a message of at most 287 bytes: two digits for each byte, and then a space or the line feed.
pub type HexLine = ByteList<861>;

/// Adds the bytes in upper case hex, two digits for each, separated by single spaces.
fn push_hex_items<const N: usize>(line: &mut ByteList<N>, pairs: &Pairs, bytes: &[u8])
    requires { length line.old + 3 * length bytes.now ≤ N }
    ensures items { line.new ≡ line.old ++ hex_items bytes.now }
    ensures few { length line.new ≤ length line.old + (3 * length bytes.now - 1) }
{
    for (index, byte) in bytes.iter().enumerate() {
        if index > 0 {
            line.push(b' ');
        }
        line.extend_from_slice(&pairs.of(*byte));
    }
}

/// Returns the bytes in upper case hex as one line.
fn hex_line(bytes: &[u8]) -> HexLine
    requires { length bytes.now ≤ 287 }
    ensures { result ≡ hex_line bytes.now }
{
    let mut line = HexLine::new();
    push_hex_items(&mut line, &Pairs::new(), bytes);
    line.push(b'\n');
    line
}

/// Returns the frame's message, with this number of preamble bytes, as a line of hex.
pub fn message_line(frame: &Frame, preambles: u8) -> HexLine
    requires { IsPreambleCount preambles }
    ensures { IsMessageLine frame.now preambles result }
{
    let mut message = Message::new();
    encode(frame, preambles, &mut message).unwrap();
    hex_line(message.as_slice())
}

/// Adds the line of the counter of a device.
pub fn push_counter_line<S: RegisterStore, const N: usize>(
    lines: &mut ByteList<N>,
    device: &Device<S>,
)
    requires { length lines.old + 29 ≤ N }
    ensures line { lines.new ≡ lines.old ++ counter_line device.now }
    ensures len { length lines.new ≤ length lines.old + 29 }
{
    push_word(lines, "counter");
    lines.extend_from_slice(Buffer::new().format(device.counter()).as_bytes());
    lines.push(b'\n');
}

/// Adds the line of the image of a device.
pub fn push_image_line<S: RegisterStore, const N: usize>(
    lines: &mut ByteList<N>,
    pairs: &Pairs,
    device: &Device<S>,
)
    requires { length lines.old + 179 ≤ N }
    ensures { lines.new ≡ lines.old ++ image_line device.now }
{
    push_word(lines, "image");
    push_hex(lines, pairs, device.image().as_slice());
    lines.push(b'\n');
}
