//! Decides whether bytes begin with a body, may still become a body, or never become a body. No other module of this crate decides this.
ghost use Rattle.std.specs.Prelude.{◌≡◌, ◌≤◌, IfErr, IfOk, drop, length, take};
ghost use Rattle.hart_frame.specs.private.Layout.{Describes, layout_length};
ghost use Rattle.hart_frame.specs.private.Prefix.{IsPrefix, fault_in, shown_by};
ghost use Rattle.hart_frame.specs.private.Sums.{AreSums};
ghost use Rattle.hart_frame.specs.wire.Parity.{IsCheckByte};
ghost use Rattle.hart_frame.specs.wire.Refusal.{HasCheckByte};

use crate::FrameFault;
use crate::wire::delimiter::read_delimiter;
use crate::wire::layout::Layout;
use crate::wire::parity::front_check;
use crate::wire::sums::Sums;

/// How bytes begin.
#[derive(Clone, Copy)]
pub(crate) enum Prefix {
    /// The bytes begin with a whole body, which has this layout.
    Whole(Layout),
    /// The bytes end too early for a body, but may become a body if more bytes follow. `Some` gives the number of missing bytes. `None`
    /// says that the bytes end before the byte count.
    Cut(Option<usize>),
    /// The bytes never become a body, whatever follows them.
    Wrong(Wrong),
}

/// What is wrong with bytes that never become a body.
#[derive(Clone, Copy)]
pub(crate) enum Wrong {
    /// The first byte is no STX or ACK delimiter.
    BadDelimiter { byte: u8 },
    /// A reply has this byte count, which is below 2. The byte count is the last of the first `len` bytes.
    ShortReply { len: usize, byte_count: u8 },
    /// The check byte, the last of the first `len` bytes, is `byte`, but the byte that would fit is `fits`.
    BadCheck { len: usize, byte: u8, fits: u8 },
}

impl Wrong {
    /// Returns how many bytes at the front are needed to decide what is wrong.
    pub(crate) fn shown_by(self) -> usize
        ensures { result ≡ shown_by self }
    {
        match self {
            Wrong::BadDelimiter { .. } => 1,
            Wrong::ShortReply { len, .. } => len,
            Wrong::BadCheck { len, .. } => len,
        }
    }

    /// Returns the fault that `decode` returns for bytes that are wrong in this way.
    pub(crate) fn fault(self) -> FrameFault
        ensures { result ≡ fault_in self }
    {
        match self {
            Wrong::BadDelimiter { .. } => FrameFault::BadDelimiter,
            Wrong::ShortReply { .. } => FrameFault::ShortReply,
            Wrong::BadCheck { .. } => FrameFault::BadCheck,
        }
    }
}

/// Returns whether the bytes begin with a body, may still become a body, or never become a body.
pub(crate) fn prefix_of(bytes: &[u8]) -> Prefix
    ensures { IsPrefix bytes.now result }
{
    match layout_in(bytes) {
        Ok(layout) => {
            let check = front_check(bytes, layout.body_len());
            checked_prefix(bytes, layout, check)
        }
        Err(prefix) => prefix,
    }
}

/// Returns what [`prefix_of`] returns for the bytes from `start` on, but takes the check byte from `sums`.
#[inline(always)]
pub(crate) fn prefix_at(bytes: &[u8], start: usize, sums: &mut Sums) -> Prefix
    requires within { start ≤ length bytes.now }
    requires sums { AreSums bytes.now sums.old }
    requires after { sums.old.from ≤ start }
    ensures prefix { IsPrefix (drop start bytes.now) result }
    ensures sums { AreSums bytes.now sums.new }
    ensures after { sums.new.from ≤ start }
{
    let body = &bytes[start..];
    match layout_in(body) {
        Ok(layout) => {
            let check = sums.check(bytes, start, start + layout.body_len());
            checked_prefix(body, layout, check)
        }
        Err(prefix) => prefix,
    }
}

/// Returns the layout of the body at the front of the bytes, if the bytes reach the check byte and nothing is wrong before it.
///
/// # Errors
///
/// The [`Prefix`] of the bytes, if they end before the check byte or are wrong before it.
#[inline(always)]
fn layout_in(bytes: &[u8]) -> Result<Layout, Prefix>
    ensures reaches { IfOk result (λ _. HasCheckByte bytes.now) }
    ensures described { IfOk result (λ layout. Describes layout bytes.now) }
    ensures prefix { IfErr result (IsPrefix bytes.now) }
{
    let Some(first) = bytes.first() else {
        return Err(Prefix::Cut(None));
    };
    let byte = *first;
    let Some(delimiter) = read_delimiter(byte) else {
        return Err(Prefix::Wrong(Wrong::BadDelimiter { byte }));
    };
    let count_place = delimiter.byte_count_place();
    let Some(byte_count) = bytes.get(count_place) else {
        return Err(Prefix::Cut(None));
    };
    let byte_count = *byte_count;
    let Some(layout) = delimiter.layout(byte_count) else {
        let len = count_place + 1;
        return Err(Prefix::Wrong(Wrong::ShortReply { len, byte_count }));
    };
    let len = layout.body_len();
    if bytes.len() < len {
        return Err(Prefix::Cut(Some(len - bytes.len())));
    }
    Ok(layout)
}

/// Decides by parity whether bytes begin with a body of this layout. The bytes reach the check byte of such a body, and `check` is the
/// exclusive or of all bytes up to and including this check byte.
#[inline(always)]
#[tactic(auto, using(crate::proofs::lemmas::wire::Reading::whole_even, crate::proofs::lemmas::wire::Reading::odd_check))]
fn checked_prefix(bytes: &[u8], layout: Layout, check: u8) -> Prefix
    requires reaches { HasCheckByte bytes.now }
    requires described { Describes layout bytes.now }
    requires checks { IsCheckByte (take (layout_length layout) bytes.now) check }
    ensures { IsPrefix bytes.now result }
{
    if check == 0 {
        return Prefix::Whole(layout);
    }
    let len = layout.body_len();
    let byte = bytes[len - 1];
    let fits = check ^ byte;
    Prefix::Wrong(Wrong::BadCheck { len, byte, fits })
}
