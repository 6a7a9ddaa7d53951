ghost use Rattle.std.specs.Prelude.{◌≡◌, ◌≤◌, ◌↔◌, length, IsSome, IfSome};
ghost use Rattle.hart_commands.specs.Groups.{tag_in, descriptor_in, date_in};

use crate::first_bytes::first_bytes;

/// Returns the tag, the descriptor and the date at the start of these bytes, or `None` if there are too few bytes.
pub fn tag_parts(bytes: &[u8]) -> Option<([u8; 6], [u8; 12], [u8; 3])>
    ensures accepted { IsSome result ↔ (21 ≤ length bytes.now) }
    ensures tag { IfSome result (λ parts. parts.0 ≡ tag_in bytes.now) }
    ensures descriptor { IfSome result (λ parts. parts.1 ≡ descriptor_in bytes.now) }
    ensures date { IfSome result (λ parts. parts.2 ≡ date_in bytes.now) }
{
    let (tag, rest) = bytes.split_first_chunk::<6>()?;
    let (descriptor, rest) = rest.split_first_chunk::<12>()?;
    Some((*tag, *descriptor, first_bytes(rest)?))
}
