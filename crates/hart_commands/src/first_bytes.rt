ghost use Rattle.std.specs.Prelude.{◌≡◌, None, Some};
ghost use Rattle.hart_commands.specs.FirstBytes.{having};

/// Returns the first `N` bytes, or `None` if there are fewer bytes.
pub fn first_bytes<const N: usize>(bytes: &[u8]) -> Option<[u8; N]>
    ensures { result ≡ having N None Some bytes.now }
{
    bytes.first_chunk().copied()
}
