/// The four bytes of a floating point number of IEEE 754 single precision, the most significant byte first (HCF_SPEC-127).
///
/// The number is passed on and never used in a computation. Two numbers are equal if their bytes are equal.
#[derive(Clone, Copy, Debug, Default, PartialEq, Eq)]
pub struct Bits32(pub [u8; 4]);
