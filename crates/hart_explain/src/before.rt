//! What is known of a message from what was heard before it.

/// What is known of a message from what was heard before it.
#[derive(Clone, Copy)]
pub struct Before {
    /// For a reply, the start of the request that it answers: the last message of the same master, if that is a request with the reply's
    /// address and command. Otherwise, and for a request, `None`.
    pub answers: Option<u64>,
    /// For a request, how many times in a row it has been sent. Replies that leave it open may stand between.
    pub sending: u64,
    /// How many intact preamble bytes stand directly before the delimiter, without those of the previous message. `None` if this is not
    /// known.
    pub preambles: Option<u64>,
}
