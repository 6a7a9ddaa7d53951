use hart_commands::Request;
use hart_values::Address;

/// What a master has in hand.
#[derive(Debug, Drop)]
pub(crate) enum Hand {
    /// No request.
    Empty,
    /// A request that is to be sent, for the first time or again.
    ToSend(Transaction),
    /// A request whose reply is awaited, and how many character times have passed since it was sent. The number 255 means 255 or more.
    Awaiting(Transaction, u8),
}

/// A request to an address, and how often it was sent.
#[derive(Debug, Drop)]
pub(crate) struct Transaction {
    pub(crate) address: Address,
    pub(crate) request: Request,
    pub(crate) sendings: u8,
}
