use hart_commands::Reply;

/// What became of the request in hand.
#[derive(Debug, Drop, PartialEq, Eq)]
pub enum MasterEvent {
    /// This reply was accepted. The request was sent this number of times.
    Answered(Reply, u8),
    /// Nothing happened: no request is in hand, the request in hand is due to be sent, or its reply is still awaited.
    Nothing,
    /// The reply did not come in time, and the request is due to be sent again. [`Master::sendings`](crate::Master::sendings) says how
    /// often the request was sent.
    Retry,
    /// The request was given up after it was sent this number of times and no reply was accepted.
    NoReply(u8),
}
