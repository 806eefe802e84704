/// Why a message is refused.
#[derive(Clone, Copy, Debug, PartialEq, Eq)]
pub enum BadWhy {
    /// The bytes can't begin a head.
    Head,
    /// An HTTP/1.1 request without exactly one Host field.
    Host,
    /// Fields that don't say how long the body is.
    Framing,
    /// The head or the message passes its limit.
    TooLong,
    /// The body can't be a chunked one.
    Chunk,
    /// The connection ended inside the message.
    Cut,
}

/// What a reader says to a piece of a message.
#[derive(Clone, Copy, Debug, PartialEq, Eq)]
pub enum Fed {
    /// The message goes on.
    More,
    /// With this piece the head is whole, and the message goes on.
    Head,
    /// The message is whole; `used` bytes of this piece belong to it.
    Whole { used: u64 },
    /// The message is refused.
    Bad { why: BadWhy },
    /// There was no memory.
    NoMemory,
}

/// How much of a response is kept: its status, the status and the first 41 bytes of the body, or all.
#[derive(Clone, Copy, Debug, PartialEq, Eq)]
pub enum Need {
    Status,
    Short,
    Full,
}
