// How a command ends: its text for standard error, and its number.
ghost use Rattle.std.specs.Prelude.{◌≡◌};
ghost use Rattle.ws_link.specs.StatusCode.{status_code};

/// Why an exchange of a client command gave no reply.
#[derive(Clone, Copy, Debug, PartialEq, Eq, thiserror::Error)]
pub enum ExchangeFault {
    #[error("dial")]
    Dial,
    #[error("lost")]
    Lost,
    #[error("late")]
    Late,
    #[error("too long")]
    TooLong,
    #[error("garbled")]
    Garbled,
    #[error("stalled")]
    Stalled,
    #[error("no memory")]
    NoMemory,
}

/// How a command ended. Its text is the line for standard error, and Ok has none.
#[derive(Clone, Copy, Debug, PartialEq, Eq, thiserror::Error)]
pub enum Status {
    /// It was done.
    #[error("")]
    Ok,
    /// The word of this place, from 1, is the first at which no command line can go on.
    #[error("words: {place}")]
    Words { place: u64 },
    /// The happening of this number, from 1, leaves the script's grammar.
    #[error("script: {line}")]
    Script { line: u64 },
    /// A read failed.
    #[error("read failed")]
    ReadFailed,
    /// A write failed.
    #[error("write failed")]
    WriteFailed,
    /// A device of the store failed.
    #[error("disk failed")]
    DiskFailed,
    /// A device of the store is damaged at this place.
    #[error("damaged: {at}")]
    Damaged { at: u64 },
    /// A device holds something else, at this place.
    #[error("foreign: {at}")]
    Foreign { at: u64 },
    /// A client's exchange gave no reply.
    #[error("exchange: {which}")]
    Exchange { which: ExchangeFault },
    /// There was no memory.
    #[error("no memory")]
    NoMemory,
    /// A peer refused, by this status, or by 0 where its answer lacks a link.
    #[error("refused: {code}")]
    Refused { code: u16 },
    /// A listener failed.
    #[error("listen failed")]
    ListenFailed,
    /// The journal is full: its length, and what was asked besides, in bytes.
    #[error("full: {tail} {asked}")]
    Full { tail: u64, asked: u64 },
    /// A record of the journal was altered, at this place.
    #[error("altered: {at}")]
    Altered { at: u64 },
    /// A shipment begins behind what the follower has.
    #[error("gap: {have} {from}")]
    Gap { have: u64, from: u64 },
    /// A shipment's batch of this number makes no legal history.
    #[error("illegal: {batch}")]
    Illegal { batch: u64 },
    /// The source of coins failed.
    #[error("coins failed")]
    CoinsFailed,
}

impl Status {
    /// The number with which the program exits.
    pub fn code(&self) -> u8
        ensures { result ≡ status_code self.now }
    {
        match self {
            Status::Ok => 0,
            Status::Words { .. } => 1,
            Status::Script { .. } => 2,
            Status::ReadFailed => 3,
            Status::WriteFailed => 4,
            Status::DiskFailed => 5,
            Status::Damaged { .. } | Status::Foreign { .. } => 6,
            Status::Exchange { .. } => 7,
            Status::NoMemory => 8,
            Status::Refused { .. } => 9,
            Status::ListenFailed => 10,
            Status::Full { .. } => 11,
            Status::Altered { .. } => 12,
            Status::Gap { .. } => 13,
            Status::Illegal { .. } => 14,
            Status::CoinsFailed => 15,
        }
    }
}
