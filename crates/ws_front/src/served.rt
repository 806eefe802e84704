/// How serving a connection ended.
#[derive(Clone, Copy, Debug, PartialEq, Eq)]
pub enum Served {
    /// It was answered with this status code.
    Answered { code: u16 },
    /// It ended before any byte.
    Empty,
    /// It ended inside the message, before there was an answer.
    Cut,
    /// A read failed.
    ReadFault,
    /// A write failed.
    WriteFault,
    /// There was no memory to read with.
    NoMemory,
}
