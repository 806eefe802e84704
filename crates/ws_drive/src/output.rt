// What a happening writes.
ghost use Rattle.std.specs.Prelude.{◌≡◌};

use std::borrow::CowStr;
use ws_model::Bytes;

/// What a happening writes: text, or what was written to a connection with its number of bytes before.
#[derive(Drop)]
pub enum Output {
    Text(CowStr<'static>),
    Connection(Bytes),
}

impl Output {
    ghost use Rattle.ws_drive.specs.Output.{output_bytes};

    /// Its bytes.
    pub fn as_bytes(&self) -> &[u8]
        ensures { result.now ≡ output_bytes self.now }
    {
        match self {
            Output::Text(text) => text.as_bytes(),
            Output::Connection(bytes) => bytes.as_slice(),
        }
    }
}
