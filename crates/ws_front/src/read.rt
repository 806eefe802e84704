// Reads a request piece by piece, up to the first answer that its rules give.
ghost use Rattle.std.specs.Prelude.{◌≡◌, ℕ, List};
ghost use Rattle.std.specs.Io.KnownBytes.{Appends};
ghost use Rattle.ws_model.specs.Cause.{HasCause};
ghost use Rattle.ws_http.specs.Requests.{is_final};
ghost use Rattle.ws_http.specs.RequestStages.{verdict};
ghost use Rattle.ws_target.specs.Requests.{path_and_query, place_of};
ghost use Rattle.ws_front.specs.Reading.{TakesPiece, IsOpen, ReadsOn, HasReadCause};
ghost use Rattle.ws_front.specs.declared.read.Stop.TheVariants as stop;

use ws_http::{Fed, RequestReader};
use ws_link::{ReadFailed, Source, WriteFailed};

/// Why there was no answer.
#[derive(Clone, Copy, Debug, PartialEq, Eq, thiserror::Error)]
pub enum Stop {
    /// The source ended before any byte.
    #[error("empty")]
    Empty,
    /// It ended inside the message.
    #[error("cut")]
    Cut,
    #[error("read failed")]
    ReadFault,
    #[error("write failed")]
    WriteFault,
}

impl From<ReadFailed> for Stop {
    ghost from_gives = { λ _ s. s ≡ stop.ReadFault };

    fn from(_: ReadFailed) -> Self {
        Stop::ReadFault
    }
}

impl From<WriteFailed> for Stop {
    ghost from_gives = { λ _ s. s ≡ stop.WriteFault };

    fn from(_: WriteFailed) -> Self {
        Stop::WriteFault
    }
}

// The most bytes that are read at once.
const PIECE: usize = 8192;

// Reads the next piece, and says what the reader says to it. None where the source has ended.
fn take_piece<S: Source>(
    source: &mut S,
    reader: &mut RequestReader,
) -> Result<Option<Fed>, ReadFailed>
    ensures piece { TakesPiece reader.old reader.new (S.left source.old) (S.left source.new) result }
    ensures cause { HasCause (S.faults source.old) (S.faults source.new) result }
{
    let mut buffer = [0; PIECE];
    let n = source.take(&mut buffer)?;
    if n == 0 {
        return Ok(None);
    }
    Ok(Some(reader.feed(&buffer[..n])))
}

/// Reads pieces up to the first one at which the reader says something: that the head is whole, or the message, or that
/// it is refused.
pub fn read_on<S: Source>(source: &mut S, reader: &mut RequestReader) -> Result<Fed, Stop>
    requires { (came : List ℕ) × IsOpen reader.old came }
    ensures reads { (came : List ℕ) → IsOpen reader.old came → ReadsOn came reader.old reader.new (S.left source.old) (S.left source.new) result }
    ensures cause { HasReadCause (S.faults source.old) (S.faults source.new) result }
{
    let mut came = reader.headed();
    'pieces: loop {
        match take_piece(source, reader)? {
            Some(fed) => match fed {
                Fed::More => came = true,
                _ => return Ok(fed),
            },
            None if came => return Err(Stop::Cut),
            None => return Err(Stop::Empty),
        }
    }
}
