// What a reader hears in a piece of the reply.
ghost use Rattle.std.specs.Prelude.{◌≡◌, ℕ, List, ◌++◌, false};
ghost use Rattle.ws_model.specs.declared.work.Outcome.TheVariants as outcome;
ghost use Rattle.ws_http.specs.Responses.{fault_outcome};
ghost use Rattle.ws_http.specs.ResponseStages.{Stands, is_last};
ghost use Rattle.ws_exchange.specs.Hears.{CanHear, Hears};

use ws_http::{BadWhy, Fed, ResponseReader};
use ws_model::{NoMemory, Outcome};

/// What a reader comes to with a piece.
#[derive(Drop)]
pub enum Heard {
    /// The reply goes on.
    More(ResponseReader),
    /// The exchange ends so.
    Ended(Outcome),
    /// There was no memory.
    NoMemory,
}

// What a fault of the reply's bytes makes of the exchange.
fn outcome_of(why: BadWhy) -> Outcome
    ensures { result ≡ fault_outcome why }
{
    match why {
        BadWhy::TooLong => Outcome::TooLong,
        BadWhy::Cut => Outcome::Lost,
        BadWhy::Head => Outcome::Garbled,
        BadWhy::Host => Outcome::Garbled,
        BadWhy::Framing => Outcome::Garbled,
        BadWhy::Chunk => Outcome::Garbled,
    }
}

/// Reads the next piece of a reply, with the connection's end behind it or not.
pub fn hear(mut reader: ResponseReader, piece: &[u8], end: bool) -> Heard
    requires { CanHear reader }
    ensures { (came : List ℕ) → Stands reader came false → Hears reader.need (came ++ piece.now) end result }
{
    match reader.feed(piece, end) {
        Fed::More => Heard::More(reader),
        Fed::Head => Heard::More(reader),
        Fed::Whole { .. } => match reader.into_reply() {
            Ok(reply) => Heard::Ended(Outcome::Reply(reply)),
            Err(NoMemory) => Heard::NoMemory,
        },
        Fed::Bad { why } => Heard::Ended(outcome_of(why)),
        Fed::NoMemory => Heard::NoMemory,
    }
}
