// Why a request is refused whatever its form says.
ghost use Rattle.std.specs.Prelude.{◌≡◌};
ghost use Rattle.ws_front.specs.Rules.{fault_refusal};
ghost use Rattle.ws_front.specs.Answers.{refusal_response};

use ws_http::BadWhy;

/// Why a request is refused before its form is read.
#[derive(Clone, Copy, Debug, PartialEq, Eq)]
pub enum Refusal {
    /// The bytes aren't a request, or its body isn't a sound one.
    BadRequest,
    /// The head or the message is too long.
    TooLarge,
    /// The target isn't the hub.
    NotFound,
    /// The method isn't POST.
    PostOnly,
    /// The content isn't a form.
    FormOnly,
}

impl Refusal {
    /// The refusal that a fault of the message makes.
    pub fn of(why: BadWhy) -> Refusal
        ensures { result ≡ fault_refusal why }
    {
        match why {
            BadWhy::TooLong => Refusal::TooLarge,
            BadWhy::Head => Refusal::BadRequest,
            BadWhy::Host => Refusal::BadRequest,
            BadWhy::Framing => Refusal::BadRequest,
            BadWhy::Chunk => Refusal::BadRequest,
            BadWhy::Cut => Refusal::BadRequest,
        }
    }

    /// The status code.
    pub fn code(self) -> u16
        ensures { result ≡ (refusal_response self).code }
    {
        match self {
            Refusal::BadRequest => 400,
            Refusal::TooLarge => 413,
            Refusal::NotFound => 404,
            Refusal::PostOnly => 405,
            Refusal::FormOnly => 415,
        }
    }

    /// The text.
    pub fn text(self) -> &'static [u8]
        ensures { result.now ≡ (refusal_response self).text }
    {
        match self {
            Refusal::BadRequest => b"bad request",
            Refusal::TooLarge => b"too large",
            Refusal::NotFound => b"not found",
            Refusal::PostOnly => b"post only",
            Refusal::FormOnly => b"form only",
        }
    }
}
