// What the status of a reply says.
ghost use Rattle.std.specs.Prelude.{◌≡◌};
ghost use Rattle.ws_model.specs.Verdict.{is_success, miss_number};

use ws_model::Outcome;

/// Whether a status is 200 to 299.
pub(crate) fn is_success(code: u16) -> bool
    ensures { result ≡ is_success code }
{
    code >= 200 && code <= 299
}

/// The number of an outcome: the reply's status, or else 0 where it was lost, 1 late, 2 too long, 3
/// garbled (own).
pub(crate) fn miss_number(outcome: &Outcome) -> u16
    ensures { result ≡ miss_number outcome.now }
{
    match outcome {
        Outcome::Reply(reply) => reply.code,
        Outcome::Lost => 0,
        Outcome::Late => 1,
        Outcome::TooLong => 2,
        Outcome::Garbled => 3,
    }
}
