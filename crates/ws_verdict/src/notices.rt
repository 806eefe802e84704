// Denial notices.
ghost use Rattle.std.specs.Prelude.{◌≡◌};
ghost use Rattle.ws_model.specs.Verdict.{notice_verdict};

use ws_model::{Outcome, What};

/// What the outcome of a denial notice makes: it was heard where any reply came (own).
pub(crate) fn notice(n: u64, outcome: &Outcome) -> What
    ensures { result ≡ notice_verdict n outcome.now }
{
    let heard = matches!(outcome, Outcome::Reply(_));
    What::Noticed { n, heard }
}
