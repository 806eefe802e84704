// What answers keep to. Each function's contract is a law, and its body is empty.
ghost use Rattle.ws_commit.specs.Laws.{AnswersCommit, RevocationsCommit};

/// What an answer to a sound ask makes of a legal history goes together, and may happen next: at a time
/// that isn't before the history's and is below 2^48, each under the next serial.
pub fn answers_commit()
    ensures { AnswersCommit }
{}

/// The same of a revocation, where a serial is left for it.
pub fn revocations_commit()
    ensures { RevocationsCommit }
{}
