// Laws of what the ledger tells. Each function's contract is a law, and its body is empty.
ghost use Rattle.ws_ledger.specs.InUse.{DueHasIntent};

/// The first work that is due at a moment, which isn't before the history's time, goes by an intent that is
/// in use.
pub fn due_has_intent()
    ensures { DueHasIntent }
{}
