// How the table goes on with the history. Each function's contract is a law, and its body is empty.
ghost use Rattle.ws_lease.specs.Stands.{EndedIsLive, GoneEnds, NewIsNotHeld, OthersLeave, RevokedEnds, StandsLater, StandsOn, UnsubscriptionEnds, UnsubscriptionLeaves};

/// A table that stands for a history stands, as it is, for the history with an event that makes no
/// lease and ends no live one.
pub fn stands_on()
    ensures { StandsOn }
{}

/// A table that stands for a history from a moment on stands for it from any later moment on.
pub fn stands_later()
    ensures { StandsLater }
{}

/// A push that is answered 410 ends the lease that it was for.
pub fn gone_ends()
    ensures { GoneEnds }
{}

/// A revocation ends its lease.
pub fn revoked_ends()
    ensures { RevokedEnds }
{}

/// A confirmed unsubscription ends the live lease of its topic and callback.
pub fn unsubscription_ends()
    ensures { UnsubscriptionEnds }
{}

/// A confirmed unsubscription leaves all leases, where none of its topic and callback is live.
pub fn unsubscription_leaves()
    ensures { UnsubscriptionLeaves }
{}

/// An event that is neither a confirmation, a push that was answered 410 nor a revocation leaves all
/// leases.
pub fn others_leave()
    ensures { OthersLeave }
{}

/// A lease that an event makes isn't held before, and was sent by the event's time.
pub fn new_is_not_held()
    ensures { NewIsNotHeld }
{}

/// A lease that an event ends is live in the table.
pub fn ended_is_live()
    ensures { EndedIsLive }
{}
