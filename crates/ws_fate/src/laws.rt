// How the table goes on with the history. Each function's contract is a law, and its body is empty.
ghost use Rattle.ws_fate.specs.Stands.{StandsAfter, StandsLater, StandsOn};

/// A table that stands for a history stands for it at a later moment, with what has expired by then.
pub fn stands_later()
    ensures { StandsLater }
{}

/// A table that goes over to what an event makes of its pairs stands for the history with that event.
pub fn stands_after()
    ensures { StandsAfter }
{}

/// A table that stands for a history stands, as it is, for the history with an event that confirms
/// nothing, gives no version, ends no push and revokes nothing.
pub fn stands_on()
    ensures { StandsOn }
{}
