// How the table goes on with the history. Each function's contract is a law, and its body is empty.
ghost use Rattle.ws_delivery.specs.Agrees.{NextDueAgrees};
ghost use Rattle.ws_delivery.specs.Stands.{StandsAfter, StandsEmpty, StandsLater, StandsOn};

/// The empty table stands for the empty history.
pub fn stands_empty()
    ensures { StandsEmpty }
{}

/// A table that stands for a history from a moment on stands for it from any later moment on.
pub fn stands_later()
    ensures { StandsLater }
{}

/// A table that has the owed pairs after an event stands for the history with that event.
pub fn stands_after()
    ensures { StandsAfter }
{}

/// A table that stands for a history stands, as it is, for the history with an event that confirms
/// nothing, gives no version, ends no push and revokes nothing.
pub fn stands_on()
    ensures { StandsOn }
{}

/// The push that is due first in a table is the first due push of the history, for each history that
/// the table stands for.
pub fn next_due_agrees()
    ensures { NextDueAgrees }
{}
