// How the rooms go on with the history. Each function's contract is a law, and its body is empty.
ghost use Rattle.ws_tries.specs.Stands.{ArePushes, AtMostEight, GivesBack, GivesBackVersion, MakesRoom, HasPlace, StandsAfter, StandsOn, Untried};

/// The tries of a pair that a history has are, as events, its pushes, the oldest first.
pub fn are_pushes()
    ensures { ArePushes }
{}

/// Rooms that stand for a history, and get the try of a push behind the others of its pair, stand for the
/// history with that push.
pub fn stands_after()
    ensures { StandsAfter }
{}

/// Rooms that stand for a history stand, as they are, for the history with an event that is no push.
pub fn stands_on()
    ensures { StandsOn }
{}

/// A room without tries may be made for a pair of which the history has no push.
pub fn makes_room()
    ensures { MakesRoom }
{}

/// A room may be given back.
pub fn gives_back()
    ensures { GivesBack }
{}

/// The rooms of a version may be given back.
pub fn gives_back_version()
    ensures { GivesBackVersion }
{}

/// A legal history has no push of a pair that it doesn't have.
pub fn untried()
    ensures { Untried }
{}

/// A legal history has at most eight pushes of a pair.
pub fn at_most_eight()
    ensures { AtMostEight }
{}

/// Where a push may follow a history that the rooms stand for, its pair's room has a place for it.
pub fn has_place()
    ensures { HasPlace }
{}
