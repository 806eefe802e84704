// What the table keeps to. The function's contract is a law, and its body is empty.
ghost use Rattle.ws_topic.specs.Stands.{OthersStand};

/// An event that is of no topic leaves the table standing for the history.
pub fn others_stand()
    ensures { OthersStand }
{}
