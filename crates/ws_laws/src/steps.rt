// How the view of a history goes on. Each function's contract is a law, and its body is empty.
ghost use Rattle.ws_laws.specs.Steps.{Advances, Follows, Steps};

/// The view of a history at a later moment is a function of its view and of that moment.
pub fn advances()
    ensures { Advances }
{}

/// Whether a new event may follow a history is a function of the event and of the history's view at
/// the event's time.
pub fn follows()
    ensures { Follows }
{}

/// The view after a new event is a function of the event and of the view before it.
pub fn steps()
    ensures { Steps }
{}
