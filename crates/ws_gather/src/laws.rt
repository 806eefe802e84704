// How gathered events are put together. Each function's contract is a law, and its body is empty.
ghost use Rattle.ws_gather.specs.Gathered.{AddsUp, Exchanges};

/// Events of a legal history that were gathered for two tests, which no event of the history passes both,
/// are together gathered for either.
pub fn adds_up()
    ensures { AddsUp }
{}

/// The events of a legal history that pass a test, in another order, are gathered for that test.
pub fn exchanges()
    ensures { Exchanges }
{}
