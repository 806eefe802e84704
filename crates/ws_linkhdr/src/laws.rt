// Laws of the grammar. Each function's contract is a law, and its body is empty.
ghost use Rattle.ws_linkhdr.specs.Grammar.{OneReading};

/// Bytes say one list of links, if any.
pub fn one_reading()
    ensures { OneReading }
{}
