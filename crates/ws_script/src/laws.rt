// Laws of the grammar. Each function's contract is a law, and its body is empty.
ghost use Rattle.ws_script.specs.Script.{OneReading};

/// With one setting of the gateway at most one happening stands at the front of bytes, and it leaves one rest.
pub fn one_reading()
    ensures { OneReading }
{}
