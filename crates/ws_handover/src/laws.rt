// Laws. Each function's contract is a law, and its body is empty.
ghost use Rattle.ws_handover.specs.Taken.{ReplacedIsTaken, TakenIsReplaced};

/// A pair that ended by the replacement of its lease went over to the lease that replaced it.
pub fn replaced_is_taken()
    ensures { ReplacedIsTaken }
{}

/// A pair that went over ended by the replacement of its lease.
pub fn taken_is_replaced()
    ensures { TakenIsReplaced }
{}
