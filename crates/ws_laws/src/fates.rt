// What fates, leases and due work keep to. Each function's contract is a law, and its body is empty.
ghost use Rattle.ws_laws.specs.Fates.{DueIsLicensed, EndedStays, OneFate, OneLive, OnlyPairsDue};

/// A fate that is not owed stays, whatever legally comes after.
pub fn ended_stays()
    ensures { EndedStays }
{}

/// Each pair of a version and a lease has exactly one fate at a moment: its numbers tell it from all
/// other pairs.
pub fn one_fate()
    ensures { OneFate }
{}

/// Of one topic and callback at most one lease is live at a moment.
pub fn one_live()
    ensures { OneLive }
{}

/// A push that is due is of a pair that is owed, to a lease that is live, at that moment.
pub fn due_is_licensed()
    ensures { DueIsLicensed }
{}

/// A pair that the history doesn't have is never due.
pub fn only_pairs_due()
    ensures { OnlyPairsDue }
{}
