// The law of compaction. Each function's contract is a law, and its body is empty.
ghost use Rattle.ws_compaction.specs.Dropped.{DropsEvent, DropsEventLater, DropsLease, DropsLeaseLater, DropsVersion, DropsVersionLater};
ghost use Rattle.ws_compaction.specs.Least.{KeepsLeast};
ghost use Rattle.ws_compaction.specs.Shortened.{AnyCompactions};
ghost use Rattle.ws_compaction.specs.Compaction.{CompactionLaw, KeepIsLegal, KeepsAgain, KeepsCounts, KeepsPairs, KeepsView};

/// What a compaction keeps has the view of the whole history, its account included.
pub fn keeps_view()
    ensures { KeepsView }
{}

/// What a compaction keeps has the kept pairs of the history, each with its fate.
pub fn keeps_pairs()
    ensures { KeepsPairs }
{}

/// The pairs that are kept and the numbers of the Tally are together those of the account.
pub fn keeps_counts()
    ensures { KeepsCounts }
{}

/// The leases that a compaction keeps are the least set that it must keep.
pub fn keeps_least()
    ensures { KeepsLeast }
{}

/// What a compaction keeps is a legal history.
pub fn keep_is_legal()
    ensures { KeepIsLegal }
{}

/// Whatever comes after, what a compaction keeps goes on as the whole history does.
pub fn compaction_law()
    ensures { CompactionLaw }
{}

/// What a second compaction keeps is legal too, and has the view of what one alone would have kept.
pub fn keeps_again()
    ensures { KeepsAgain }
{}

/// After any number of compactions, what is left goes on as the history that none has touched.
pub fn any_compactions()
    ensures { AnyCompactions }
{}

/// A version that no compaction would keep at a moment, none keeps later.
pub fn drops_version_later()
    ensures { DropsVersionLater }
{}

/// A lease that no compaction would keep at a moment, none keeps later.
pub fn drops_lease_later()
    ensures { DropsLeaseLater }
{}

/// An event that no compaction would keep at a moment, none keeps later.
pub fn drops_event_later()
    ensures { DropsEventLater }
{}

/// A version that no compaction would keep at the time of an event, none keeps right after it.
pub fn drops_version()
    ensures { DropsVersion }
{}

/// A lease that no compaction would keep at the time of an event, none keeps right after it.
pub fn drops_lease()
    ensures { DropsLease }
{}

/// An event that no compaction would keep at the time of another one, none keeps right after that.
pub fn drops_event()
    ensures { DropsEvent }
{}
