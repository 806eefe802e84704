// The work that is due.
ghost use Rattle.std.specs.Prelude.{◌≡◌};
ghost use Rattle.ws_intent.specs.Rows.{work_of as intent_work};
ghost use Rattle.ws_core_tables.specs.Stands.{work_of};

use ws_intent::Due;
use ws_model::Key;

/// Work that is due: a verification, a denial notice, a fetch, or a push.
///
/// `upto` is the greatest serial so far. The topic is borrowed from the tables.
#[derive(Clone, Copy, Debug)]
pub enum DueWork<'a> {
    Verify { n: u64 },
    Notice { n: u64 },
    Fetch { topic: &'a Key, upto: u64 },
    Push { ver: u64, lease: u64 },
}

impl<'a> DueWork<'a> {
    /// What is due of an intent or a notice.
    pub(crate) fn of_intent(due: Due) -> DueWork<'a>
        ensures { work_of result ≡ intent_work due }
    {
        match due {
            Due::Verify(n) => DueWork::Verify { n },
            Due::Notice(n) => DueWork::Notice { n },
        }
    }
}
