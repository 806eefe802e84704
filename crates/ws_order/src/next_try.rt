// The next try of a push, and where it stands among others.
ghost use Rattle.std.specs.Prelude.{◌≡◌, find, nat_lt};
ghost use Rattle.ws_order.specs.NextTries.{before, same, is_ready, is_out_push, is_push_work, IsRising};
ghost use Rattle.ws_order.specs.NextTryOrder.{next_tries_order};

use crate::key::{Key, Sought};
use crate::order::Order;
use ws_model::{Held, Work};

/// The next try of the push of a version to a lease: its time and the end of the lease in seconds.
#[derive(Clone, Copy, Debug, PartialEq, Eq)]
pub struct NextTry {
    pub at: u64,
    pub ver: u64,
    pub lease: u64,
    pub exp: u64,
}

impl NextTry {
    /// Whether this stands before the other: by time, version, lease, end.
    pub fn is_before(&self, other: &NextTry) -> bool
        ensures { result ≡ before self.now other.now }
    {
        self.at < other.at || (self.at == other.at && self.is_before_at_once(other))
    }

    fn is_before_at_once(&self, other: &NextTry) -> bool
        requires { self.now.at ≡ other.now.at }
        ensures { result ≡ before self.now other.now }
    {
        self.ver < other.ver
            || (self.ver == other.ver
                && (self.lease < other.lease
                    || (self.lease == other.lease && self.exp < other.exp)))
    }

    /// Whether the push may be made at `t`: its time has come, its lease hasn't ended, and no ticket
    /// for it is out.
    pub fn is_ready(&self, t: u64, held: &Held) -> bool
        ensures { result ≡ is_ready t held.now self.now }
    {
        self.at <= t && t < self.exp && !is_out(self.ver, self.lease, held.as_slice())
    }
}

impl Key for NextTry {
    ghost before = { before };

    ghost same = { same };

    fn is_before(&self, other: &NextTry) -> bool {
        NextTry::is_before(self, other)
    }

    fn spread(&self) -> u64 {
        let mixed = self.lease.wrapping_mul(0x9e37_79b9_7f4a_7c15)
            ^ self.ver.wrapping_mul(0xc2b2_ae3d_27d4_eb4f)
            ^ self.at.wrapping_mul(0x1656_67b1_9e37_79f9);
        (mixed ^ (mixed >> 32)).wrapping_mul(0xd6e8_feb8_6659_fd93)
    }

    ghost laws = { next_tries_order };
}

/// A next try that is ready at a time.
#[derive(Drop)]
struct Ready<'a> {
    t: u64,
    held: &'a Held,
}

impl Sought<NextTry> for Ready<'_> {
    ghost wanted = { λ s x. is_ready s.t s.held.now x };

    ghost past = { λ s x. nat_lt s.t x.at };

    fn is_wanted(&self, key: &NextTry) -> bool {
        key.is_ready(self.t, self.held)
    }

    fn is_past(&self, key: &NextTry) -> bool {
        self.t < key.at
    }
}

impl Order<NextTry> {
    /// The first member that is ready at `t`. Those before it whose ticket is out or whose lease has
    /// ended are passed over one by one; those whose time hasn't come aren't looked at.
    pub fn first_ready(&self, t: u64, held: &Held) -> Option<NextTry>
        ensures first { result ≡ find (is_ready t held.now) self.now }
        ensures rising { IsRising self.now }
    {
        self.first(&Ready { t, held })
    }
}

/// Whether a ticket for this push is out.
fn is_out(ver: u64, lease: u64, works: &[Work]) -> bool
    ensures { result ≡ is_out_push works.now ver lease }
{
    works.iter().any(|work| is_push(work, ver, lease))
}

/// Whether the work is the push of this version to this lease.
fn is_push(work: &Work, ver: u64, lease: u64) -> bool
    ensures { result ≡ is_push_work ver lease work.now }
{
    match work {
        Work::Push { ver: v, lease: n } => ver == *v && lease == *n,
        _ => false,
    }
}
