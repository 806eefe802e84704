// Connections that are polled: a call moves some bytes, or says why it moves none, and never waits.
ghost use Rattle.std.specs.Prelude.{◌<◌, ℕ, List, Option, length};
ghost use Rattle.ws_link.specs.Links.{LinkContent, Moves, Sends, Takes, HasStepCause};
ghost use Rattle.ws_link.specs.declared.links.LinkCounts.{LinkCounts};
ghost use Rattle.ws_link.specs.declared.links.Step.{Step};

/// What one poll of a link came to.
#[derive(Clone, Copy, Debug, PartialEq, Eq)]
pub enum Step {
    /// So many bytes moved, at least one.
    Took(usize),
    /// The peer gives no more bytes.
    End,
    /// Nothing can move yet.
    NotYet,
    /// The link failed.
    Failed,
}

/// How often a link failed, had nothing to move yet, and was polled. Each count stops at 2^64 - 1.
#[derive(Clone, Copy, Debug, PartialEq, Eq)]
pub struct LinkCounts {
    pub faults: u64,
    pub waits: u64,
    pub asks: u64,
}

/// One connection to a peer. It is polled, and never waits for long.
///
/// A call that fails or answers NotYet changes nothing but the counts.
pub trait Link {
    /// What it gave and was sent, where it tells.
    ghost content: { Self → Option LinkContent };

    /// How often it failed, answered NotYet, and was polled.
    ghost counts: { Self → LinkCounts };

    /// What more is known of the step of a poll to send bytes, and of the link after it.
    ghost send_gives: { Self → List ℕ → Step → Self → Type 0 };

    /// What more is known of the step of a poll to take, of the bytes in the slice after it, and of
    /// the link after it.
    ghost take_gives: { Self → Step → List ℕ → Self → Type 0 };

    /// Sends bytes from the front, and answers how many. It never answers End.
    fn poll_send(&mut self, bytes: &[u8]) -> Step
        requires { 0 < length bytes.now }
        ensures count { Moves (length bytes.now) result }
        ensures sends { Sends (content self.old) (content self.new) bytes.now result }
        ensures gives { send_gives self.old bytes.now result self.new }
        ensures cause { HasStepCause (counts self.old) (counts self.new) result };

    /// Takes bytes that came from the peer, and answers how many, or End where no more come.
    fn poll_take(&mut self, into: &mut [u8]) -> Step
        requires { 0 < length into.old }
        ensures count { Moves (length into.old) result }
        ensures takes { Takes (content self.old) (content self.new) into.new result }
        ensures gives { take_gives self.old result into.new self.new }
        ensures cause { HasStepCause (counts self.old) (counts self.new) result };
}

impl LinkCounts {
    ghost use Rattle.std.specs.Prelude.{◌≡◌};
    ghost use Rattle.ws_link.specs.Links.{no_counts, raised, added_counts};

    /// The counts of a link that wasn't polled yet.
    pub fn none() -> LinkCounts
        ensures { result ≡ no_counts }
    {
        LinkCounts {
            faults: 0,
            waits: 0,
            asks: 0,
        }
    }

    /// Counts a poll.
    pub fn ask(&mut self)
        ensures { self.new ≡ record self.old { asks = raised self.old.asks 1 } }
    {
        self.asks = self.asks.saturating_add(1);
    }

    /// Counts a NotYet.
    pub fn wait(&mut self)
        ensures { self.new ≡ record self.old { waits = raised self.old.waits 1 } }
    {
        self.waits = self.waits.saturating_add(1);
    }

    /// Counts a failure.
    pub fn fail(&mut self)
        ensures { self.new ≡ record self.old { faults = raised self.old.faults 1 } }
    {
        self.faults = self.faults.saturating_add(1);
    }

    /// Adds the counts of another link.
    pub fn add(&mut self, more: LinkCounts)
        ensures { self.new ≡ added_counts self.old more }
    {
        self.faults = self.faults.saturating_add(more.faults);
        self.waits = self.waits.saturating_add(more.waits);
        self.asks = self.asks.saturating_add(more.asks);
    }
}
