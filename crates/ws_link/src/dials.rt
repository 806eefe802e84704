// What connects to hosts, and takes the connections back.
ghost use Rattle.std.specs.Prelude.{◌≡◌, ◌<◌, ℕ, List, Option, length, IfOk, IfSome, OnErr, OnOk};
ghost use Rattle.ws_model.specs.Cause.{HasCause};
ghost use Rattle.ws_link.specs.Links.{IsUnused, added_counts};
ghost use Rattle.ws_link.specs.Dials.{DialContent, CanHangUp, after_dial, HangsUp};
ghost use Rattle.ws_link.specs.declared.links.LinkCounts.{LinkCounts};

use crate::Link;

/// No connection was made.
#[derive(Clone, Copy, Debug, PartialEq, Eq, thiserror::Error)]
#[error("dial failed")]
pub struct DialFailed;

/// What gives links to hosts.
pub trait Dial {
    /// The links that it gives.
    type Conn: Link;

    /// What was dialled and what was given back, where it tells.
    ghost content: { Self → Option DialContent };

    /// How often it gave no link.
    ghost faults: { Self → ℕ };

    /// The counts of all links given back, added up.
    ghost counts_back: { Self → LinkCounts };

    /// Gives a link to a host, which wasn't used yet. A call that fails dials nothing.
    fn dial(&mut self, host: &[u8], port: u16) -> Result<Self::Conn, DialFailed>
        ensures dialed { OnOk result (content self.new ≡ after_dial host.now port (content self.old)) }
        ensures unused { IfOk result (λ conn. IsUnused (Self.Conn.content conn) (Self.Conn.counts conn)) }
        ensures err { OnErr result (content self.new ≡ content self.old) }
        ensures back { counts_back self.new ≡ counts_back self.old }
        ensures cause { HasCause (faults self.old) (faults self.new) result };

    /// Takes a link back. Where it tells, fewer links were given back than dialled.
    fn hang_up(&mut self, conn: Self::Conn)
        requires { CanHangUp (content self.old) }
        ensures back { HangsUp (content self.old) (content self.new) (Self.Conn.content conn) }
        ensures counts { counts_back self.new ≡ added_counts (counts_back self.old) (Self.Conn.counts conn) }
        ensures faults { faults self.new ≡ faults self.old };
}
