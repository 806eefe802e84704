// Plays a script to its end.
ghost use Rattle.std.specs.Prelude.{◌≡◌, [], false, true};
ghost use Rattle.ws_model.specs.Key.{is_key};
ghost use Rattle.ws_drive.specs.Runs.{Runs, StatusFor};
ghost use Rattle.ws_drive.specs.Standing.{IsWorld};
ghost use Rattle.ws_drive.specs.Steps.{Steps, StopsFor};
ghost use Rattle.ws_drive.specs.World.{World, start};
ghost use Rattle.ws_drive.specs.declared.play.Stop.TheVariants as stop;

use crate::happen::play;
use std::alloc::Global;
use ws_front::give_all;
use ws_link::{Sink, Source, Status, WriteFailed};
use ws_model::{NoMemory, Settings};
use ws_port::Port;
use ws_script::{Happening, ReadFault, take_happening};

/// How a step went: a happening was played, the script ended, or it leaves its grammar.
#[derive(Clone, Copy, Debug, PartialEq, Eq)]
pub enum Turn {
    Played,
    Ended,
    Left,
}

/// Why a step didn't end.
#[derive(Clone, Copy, Debug, PartialEq, Eq, thiserror::Error)]
pub enum Stop {
    #[error("read failed")]
    ReadFailed,
    #[error("write failed")]
    WriteFailed,
    #[error("no memory")]
    NoMemory,
}

impl From<ReadFault> for Stop {
    ghost use Rattle.std.specs.Prelude.{◌≡◌};
    ghost use Rattle.ws_drive.specs.Stop.{stop_of};

    ghost from_gives = { λ f s. s ≡ stop_of f };

    fn from(fault: ReadFault) -> Self {
        match fault {
            ReadFault::Failed => Stop::ReadFailed,
            ReadFault::NoMemory => Stop::NoMemory,
        }
    }
}

impl From<WriteFailed> for Stop {
    ghost use Rattle.std.specs.Prelude.{◌≡◌};

    ghost from_gives = { λ _ s. s ≡ stop.WriteFailed };

    fn from(_: WriteFailed) -> Self {
        Stop::WriteFailed
    }
}

impl From<NoMemory> for Stop {
    ghost use Rattle.std.specs.Prelude.{◌≡◌};

    ghost from_gives = { λ _ s. s ≡ stop.NoMemory };

    fn from(_: NoMemory) -> Self {
        Stop::NoMemory
    }
}

// The most happenings that a script has.
const MAX_HAPPENINGS: u64 = 1 << 40;

// Reads one happening, lets it happen, and writes what it writes.
fn step<P: Port, S: Source, K: Sink>(
    alloc: Global,
    settings: &Settings,
    port: &mut P,
    clock: &mut u64,
    source: &mut S,
    sink: &mut K,
) -> Result<Turn, Stop>
    requires sole { P.sole ≡ true }
    requires unstored { P.stored ≡ false }
    requires hub { is_key settings.now.policy.hub ≡ true }
    requires settings { P.settings port.old ≡ settings.now }
    ensures steps { (w : World) → IsWorld P.seen P.settings P.moment clock.old port.old w
        → Steps settings.now.policy.gateway (S.left source.old) (S.left source.new) (K.written sink.old) (K.written sink.new)
        w (IsWorld P.seen P.settings P.moment clock.new port.new) result }
    ensures causes { StopsFor (S.faults source.old) (S.faults source.new) (K.faults sink.old) (K.faults sink.new) result }
    ensures settings { P.settings port.new ≡ P.settings port.old }
{
    let Some(happening) = take_happening(alloc, source, settings.policy.gateway)? else {
        return Ok(Turn::Left);
    };
    if let Happening::End = happening {
        return Ok(Turn::Ended);
    }
    let output = play(alloc, settings, port, clock, &happening)?;
    give_all(sink, output.as_bytes())?;
    Ok(Turn::Played)
}

/// Plays the script of the source over a hub to which nothing has happened, and writes its transcript to the sink. The
/// settings are the hub's. The output of a happening is written before the next one is read, and nothing is read behind
/// `end`.
pub fn drive_over<P: Port, S: Source, K: Sink>(
    alloc: Global,
    settings: &Settings,
    port: &mut P,
    source: &mut S,
    sink: &mut K,
) -> Status
    requires sole { P.sole ≡ true }
    requires unstored { P.stored ≡ false }
    requires hub { is_key settings.now.policy.hub ≡ true }
    requires settings { P.settings port.old ≡ settings.now }
    requires fresh { P.seen port.old [] }
    requires unused { P.moment port.old ≡ 0 }
    ensures runs { Runs settings.now (S.left source.old) (S.left source.new) (K.written sink.old) (K.written sink.new) result }
    ensures causes { StatusFor (S.faults source.old) (S.faults source.new) (K.faults sink.old) (K.faults sink.new) result }
{
    let mut clock = 0;
    'steps: for i in 0..MAX_HAPPENINGS {
        match step(alloc, settings, port, &mut clock, source, sink) {
            Ok(Turn::Played) => {}
            Ok(Turn::Ended) => return Status::Ok,
            Ok(Turn::Left) => return Status::Script { line: i + 1 },
            Err(Stop::ReadFailed) => return Status::ReadFailed,
            Err(Stop::WriteFailed) => return Status::WriteFailed,
            Err(Stop::NoMemory) => return Status::NoMemory,
        }
    }
    Status::Script {
        line: MAX_HAPPENINGS + 1,
    }
}
