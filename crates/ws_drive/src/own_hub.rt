// Plays a script over a hub of its own.
ghost use Rattle.std.specs.Prelude.{◌≡◌, IfOk, true};
ghost use Rattle.ws_model.specs.Key.{is_key};
ghost use Rattle.ws_drive.specs.Runs.{Runs, StatusFor};

use crate::play::drive_over;
use std::alloc::Global;
use ws_desk::Desk;
use ws_link::{Sink, Source, Status};
use ws_model::{Bytes, Keys, NoMemory, Policy, Settings};

// The same keys.
fn copy_keys(alloc: Global, keys: &[Bytes]) -> Result<Keys, NoMemory>
    ensures { IfOk result (λ copy. copy ≡ keys.now) }
{
    let mut copy = Keys::empty(alloc);
    for key in keys {
        copy.push(Bytes::copy(alloc, key.as_slice())?)?;
    }
    Ok(copy)
}

// The same address.
fn copy_gateway(
    alloc: Global,
    gateway: &Option<(Bytes, u16)>,
) -> Result<Option<(Bytes, u16)>, NoMemory>
    ensures { IfOk result (λ copy. copy ≡ gateway.now) }
{
    match gateway {
        Some((host, port)) => Ok(Some((Bytes::copy(alloc, host.as_slice())?, *port))),
        None => Ok(None),
    }
}

// The same settings.
fn copy_settings(alloc: Global, settings: &Settings) -> Result<Settings, NoMemory>
    ensures { IfOk result (λ copy. copy ≡ settings.now) }
{
    let policy = &settings.policy;
    Ok(Settings {
        policy: Policy {
            hub: Bytes::copy(alloc, policy.hub.as_slice())?,
            gateway: policy.gateway,
            allow: copy_keys(alloc, policy.allow.as_slice())?,
            alg: policy.alg,
        },
        gateway: copy_gateway(alloc, &settings.gateway)?,
    })
}

/// Plays the script of the source over a hub with these settings to which nothing has happened, and writes its
/// transcript to the sink. The output of a happening is written before the next one is read, and nothing is read
/// behind `end`.
pub fn drive<S: Source, K: Sink>(
    alloc: Global,
    source: &mut S,
    sink: &mut K,
    settings: &Settings,
) -> Status
    requires hub { is_key settings.now.policy.hub ≡ true }
    ensures runs { Runs settings.now (S.left source.old) (S.left source.new) (K.written sink.old) (K.written sink.new) result }
    ensures causes { StatusFor (S.faults source.old) (S.faults source.new) (K.faults sink.old) (K.faults sink.new) result }
{
    let Ok(copy) = copy_settings(alloc, settings) else {
        return Status::NoMemory;
    };
    let mut desk = Desk::start(alloc, copy);
    drive_over(alloc, settings, &mut desk, source, sink)
}
