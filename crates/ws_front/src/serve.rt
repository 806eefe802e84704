// Serves one connection.
ghost use Rattle.std.specs.Prelude.{◌≡◌, IfOk, OnErr, true};
ghost use Rattle.ws_model.specs.Cause.{Rose};
ghost use Rattle.ws_model.specs.Key.{is_key};
ghost use Rattle.ws_http.specs.RequestStages.{verdict, fresh};
ghost use Rattle.ws_target.specs.Requests.{path_and_query, place_of};
ghost use Rattle.ws_front.specs.Rules.{Ruling};
ghost use Rattle.ws_front.specs.Answers.{Response, IsAnswer, Gives};
ghost use Rattle.ws_front.specs.Connection.{Serves, Hears, HasServedCause};
ghost use Rattle.ws_front.specs.Requesting.{RulingIs};
ghost use Rattle.ws_front.specs.Responding.{HasForm, Sends, Finishes, HasSendCause};

use crate::Served;
use crate::answer::Answer;
use crate::give::give_all;
use crate::message::{Message, read_request};
use crate::read::Stop;
use crate::respond::respond;
use std::alloc::Global;
use ws_http::{RequestReader, no_memory_answer};
use ws_link::{Sink, Source};
use ws_model::{Bytes, Key, NoMemory, Settings};
use ws_port::Port;
use ws_target::{path_and_query, place};

/// The path and query of the hub's URL.
pub fn own_path(alloc: Global, hub: &Key) -> Result<Bytes, NoMemory>
    requires { is_key hub.now ≡ true }
    ensures { IfOk result (λ path. path ≡ path_and_query (place_of hub.now)) }
{
    path_and_query(alloc, &place(alloc, hub)?)
}

// Writes a final answer with this code.
fn send<K: Sink>(sink: &mut K, code: u16, bytes: &[u8]) -> Served
    ensures sends { (r : Response) → IsAnswer r code bytes.now → Sends r (K.written sink.old) (K.written sink.new) result }
    ensures cause { HasSendCause (K.faults sink.old) (K.faults sink.new) result }
{
    match give_all(sink, bytes) {
        Ok(()) => Served::Answered { code },
        Err(_) => Served::WriteFault,
    }
}

// Writes the final answer, or where there was no memory for one the answer 507.
fn send_answer<K: Sink>(sink: &mut K, answer: Result<Answer, NoMemory>) -> Served
    ensures sends { (r : Response) → Gives r answer → Sends r (K.written sink.old) (K.written sink.new) result }
    ensures cause { HasSendCause (K.faults sink.old) (K.faults sink.new) result }
{
    match answer {
        Ok(answer) => send(sink, answer.code, answer.bytes.as_slice()),
        Err(NoMemory) => send(sink, 507, no_memory_answer()),
    }
}

// Answers a message.
fn finish<P: Port, K: Sink>(
    alloc: Global,
    port: &mut P,
    gateway: bool,
    sink: &mut K,
    now: u64,
    reader: &RequestReader,
    message: Message,
) -> Served
    requires { HasForm message (verdict reader.now) }
    ensures finishes { (ruling : Ruling) → RulingIs message (verdict reader.now) ruling
        → Finishes gateway ruling (Hears P.sole P.stored P.seen P.settings P.moment P.faults now port.old port.new) (K.written sink.old) (K.written sink.new) result }
    ensures cause { HasSendCause (K.faults sink.old) (K.faults sink.new) result }
    ensures settings { P.settings port.new ≡ P.settings port.old }
    ensures tickets { P.tickets port.new ≡ P.tickets port.old }
{
    let answer = respond(alloc, port, gateway, now, reader, message);
    send_answer(sink, answer)
}

// Serves a connection with a reader that has read nothing.
fn converse<P: Port, S: Source, K: Sink>(
    alloc: Global,
    port: &mut P,
    settings: &Settings,
    path: &[u8],
    source: &mut S,
    sink: &mut K,
    now: u64,
    reader: &mut RequestReader,
) -> Served
    requires own { path.now ≡ path_and_query (place_of settings.now.policy.hub) }
    requires fresh { reader.old ≡ fresh 16384 }
    ensures serves { Serves settings.now.policy (S.left source.old) (S.left source.new) (K.written sink.old) (K.written sink.new)
        (Hears P.sole P.stored P.seen P.settings P.moment P.faults now port.old port.new) result }
    ensures causes { HasServedCause (S.faults source.old) (S.faults source.new) (K.faults sink.old) (K.faults sink.new) (P.faults port.old) (P.faults port.new) result }
    ensures settings { P.settings port.new ≡ P.settings port.old }
    ensures tickets { P.tickets port.new ≡ P.tickets port.old }
{
    let policy = &settings.policy;
    match read_request(policy.hub.as_slice(), path, source, sink, reader) {
        Ok(message) => finish(alloc, port, policy.gateway, sink, now, reader, message),
        Err(Stop::Empty) => Served::Empty,
        Err(Stop::Cut) => Served::Cut,
        Err(Stop::ReadFault) => Served::ReadFault,
        Err(Stop::WriteFault) => Served::WriteFault,
    }
}

// Serves a connection, where there is memory to read with.
fn serve<P: Port, S: Source, K: Sink>(
    alloc: Global,
    port: &mut P,
    settings: &Settings,
    source: &mut S,
    sink: &mut K,
    now: u64,
) -> Result<Served, NoMemory>
    requires { is_key settings.now.policy.hub ≡ true }
    ensures serves { IfOk result (λ served. Serves settings.now.policy (S.left source.old) (S.left source.new) (K.written sink.old) (K.written sink.new)
        (Hears P.sole P.stored P.seen P.settings P.moment P.faults now port.old port.new) served) }
    ensures causes { IfOk result (λ served. HasServedCause (S.faults source.old) (S.faults source.new) (K.faults sink.old) (K.faults sink.new) (P.faults port.old) (P.faults port.new) served) }
    ensures settings { IfOk result (λ _. P.settings port.new ≡ P.settings port.old) }
    ensures tickets { IfOk result (λ _. P.tickets port.new ≡ P.tickets port.old) }
    ensures err { OnErr result ((port.new ≡ port.old) × (source.new ≡ source.old) × (sink.new ≡ sink.old)) }
{
    let path = own_path(alloc, &settings.policy.hub)?;
    let mut reader = RequestReader::made(alloc)?;
    Ok(converse(
        alloc,
        port,
        settings,
        path.as_slice(),
        source,
        sink,
        now,
        &mut reader,
    ))
}

/// Serves one connection: reads one request, asks the port for what its form asks for, and writes the answer.
///
/// The settings are those of the port. A refusal that the message's head or body shows is written as soon as the bytes
/// show it, and no more is read. Bytes behind the message aren't looked at. `now` is the clock's value in seconds.
///
/// # Errors
///
/// `Empty` and `Cut` come where the source ended before any byte, and inside the message, with no answer given. A fault comes only
/// where the source, or the sink, counts one. `NoMemory` comes before anything is read. Where memory is wanting later, the
/// answer is 507 `no memory`.
pub fn serve_connection<P: Port, S: Source, K: Sink>(
    alloc: Global,
    port: &mut P,
    settings: &Settings,
    source: &mut S,
    sink: &mut K,
    now: u64,
) -> Served
    requires settings { P.settings port.old ≡ settings.now }
    requires hub { is_key settings.now.policy.hub ≡ true }
    ensures serves { Serves settings.now.policy (S.left source.old) (S.left source.new) (K.written sink.old) (K.written sink.new)
        (Hears P.sole P.stored P.seen P.settings P.moment P.faults now port.old port.new) result }
    ensures causes { HasServedCause (S.faults source.old) (S.faults source.new) (K.faults sink.old) (K.faults sink.new) (P.faults port.old) (P.faults port.new) result }
    ensures settings { P.settings port.new ≡ P.settings port.old }
    ensures tickets { P.tickets port.new ≡ P.tickets port.old }
{
    match serve(alloc, port, settings, source, sink, now) {
        Ok(served) => served,
        Err(NoMemory) => Served::NoMemory,
    }
}
