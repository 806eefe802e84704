// Reads a request up to its answer, or to its form.
ghost use Rattle.std.specs.Prelude.{◌≡◌, ◌≢◌, ℕ, Bool, true, List, Option, take, IsErrOf};
ghost use Rattle.std.specs.Io.KnownBytes.{Consumes, Appends};
ghost use Rattle.httparse.specs.Grammar.{RequestHead, ReadsRequest};
ghost use Rattle.ws_http.specs.declared.fed.Fed.TheVariants.{More, Head};
ghost use Rattle.ws_http.specs.Requests.{Tells, is_headed};
ghost use Rattle.ws_http.specs.RequestStages.{verdict, fresh};
ghost use Rattle.ws_target.specs.Requests.{path_and_query, place_of};
ghost use Rattle.ws_front.specs.Rules.{by_verdict, awaits};
ghost use Rattle.ws_front.specs.Answers.{interim_line};
ghost use Rattle.ws_front.specs.Reading.{HasReadCause};
ghost use Rattle.ws_front.specs.declared.read.Stop.TheVariants as stop;
ghost use Rattle.ws_front.specs.Requesting.{RulingIs, GivesLine, HasSaid, Passes, Requests, HasSinkCause, HasStopCause};

use crate::give::give_all;
use crate::head::head_refusal;
use crate::read::{Stop, read_on};
use crate::refusal::Refusal;
use ws_http::{Fed, RequestReader};
use ws_link::{Sink, Source};

/// What a request's message is.
#[derive(Clone, Copy, Debug, PartialEq, Eq)]
pub enum Message {
    /// It is refused.
    Refused(Refusal),
    /// It is whole, and its body is to be read as a form.
    Form,
}

const CONTINUE: &[u8] = b"HTTP/1.1 100 Continue\r\n\r\n";

// What the message is by what its reader said.
fn message_of(reader: &RequestReader, fed: Fed) -> Message
    requires tells { Tells fed (verdict reader.now) }
    requires said { fed ≢ More }
    requires body { fed ≢ Head }
    ensures { RulingIs result (verdict reader.now) (by_verdict (verdict reader.now)) }
{
    match fed {
        Fed::Whole { .. } => Message::Form,
        Fed::Bad { why } => Message::Refused(Refusal::of(why)),
        Fed::More => unreachable!(),
        Fed::Head => unreachable!(),
        Fed::NoMemory => unreachable!(),
    }
}

// Writes the interim line where the sender waits for it.
fn ask_for_body<K: Sink>(sink: &mut K, reader: &RequestReader) -> Result<(), Stop>
    requires { is_headed (verdict reader.now) ≡ true }
    ensures line { (h : RequestHead) (rest : List ℕ) → ReadsRequest (take 16384 reader.now.bytes) h rest
        → GivesLine (awaits h) (K.written sink.old) (K.written sink.new) result }
    ensures cause { HasSinkCause (K.faults sink.old) (K.faults sink.new) result }
{
    if reader.expects() {
        give_all(sink, CONTINUE)?;
    }
    Ok(())
}

// Reads the body, where the message isn't whole yet.
fn read_body<S: Source>(
    source: &mut S,
    reader: &mut RequestReader,
    fed: Fed,
) -> Result<Message, Stop>
    requires { HasSaid reader.old fed }
    ensures requests { (hub bytes : List ℕ) (due : Bool) (left written written' : Option (List ℕ)) → Passes hub bytes due reader.old
        → Consumes left (S.left source.old) bytes → Appends written written' (interim_line due)
        → Requests hub left (S.left source.new) written written' (verdict reader.new) result }
    ensures cause { HasReadCause (S.faults source.old) (S.faults source.new) result }
    ensures unwritten { IsErrOf result stop.WriteFault → ⊥ }
{
    match fed {
        Fed::Head => {
            let last = read_on(source, reader)?;
            Ok(message_of(reader, last))
        }
        _ => Ok(message_of(reader, fed)),
    }
}

/// Reads a request of the hub with this URL and this path and query. A refusal that its head shows comes before all
/// that its body shows. Where the sender waits for it, the interim line is written before the body is read on (RFC 9110,
/// section 10.1.1).
pub fn read_request<S: Source, K: Sink>(
    hub: &[u8],
    path: &[u8],
    source: &mut S,
    sink: &mut K,
    reader: &mut RequestReader,
) -> Result<Message, Stop>
    requires own { path.now ≡ path_and_query (place_of hub.now) }
    requires fresh { reader.old ≡ fresh 16384 }
    ensures requests { Requests hub.now (S.left source.old) (S.left source.new) (K.written sink.old) (K.written sink.new) (verdict reader.new) result }
    ensures causes { HasStopCause (S.faults source.old) (S.faults source.new) (K.faults sink.old) (K.faults sink.new) result }
{
    let fed = read_on(source, reader)?;
    if !reader.headed() {
        return Ok(message_of(reader, fed));
    }
    if let Some(refusal) = head_refusal(hub, path, reader) {
        return Ok(Message::Refused(refusal));
    }
    ask_for_body(sink, reader)?;
    read_body(source, reader, fed)
}
