// The answer to a message, for which the desk may be asked.
ghost use Rattle.std.specs.Prelude.{◌≡◌, ◌≤◌, [], vec_len};
ghost use Rattle.std.specs.Vec.{vec_capacity};
ghost use Rattle.ws_form.specs.Answers.{IsSound};
ghost use Rattle.ws_http.specs.RequestStages.{verdict};
ghost use Rattle.ws_front.specs.Rules.{Ruling, form};
ghost use Rattle.ws_front.specs.Answers.{IsAnswer, Gives, accepted as accepted_response, storage_fault, desk_response};
ghost use Rattle.ws_front.specs.Connection.{Hears};
ghost use Rattle.ws_front.specs.Requesting.{RulingIs};
ghost use Rattle.ws_front.specs.Responding.{RespondsToAsk, Responds, RefusesForm, HasForm};

use crate::answer::Answer;
use crate::full::{ANSWER_ROOM, TEXT_ROOM, full_answer};
use crate::message::Message;
use std::alloc::Global;
use ws_form::{Ask, AskFault, read_ask};
use ws_http::RequestReader;
use ws_model::NoMemory;
use ws_port::{DeskFault, Port, Told};

// The answer by what the desk said, of those that were made before, or in the room that was found before.
fn answer_of(
    said: Result<Told, DeskFault>,
    accepted: Answer,
    failed: Answer,
    text: Vec<u8>,
    full: Vec<u8>,
) -> Result<Answer, NoMemory>
    requires accepted { IsAnswer accepted_response accepted.code accepted.bytes }
    requires failed { IsAnswer storage_fault failed.code failed.bytes }
    requires text_empty { text.items ≡ [] }
    requires text_fresh { vec_len text ≡ 0 }
    requires text_room { TEXT_ROOM ≤ vec_capacity text }
    requires full_empty { full.items ≡ [] }
    requires full_fresh { vec_len full ≡ 0 }
    requires full_room { ANSWER_ROOM ≤ vec_capacity full }
    ensures { Gives (desk_response said) result }
{
    match said {
        Ok(_) => Ok(accepted),
        Err(DeskFault::Disk) => Ok(failed),
        Err(
            DeskFault::Full {
                kind,
                held,
                limit,
                ..
            },
        ) => Ok(Answer {
            code: 503,
            bytes: full_answer(text, full, kind, held, limit),
        }),
        Err(DeskFault::NoMemory) => Err(NoMemory),
    }
}

// Asks the desk. Memory for its answer is found before, so that the answer is always what it said.
fn ask_desk<P: Port>(alloc: Global, port: &mut P, now: u64, ask: &Ask) -> Result<Answer, NoMemory>
    requires { IsSound ask.now }
    ensures responds { RespondsToAsk ask.now (Hears P.sole P.stored P.seen P.settings P.moment P.faults now port.old port.new) result }
    ensures settings { P.settings port.new ≡ P.settings port.old }
    ensures tickets { P.tickets port.new ≡ P.tickets port.old }
{
    let accepted = Answer::made(alloc, 202, b"accepted")?;
    let failed = Answer::made(alloc, 500, b"storage fault")?;
    let text = Vec::with_capacity(alloc, TEXT_ROOM)?;
    let full = Vec::with_capacity(alloc, ANSWER_ROOM)?;
    let said = port.ask(now, ask);
    answer_of(said, accepted, failed, text, full)
}

// The answer to a form with a fault.
fn refuse_form(alloc: Global, fault: AskFault) -> Result<Answer, NoMemory>
    ensures { RefusesForm fault result }
{
    match fault {
        AskFault::NoMemory => Err(NoMemory),
        _ => Answer::made(alloc, 400, fault.text().as_bytes()),
    }
}

// The answer to a form.
fn respond_to_form<P: Port>(
    alloc: Global,
    port: &mut P,
    gateway: bool,
    now: u64,
    body: &[u8],
) -> Result<Answer, NoMemory>
    ensures responds { Responds gateway (form body.now) (Hears P.sole P.stored P.seen P.settings P.moment P.faults now port.old port.new) result }
    ensures settings { P.settings port.new ≡ P.settings port.old }
    ensures tickets { P.tickets port.new ≡ P.tickets port.old }
{
    match read_ask(alloc, body, gateway) {
        Ok(ask) => ask_desk(alloc, port, now, &ask),
        Err(fault) => refuse_form(alloc, fault),
    }
}

/// The answer to a message that was read. Without memory for it there is none, and the answer is 507.
pub fn respond<P: Port>(
    alloc: Global,
    port: &mut P,
    gateway: bool,
    now: u64,
    reader: &RequestReader,
    message: Message,
) -> Result<Answer, NoMemory>
    requires { HasForm message (verdict reader.now) }
    ensures responds { (ruling : Ruling) → RulingIs message (verdict reader.now) ruling
        → Responds gateway ruling (Hears P.sole P.stored P.seen P.settings P.moment P.faults now port.old port.new) result }
    ensures settings { P.settings port.new ≡ P.settings port.old }
    ensures tickets { P.tickets port.new ≡ P.tickets port.old }
{
    match message {
        Message::Refused(refusal) => Answer::of_refusal(alloc, refusal),
        Message::Form => respond_to_form(alloc, port, gateway, now, reader.body()),
    }
}
