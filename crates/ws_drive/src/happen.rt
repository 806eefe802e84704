// What happenings do to a hub, and what they write.
ghost use Rattle.std.specs.Prelude.{◌≡◌, IfOk, false, string_bytes, true};
ghost use Rattle.std.specs.Cow.{cow_str_bytes};
ghost use Rattle.ws_model.specs.Key.{is_key};
ghost use Rattle.ws_drive.specs.Output.{output_bytes};
ghost use Rattle.ws_drive.specs.Standing.{IsWorld};
ghost use Rattle.ws_drive.specs.World.{World, Forms, Plays, Refuses, Revokes};
ghost use Rattle.ws_script.specs.declared.script.Happening.TheVariants as happens;

use crate::account_text::account_text;
use crate::connection::connect;
use crate::lines::{NO_MEMORY, answer_line, fault_line, revoke_line};
use crate::output::Output;
use std::alloc::Global;
use std::borrow::CowStr;
use ws_form::{AskFault, read_ask};
use ws_model::{Key, NoMemory, Settings};
use ws_port::Port;
use ws_script::Happening;

// The answer to a form's fault.
fn refuse(alloc: Global, fault: AskFault) -> CowStr<'static>
    ensures { Refuses fault (cow_str_bytes result) }
{
    if let AskFault::NoMemory = fault {
        return CowStr::Borrowed(NO_MEMORY);
    }
    match fault_line(alloc, fault) {
        Ok(line) => line,
        Err(NoMemory) => CowStr::Borrowed(NO_MEMORY),
    }
}

// Takes a form at the clock's value, and gives its answer.
fn form<P: Port>(
    alloc: Global,
    gateway: bool,
    port: &mut P,
    clock: u64,
    body: &[u8],
) -> Result<CowStr<'static>, NoMemory>
    requires sole { P.sole ≡ true }
    requires unstored { P.stored ≡ false }
    requires gateway { gateway ≡ (P.settings port.old).policy.gateway }
    ensures forms { (w : World) → IsWorld P.seen P.settings P.moment clock port.old w
        → IfOk result (λ line. (w' : World) × Forms w body.now (cow_str_bytes line) w' × IsWorld P.seen P.settings P.moment clock port.new w') }
    ensures settings { P.settings port.new ≡ P.settings port.old }
{
    match read_ask(alloc, body, gateway) {
        Ok(ask) => answer_line(alloc, port.ask(clock, &ask)),
        Err(fault) => Ok(refuse(alloc, fault)),
    }
}

// Revokes the lease of a topic and a callback at the clock's value.
fn revoke<P: Port>(
    alloc: Global,
    port: &mut P,
    clock: u64,
    topic: &Key,
    callback: &Key,
) -> Result<CowStr<'static>, NoMemory>
    requires sole { P.sole ≡ true }
    requires unstored { P.stored ≡ false }
    ensures revokes { (w : World) → IsWorld P.seen P.settings P.moment clock port.old w
        → IfOk result (λ line. (w' : World) × Revokes w topic.now callback.now (cow_str_bytes line) w' × IsWorld P.seen P.settings P.moment clock port.new w') }
    ensures settings { P.settings port.new ≡ P.settings port.old }
{
    let said = port.revoke(clock, topic, callback);
    revoke_line(alloc, said)
}

// The text of the account at the clock's value.
fn sum<P: Port>(alloc: Global, port: &mut P, clock: u64) -> Result<String, NoMemory>
    requires sole { P.sole ≡ true }
    ensures sums { (w : World) → IsWorld P.seen P.settings P.moment clock port.old w
        → IfOk result (λ text. (w' : World) × Plays w happens.Sum (string_bytes text) w' × IsWorld P.seen P.settings P.moment clock port.new w') }
    ensures settings { P.settings port.new ≡ P.settings port.old }
{
    let account = port.account(clock);
    account_text(alloc, &account)
}

/// Lets a happening happen to the hub, and gives what it writes. The clock is in seconds.
pub fn play<P: Port>(
    alloc: Global,
    settings: &Settings,
    port: &mut P,
    clock: &mut u64,
    happening: &Happening,
) -> Result<Output, NoMemory>
    requires sole { P.sole ≡ true }
    requires unstored { P.stored ≡ false }
    requires hub { is_key settings.now.policy.hub ≡ true }
    requires settings { P.settings port.old ≡ settings.now }
    ensures plays { (w : World) → IsWorld P.seen P.settings P.moment clock.old port.old w
        → IfOk result (λ output. (w' : World) × Plays w happening.now (output_bytes output) w' × IsWorld P.seen P.settings P.moment clock.new port.new w') }
    ensures settings { P.settings port.new ≡ P.settings port.old }
{
    match happening {
        Happening::At(t) => {
            *clock = *t;
            Ok(Output::Text(CowStr::Borrowed("")))
        }
        Happening::Form(body) => {
            let gateway = settings.policy.gateway;
            let line = form(alloc, gateway, port, *clock, body.as_slice())?;
            Ok(Output::Text(line))
        }
        Happening::In(bytes) => {
            let written = connect(alloc, settings, port, *clock, bytes.as_slice())?;
            Ok(Output::Connection(written))
        }
        Happening::Revoke { topic, callback } => {
            let line = revoke(alloc, port, *clock, &topic.key, &callback.key)?;
            Ok(Output::Text(line))
        }
        Happening::Sum => {
            let text = sum(alloc, port, *clock)?;
            Ok(Output::Text(CowStr::Owned(text)))
        }
        Happening::End => Ok(Output::Text(CowStr::Borrowed(""))),
    }
}
