// What a form asks for.
ghost use Rattle.std.specs.Prelude.{◌≡◌, IfOk};
ghost use Rattle.ws_form.specs.Answers.{Gives, IsSound};
ghost use Rattle.ws_form.specs.Form.{subscription_in, unsubscription_in, ask_of, ask_in};

use crate::fields::field;
use crate::lease::lease;
use crate::named::{callback, secret, topic};
use crate::publication::publication;
use crate::{Ask, AskFault};
use std::alloc::Global;

#[tactic(auto, unfolding(crate::specs::Form::subscription_in))]
fn subscription(alloc: Global, body: &[u8], gateway: bool) -> Result<Ask, AskFault>
    ensures value { Gives (subscription_in gateway body.now) result }
    ensures sound { IfOk result IsSound }
{
    let topic = topic(alloc, body, gateway)?;
    let callback = callback(alloc, body, gateway)?;
    let granted = lease(alloc, body)?;
    let secret = secret(alloc, body)?;
    Ok(Ask::Subscribe {
        topic: topic.key,
        echo: topic.echo,
        callback,
        secret,
        granted,
    })
}

#[tactic(auto, unfolding(crate::specs::Form::unsubscription_in))]
fn unsubscription(alloc: Global, body: &[u8], gateway: bool) -> Result<Ask, AskFault>
    ensures value { Gives (unsubscription_in gateway body.now) result }
    ensures sound { IfOk result IsSound }
{
    let topic = topic(alloc, body, gateway)?;
    let callback = callback(alloc, body, gateway)?;
    Ok(Ask::Unsubscribe {
        topic: topic.key,
        echo: topic.echo,
        callback,
    })
}

// What a form of that mode asks for.
fn ask_of(alloc: Global, mode: &[u8], body: &[u8], gateway: bool) -> Result<Ask, AskFault>
    ensures value { Gives (ask_of (Some mode.now) gateway body.now) result }
    ensures sound { IfOk result IsSound }
{
    if mode == b"subscribe".as_slice() {
        subscription(alloc, body, gateway)
    } else if mode == b"unsubscribe".as_slice() {
        unsubscription(alloc, body, gateway)
    } else if mode == b"publish".as_slice() {
        publication(alloc, body, gateway)
    } else {
        Err(AskFault::ModeUnknown)
    }
}

/// What a form body asks for, or its first fault in the order of [`AskFault`] (WebSub, sections 5.1
/// and 7). With a gateway URLs may have the scheme https. `NoMemory` may come at any point.
///
/// Names and values are read as in a web form (URL Standard, section 5.1), and pairs of other names
/// are ignored. Of a repeated name the first pair counts, but for the topics of a publisher: these
/// are all pairs named `hub.url` or `hub.topic`. An empty lease or secret counts as none.
#[tactic(auto, unfolding(crate::specs::Form::ask_in))]
pub fn read_ask(alloc: Global, body: &[u8], gateway: bool) -> Result<Ask, AskFault>
    ensures value { Gives (ask_in gateway body.now) result }
    ensures sound { IfOk result IsSound }
{
    let mode = field(alloc, body, "hub.mode")?.ok_or(AskFault::ModeMissing)?;
    ask_of(alloc, mode.as_slice(), body, gateway)
}
