// What a subscriber's form names: its topic, its callback and its secret.
ghost use Rattle.std.specs.Prelude.{◌≡◌, ◌≤◌, length, IfOk};
ghost use Rattle.ws_form.specs.Answers.{Gives, IsShort, IsShortKey};
ghost use Rattle.ws_form.specs.Form.{topic_key, callback_key, topic_in, callback_in, secret_in};

use crate::AskFault;
use crate::fault::{callback_fault, topic_fault};
use crate::fields::field;
use std::alloc::Global;
use ws_model::{Bytes, Key};

// The longest secret, in bytes.
const MAX_SECRET: usize = 199;

/// A topic's key, and the topic as it was written.
#[derive(Drop)]
pub struct AskedTopic {
    pub key: Key,
    pub echo: Bytes,
}

/// The key of a topic's text.
#[tactic(auto, unfolding(crate::specs::Form::topic_key))]
pub fn topic_key(alloc: Global, text: &[u8], gateway: bool) -> Result<Key, AskFault>
    ensures value { Gives (topic_key gateway text.now) result }
    ensures key { IfOk result IsShortKey }
    ensures text { IfOk result (λ key. IsShort text.now) }
{
    match ws_target::topic(alloc, text, gateway) {
        Ok(key) => Ok(key),
        Err(fault) => Err(topic_fault(fault)),
    }
}

#[tactic(auto, unfolding(crate::specs::Form::callback_key))]
fn callback_key(alloc: Global, text: &[u8], gateway: bool) -> Result<Key, AskFault>
    ensures value { Gives (callback_key gateway text.now) result }
    ensures key { IfOk result IsShortKey }
{
    match ws_target::callback(alloc, text, gateway) {
        Ok(key) => Ok(key),
        Err(fault) => Err(callback_fault(fault)),
    }
}

/// The topic of a form: `TopicMissing`, or its fault.
#[tactic(auto, unfolding(crate::specs::Form::topic_in))]
pub fn topic(alloc: Global, body: &[u8], gateway: bool) -> Result<AskedTopic, AskFault>
    ensures value { Gives (topic_in gateway body.now) result }
    ensures key { IfOk result (λ topic. IsShortKey topic.key) }
    ensures echo { IfOk result (λ topic. IsShort topic.echo) }
{
    let Some(echo) = field(alloc, body, "hub.topic")? else {
        return Err(AskFault::TopicMissing);
    };
    let key = topic_key(alloc, echo.as_slice(), gateway)?;
    Ok(AskedTopic { key, echo })
}

/// The callback of a form: `CallbackMissing`, or its fault.
#[tactic(auto, unfolding(crate::specs::Form::callback_in))]
pub fn callback(alloc: Global, body: &[u8], gateway: bool) -> Result<Key, AskFault>
    ensures value { Gives (callback_in gateway body.now) result }
    ensures key { IfOk result IsShortKey }
{
    let Some(text) = field(alloc, body, "hub.callback")? else {
        return Err(AskFault::CallbackMissing);
    };
    callback_key(alloc, text.as_slice(), gateway)
}

/// The secret of a form, empty where it has none, or `SecretLong`.
#[tactic(auto, unfolding(crate::specs::Form::secret_in))]
pub fn secret(alloc: Global, body: &[u8]) -> Result<Bytes, AskFault>
    ensures value { Gives (secret_in body.now) result }
    ensures short { IfOk result (λ secret. length secret ≤ 199) }
{
    let Some(text) = field(alloc, body, "hub.secret")? else {
        return Ok(Bytes::from_vec(Vec::new(alloc)));
    };
    if text.as_slice().len() > MAX_SECRET {
        return Err(AskFault::SecretLong);
    }
    Ok(text)
}
