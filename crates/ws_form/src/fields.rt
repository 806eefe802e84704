// The pairs of a form.
ghost use Rattle.std.specs.Prelude.{◌≡◌, IfOk};
ghost use Rattle.ws_form.specs.Form.{field, is_topic_name, topic_fields};

use std::alloc::Global;
use ws_model::{Bytes, NoMemory};

/// The value of the first pair of a name.
#[tactic(auto, unfolding(crate::specs::Form::field))]
pub fn field(alloc: Global, body: &[u8], name: &str) -> Result<Option<Bytes>, NoMemory>
    ensures { IfOk result (λ v. v ≡ field name.now body.now) }
{
    for pair in form_urlencoded::parse(alloc, body) {
        let (found, value) = pair?;
        if found.as_str() == name {
            return Ok(Some(Bytes::copy(alloc, value.as_bytes())?));
        }
    }
    Ok(None)
}

fn is_topic_name(name: &str) -> bool
    ensures { result ≡ is_topic_name name.now }
{
    name == "hub.url" || name == "hub.topic"
}

/// The values of all pairs of the two names for a topic, in their order.
#[tactic(auto, unfolding(crate::specs::Form::topic_fields))]
pub fn topic_fields(alloc: Global, body: &[u8]) -> Result<Vec<Bytes>, NoMemory>
    ensures { IfOk result (λ texts. texts.items ≡ topic_fields body.now) }
{
    let mut texts = Vec::new(alloc);
    for pair in form_urlencoded::parse(alloc, body) {
        let (name, value) = pair?;
        if is_topic_name(name.as_str()) {
            texts.push(Bytes::copy(alloc, value.as_bytes())?)?;
        }
    }
    Ok(texts)
}
