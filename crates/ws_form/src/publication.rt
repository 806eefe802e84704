// What a publisher's form asks for.
ghost use Rattle.std.specs.Prelude.{◌≡◌, ◌≤◌, length, IfOk};
ghost use Rattle.std.specs.List.{All};
ghost use Rattle.ws_form.specs.Answers.{Gives, IsShortKey, IsSound};
ghost use Rattle.ws_form.specs.Form.{topic_keys, publication_in};

use crate::fields::topic_fields;
use crate::named::topic_key;
use crate::{Ask, AskFault};
use std::alloc::Global;
use ws_model::{Bytes, Keys};

// The most topics that a publisher may tell.
const MAX_TOPICS: usize = 16;

// The keys of the topics, or the fault of the first that has none.
fn topic_keys(alloc: Global, texts: &[Bytes], gateway: bool) -> Result<Keys, AskFault>
    ensures value { Gives (topic_keys gateway texts.now) result }
    ensures keys { IfOk result (All IsShortKey) }
    ensures count { IfOk result (λ keys. length keys ≡ length texts.now) }
{
    let mut keys = Keys::empty(alloc);
    for text in texts {
        keys.push(topic_key(alloc, text.as_slice(), gateway)?)?;
    }
    Ok(keys)
}

/// The topics that a publisher tells: `UrlMissing`, `TooManyUrls`, or the fault of the first that
/// has no key.
#[tactic(auto, unfolding(crate::specs::Form::publication_in))]
pub fn publication(alloc: Global, body: &[u8], gateway: bool) -> Result<Ask, AskFault>
    ensures value { Gives (publication_in gateway body.now) result }
    ensures sound { IfOk result IsSound }
{
    let texts = topic_fields(alloc, body)?;
    if texts.is_empty() {
        return Err(AskFault::UrlMissing);
    }
    if texts.len() > MAX_TOPICS {
        return Err(AskFault::TooManyUrls);
    }
    let topics = topic_keys(alloc, &texts, gateway)?;
    Ok(Ask::Publish { topics })
}
