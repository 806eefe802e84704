// The own link of a fetched content.
ghost use Rattle.std.specs.Prelude.{◌≡◌, ◌||◌, ◌==◌, List, IfOk, MatchOption, unwrap_or};
ghost use Rattle.std.specs.Char.{is_ascii_control};
ghost use Rattle.std.specs.List.{list_any};
ghost use Rattle.std.specs.Option.{option_copied};
ghost use Rattle.ws_linkhdr.specs.declared.item.LinkItem.{LinkItem};
ghost use Rattle.ws_linkhdr.specs.Grammar.{LinkField};
ghost use Rattle.ws_ownlink.specs.OwnLink.{is_fit_link, only_one, led_to, self_link, IsOwnLink};

use std::alloc::Global;
use ws_linkhdr::{LinkFault, LinkItem, read_links, rel_targets};
use ws_model::{Bytes, Key, NoMemory};
use ws_target::{TargetFault, join};

/// The greatest length of a link, in bytes.
const TEXT_LIMIT: usize = 900_000;

/// Whether no link in a Link field has the byte.
fn is_barred(byte: u8) -> bool
    ensures { result ≡ (is_ascii_control byte || (byte == 62)) }
{
    byte.is_ascii_control() || byte == b'>'
}

fn has_barred(text: &[u8]) -> bool
    ensures { result ≡ list_any (λ c. is_ascii_control c || (c == 62)) text.now }
{
    text.iter().any(|b| is_barred(*b))
}

/// Whether a Link field can carry the text.
fn is_fit_link(link: &[u8]) -> bool
    ensures { result ≡ is_fit_link link.now }
{
    link.len() <= TEXT_LIMIT && !has_barred(link)
}

/// The links of the fields, where they are in the grammar.
fn links_of(alloc: Global, field: &[u8]) -> Result<Option<Vec<LinkItem>>, NoMemory>
    ensures { IfOk result (λ o. MatchOption o ((items : List LinkItem) → ¬ LinkField field.now items) (λ v. LinkField field.now v.items)) }
{
    match read_links(alloc, field) {
        Ok(items) => Ok(Some(items)),
        Err(LinkFault::Grammar { .. }) => Ok(None),
        Err(LinkFault::NoMemory) => Err(NoMemory),
    }
}

/// The only one of some targets.
fn only_one(targets: &[Bytes]) -> Option<&Bytes>
    ensures { option_copied result ≡ only_one targets.now }
{
    match targets {
        [target] => Some(target),
        _ => None,
    }
}

/// What a target leads to from the topic, where a Link field can carry it.
fn led_to(alloc: Global, topic: &Key, target: &[u8]) -> Result<Option<Bytes>, NoMemory>
    ensures { IfOk result (λ o. o ≡ led_to topic.now target.now) }
{
    match join(alloc, topic, target) {
        Ok(link) => Ok(Some(link).filter(|link| is_fit_link(link.as_slice()))),
        Err(TargetFault::NoMemory) => Err(NoMemory),
        Err(_) => Ok(None),
    }
}

/// What the one unanchored link with the relation `self` leads to from the topic.
fn self_link(alloc: Global, topic: &Key, items: &[LinkItem]) -> Result<Option<Bytes>, NoMemory>
    ensures { IfOk result (λ o. o ≡ self_link topic.now items.now) }
{
    let targets = rel_targets(alloc, items, b"self")?;
    match only_one(&targets) {
        Some(target) => led_to(alloc, topic, target.as_slice()),
        None => Ok(None),
    }
}

/// The self link of the links, or else the topic.
fn link_or_topic(alloc: Global, topic: &Key, items: &[LinkItem]) -> Result<Bytes, NoMemory>
    ensures { IfOk result (λ link. link ≡ unwrap_or (self_link topic.now items.now) topic.now) }
{
    match self_link(alloc, topic, items)? {
        Some(link) => Ok(link),
        None => Bytes::copy(alloc, topic.as_slice()),
    }
}

/// The own link of a content that was fetched from a topic, by the Link fields that came with it
/// (joined by commas).
///
/// It is the target of the one unanchored link with the relation `self`, resolved against the topic and
/// without fragment. It is the topic's key where there isn't exactly one, where the fields leave the grammar
/// (RFC 8288, section 3), where the target leads to no URL, or where the URL has a `>`, a control byte or
/// more than 900,000 bytes.
pub fn own_link(alloc: Global, topic: &Key, field: &[u8]) -> Result<Bytes, NoMemory>
    ensures link { IfOk result (λ link. IsOwnLink topic.now field.now link) }
{
    match links_of(alloc, field)? {
        Some(items) => link_or_topic(alloc, topic, &items),
        None => Bytes::copy(alloc, topic.as_slice()),
    }
}
