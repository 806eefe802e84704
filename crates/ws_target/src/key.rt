ghost use Rattle.std.specs.Prelude.{◌≡◌, ◌≤◌, length, true, Ok, Err, IfOk};
ghost use Rattle.std.specs.List.{list_all};
ghost use Rattle.url.specs.Parts.{IsValid, has_credentials};
ghost use Rattle.ws_model.specs.Key.{is_key, is_key_byte, is_key_of, is_own_text};
ghost use Rattle.ws_target.specs.Keys.{KeyIsItsOwn, joined, is_served, key_or_fault};
ghost use Rattle.ws_target.specs.Answers.{Gives, GivesFound};

use crate::TargetFault;
use crate::address::{key_text, resolve, url_of};
use std::alloc::Global;
use url::Url;
use ws_model::{Key, NoMemory};

// The longest text that is taken, in bytes.
const MAX_TEXT: usize = 2_048;

// The longest key that is handed out, in bytes.
const MAX_KEY: usize = 900_000;

/// The key of a topic: the text of its URL without fragment.
///
/// The first of these is the answer, else the key: `TooLong` for more than 2,048 bytes, `NotUrl`,
/// `SchemeNotServed` for a scheme that is neither http nor, with the gateway, https, and `UserInfo`.
/// `NoMemory` comes for no text that is too long; it also stands for a URL that the crate `url`
/// calls too large, and for a key of more than 900,000 bytes.
pub fn topic(alloc: Global, text: &[u8], gateway: bool) -> Result<Key, TargetFault>
    ensures answer { Gives (key_or_fault gateway text.now) result }
    ensures length_first { result ≡ Err TargetFault.NoMemory → length text.now ≤ 2048 }
    ensures key { IfOk result (λ key. is_key key ≡ true) }
    ensures room { IfOk result (λ key. length key ≤ 900000) }
{
    key_of(alloc, text, gateway)
}

/// The key of a callback, with the same answers as [`topic`].
pub fn callback(alloc: Global, text: &[u8], gateway: bool) -> Result<Key, TargetFault>
    ensures answer { Gives (key_or_fault gateway text.now) result }
    ensures length_first { result ≡ Err TargetFault.NoMemory → length text.now ≤ 2048 }
    ensures key { IfOk result (λ key. is_key key ≡ true) }
    ensures room { IfOk result (λ key. length key ≤ 900000) }
{
    key_of(alloc, text, gateway)
}

#[tactic(auto, using(crate::proofs::KeyLemmas::served_is_web, crate::proofs::KeyLemmas::key_text_is_key), unfolding(crate::specs::Keys::key_or_fault))]
fn key_of(alloc: Global, text: &[u8], gateway: bool) -> Result<Key, TargetFault>
    ensures answer { Gives (key_or_fault gateway text.now) result }
    ensures length_first { result ≡ Err TargetFault.NoMemory → length text.now ≤ 2048 }
    ensures key { IfOk result (λ key. is_key key ≡ true) }
    ensures room { IfOk result (λ key. length key ≤ 900000) }
{
    if text.len() > MAX_TEXT {
        return Err(TargetFault::TooLong {
            len: text.len() as u64,
        });
    }
    let url = url_of(alloc, text)?.ok_or(TargetFault::NotUrl)?;
    if !is_served(url.scheme(), gateway) {
        return Err(TargetFault::SchemeNotServed);
    }
    if has_credentials(&url) {
        return Err(TargetFault::UserInfo);
    }
    let key = key_text(alloc, &url)?;
    if key.as_slice().len() > MAX_KEY {
        return Err(TargetFault::NoMemory);
    }
    Ok(key)
}

fn is_served(scheme: &str, gateway: bool) -> bool
    ensures { result ≡ is_served gateway scheme.now }
{
    scheme == "http" || gateway && scheme == "https"
}

fn has_credentials(url: &Url) -> bool
    ensures { result ≡ has_credentials url.now }
{
    !url.username().is_empty() || url.password().is_some()
}

/// Whether the bytes are a key: the text of an http or https URL without user name, password and
/// fragment that serializes to itself (URL Standard, sections 4.4 and 4.5). They may be of any length.
#[tactic(auto, using(crate::proofs::KeyLemmas::is_key_by_own_text))]
pub fn is_key(alloc: Global, text: &[u8]) -> Result<bool, NoMemory>
    ensures key { IfOk result (λ told. told ≡ is_key text.now) }
    ensures own_text { IfOk result (λ told. told ≡ is_own_text text.now) }
{
    is_own_text(alloc, text)
}

#[tactic(auto, using(crate::proofs::KeyLemmas::own_text_at_url, crate::proofs::KeyLemmas::own_text_not_url, crate::proofs::KeyLemmas::plain_by_url))]
fn is_own_text(alloc: Global, text: &[u8]) -> Result<bool, NoMemory>
    ensures value { IfOk result (λ told. told ≡ is_own_text text.now) }
    ensures plain { IfOk result (λ told. told ≡ true → list_all is_key_byte text.now ≡ true) }
{
    match url_of(alloc, text)? {
        Some(url) => Ok(is_key_of(&url, text)),
        None => Ok(false),
    }
}

// Whether this is the URL of a key with that text.
fn is_key_of(url: &Url, text: &[u8]) -> bool
    ensures value { result ≡ is_key_of text.now (Ok url.now) }
    ensures valid { IsValid url.now }
{
    is_served(url.scheme(), true)
        && !has_credentials(url)
        && url.fragment().is_none()
        && url.as_str().as_bytes() == text
}

/// Where a reference leads to from a base, without fragment (URL Standard, section 4.4).
///
/// The answer is `NotUrl` where the base or the reference isn't UTF-8 or isn't a URL, or `NoMemory`.
/// The URL may have any scheme, a user name and a password.
#[tactic(auto, unfolding(crate::specs::Keys::joined))]
pub fn join(alloc: Global, base: &Key, reference: &[u8]) -> Result<Key, TargetFault>
    ensures { GivesFound (joined base.now reference.now) result }
{
    let base = url_of(alloc, base.as_slice())?.ok_or(TargetFault::NotUrl)?;
    let target = resolve(&base, reference)?.ok_or(TargetFault::NotUrl)?;
    Ok(key_text(alloc, &target)?)
}

/// A key is its own key, where its scheme is served and it has at most 2,048 bytes.
pub fn key_is_its_own()
    ensures { KeyIsItsOwn }
{}
