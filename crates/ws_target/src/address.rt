// Bytes as URLs.
ghost use Rattle.std.specs.Prelude.{◌≡◌, Some, true, false, IfOk, MatchOption};
ghost use Rattle.std.specs.Str.{is_utf8};
ghost use Rattle.ws_model.specs.Key.{is_key};
ghost use Rattle.ws_target.specs.Address.{IsUrlOfKey, key_text, url_against, url_of};
ghost use Rattle.ws_target.specs.Answers.{Tells};

use std::alloc::Global;
use url::{ParseError, ParseResult, Position, Url};
use ws_model::{Bytes, Key, NoMemory};

// The bytes as text, where they are UTF-8.
fn text_of(bytes: &[u8]) -> Option<&str>
    ensures { MatchOption result (is_utf8 bytes.now ≡ false)
        (λ text. (text.now ≡ bytes.now) × (is_utf8 bytes.now ≡ true)) }
{
    match str::from_utf8(bytes) {
        Ok(text) => Some(text),
        Err(_) => None,
    }
}

// What the parser found. That a URL is too large for it counts as want of memory.
fn found(parsed: ParseResult<Url>) -> Result<Option<Url>, NoMemory>
    ensures { Tells parsed result }
{
    match parsed {
        Ok(url) => Ok(Some(url)),
        Err(ParseError::OutOfMemory | ParseError::Overflow) => Err(NoMemory),
        Err(_) => Ok(None),
    }
}

/// The URL whose text these bytes are.
#[tactic(auto, unfolding(crate::specs::Address::url_against))]
pub fn url_of(alloc: Global, bytes: &[u8]) -> Result<Option<Url>, NoMemory>
    ensures { IfOk result (λ url. url ≡ url_of bytes.now) }
{
    match text_of(bytes) {
        Some(text) => found(Url::parse(alloc, text)),
        None => Ok(None),
    }
}

/// The URL that these bytes lead to from a base.
#[tactic(auto, unfolding(crate::specs::Address::url_against))]
pub fn resolve(base: &Url, reference: &[u8]) -> Result<Option<Url>, NoMemory>
    ensures { IfOk result (λ url. url ≡ url_against (Some base.now) reference.now) }
{
    match text_of(reference) {
        Some(text) => found(base.join(text)),
        None => Ok(None),
    }
}

/// The URL of a key.
pub fn url_of_key(alloc: Global, key: &Key) -> Result<Url, NoMemory>
    requires { is_key key.now ≡ true }
    ensures { IfOk result (IsUrlOfKey key.now) }
{
    match url_of(alloc, key.as_slice())? {
        Some(url) => Ok(url),
        None => unreachable!(),
    }
}

/// The URL's text without its fragment.
pub fn key_text(alloc: Global, url: &Url) -> Result<Key, NoMemory>
    ensures { IfOk result (λ key. key ≡ key_text url.now) }
{
    let text = url.slice(Position::BeforeScheme, Position::AfterQuery);
    Bytes::copy(alloc, text.as_bytes())
}
