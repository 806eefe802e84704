ghost use Rattle.std.specs.Prelude.{◌≡◌, true, false, IfOk};
ghost use Rattle.url.specs.Parts.{has_credentials};
ghost use Rattle.ws_model.specs.Key.{is_key, is_web_scheme};
ghost use Rattle.ws_target.specs.Requests.{place_of, path_and_query, with_query, host_field, origin_of, request_target};

use crate::Place;
use crate::address::url_of_key;
use crate::form::form_of;
use std::alloc::Global;
use url::{Position, Url};
use ws_model::{Bytes, Key, NoMemory, Pair};

const HTTP_PORT: u16 = 80;

const HTTPS_PORT: u16 = 443;

/// The place of a key.
#[tactic(auto, unfolding(crate::specs::Requests::place_of))]
pub fn place(alloc: Global, key: &Key) -> Result<Place, NoMemory>
    requires { is_key key.now ≡ true }
    ensures { IfOk result (λ place. place ≡ place_of key.now) }
{
    let url = url_of_key(alloc, key)?;
    let secure = url.scheme() == "https";
    let default = if secure { HTTPS_PORT } else { HTTP_PORT };
    let host = url.slice(Position::BeforeHost, Position::AfterHost);
    Ok(Place {
        secure,
        host: Bytes::copy(alloc, host.as_bytes())?,
        port: url.port().unwrap_or(default),
        path: Bytes::copy(alloc, url.path().as_bytes())?,
        query: Bytes::copy(alloc, url.query().unwrap_or("").as_bytes())?,
    })
}

/// The place's path, and `?` and its query where that isn't empty: the target of a request that
/// adds nothing (origin-form, RFC 9112, section 3.2.1).
pub fn path_and_query(alloc: Global, place: &Place) -> Result<Bytes, NoMemory>
    ensures { IfOk result (λ text. text ≡ path_and_query place.now) }
{
    let query = place.query.as_slice();
    let mut text = place.path.as_slice().to_vec(alloc)?;
    if !query.is_empty() {
        text.push(b'?')?;
        text.extend_from_slice(query)?;
    }
    Ok(Bytes::from_vec(text))
}

/// The place's path, `?`, its own query and `&` where that query isn't empty, then the pairs as a
/// form (URL Standard, section 5.2).
pub fn with_query(alloc: Global, place: &Place, pairs: &[Pair]) -> Result<Bytes, NoMemory>
    ensures { IfOk result (λ text. text ≡ with_query place.now pairs.now) }
{
    let own_query = place.query.as_slice();
    let mut text = place.path.as_slice().to_vec(alloc)?;
    text.push(b'?')?;
    if !own_query.is_empty() {
        text.extend_from_slice(own_query)?;
        text.push(b'&')?;
    }
    text.extend_from_slice(form_of(alloc, pairs)?.as_slice())?;
    Ok(Bytes::from_vec(text))
}

/// The value of the field Host in a request for a key: its host, and `:` and its port where the URL
/// has one after serialization (RFC 9110, section 7.2).
#[tactic(auto, unfolding(crate::specs::Requests::host_field))]
pub fn host_field(alloc: Global, key: &Key) -> Result<Bytes, NoMemory>
    requires { is_key key.now ≡ true }
    ensures { IfOk result (λ text. text ≡ host_field key.now) }
{
    let url = url_of_key(alloc, key)?;
    let text = url.slice(Position::BeforeHost, Position::AfterPort);
    Bytes::copy(alloc, text.as_bytes())
}

/// The target of a request for a key: the given one, and with the gateway that one behind the
/// scheme, `://`, host and port of the key (absolute-form, RFC 9112, section 3.2.2).
#[tactic(auto, unfolding(crate::specs::Requests::request_target))]
pub fn request_target(
    alloc: Global,
    key: &Key,
    target: &Bytes,
    gateway: bool,
) -> Result<Bytes, NoMemory>
    requires { is_key key.now ≡ true }
    ensures { IfOk result (λ text. text ≡ request_target gateway key.now target.now) }
{
    if !gateway {
        return Bytes::copy(alloc, target.as_slice());
    }
    let url = url_of_key(alloc, key)?;
    let mut text = origin(&url).as_bytes().to_vec(alloc)?;
    text.extend_from_slice(target.as_slice())?;
    Ok(Bytes::from_vec(text))
}

// The scheme, `://`, host and port of an http or https URL without user name and password.
#[tactic(auto, using(crate::proofs::KeyLemmas::origin_text))]
fn origin(url: &Url) -> &str
    requires web { is_web_scheme url.now.scheme ≡ true }
    requires bare { has_credentials url.now ≡ false }
    ensures { result.now ≡ origin_of url.now }
{
    url.slice(Position::BeforeScheme, Position::AfterPort)
}
