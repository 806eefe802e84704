// The values of settings.
ghost use Rattle.std.specs.Prelude.{◌≡◌, IfOk, IfSome, true};
ghost use Rattle.std.specs.List.{list_all};
ghost use Rattle.ws_model.specs.Key.{is_key};
ghost use Rattle.ws_program.specs.Values.{hub_key, alg_of, is_host_byte, is_host, is_number, port_of, host_part, port_part, address_of, is_allowed_prefix};

use std::alloc::Global;
use ws_model::{Alg, Bytes, Key, NoMemory, are_digits, number_within};
use ws_target::{TargetFault, topic};

// The longest host and the longest prefix, in bytes.
const MAX_HOST: usize = 255;

const MAX_PREFIX: usize = 2_048;

const MAX_PORT: u64 = 65_535;

/// The key of a hub's URL, which may have the scheme https.
#[tactic(auto, unfolding(crate::specs::Values::hub_key))]
pub fn hub_key(alloc: Global, text: &str) -> Result<Option<Key>, NoMemory>
    ensures value { IfOk result (λ key. key ≡ hub_key text.now) }
    ensures key { IfOk result (λ key. IfSome key (λ k. is_key k ≡ true)) }
{
    match topic(alloc, text.as_bytes(), true) {
        Ok(key) => Ok(Some(key)),
        Err(TargetFault::NoMemory) => Err(NoMemory),
        Err(_) => Ok(None),
    }
}

/// The hash of a word.
pub fn alg_of(text: &str) -> Option<Alg>
    ensures { result ≡ alg_of text.now }
{
    if text == "sha1" {
        Some(Alg::Sha1)
    } else if text == "sha256" {
        Some(Alg::Sha256)
    } else if text == "sha384" {
        Some(Alg::Sha384)
    } else if text == "sha512" {
        Some(Alg::Sha512)
    } else {
        None
    }
}

fn is_host_byte(byte: u8) -> bool
    ensures { result ≡ is_host_byte byte }
{
    byte != b' ' && !byte.is_ascii_control()
}

fn are_host_bytes(host: &[u8]) -> bool
    ensures { result ≡ list_all is_host_byte host.now }
{
    host.iter().all(|byte| is_host_byte(*byte))
}

fn is_host(host: &[u8]) -> bool
    ensures { result ≡ is_host host.now }
{
    !host.is_empty() && host.len() <= MAX_HOST && are_host_bytes(host)
}

fn is_number(text: &[u8]) -> bool
    ensures { result ≡ is_number text.now }
{
    let [first, ..] = text else {
        return false;
    };
    *first != b'0' && are_digits(text)
}

#[tactic(auto, unfolding(crate::specs::Values::port_of))]
fn port_of(text: &[u8]) -> Option<u16>
    ensures { result ≡ port_of text.now }
{
    let number = number_within(text, MAX_PORT + 1);
    if is_number(text) && number <= MAX_PORT {
        Some(number as u16)
    } else {
        None
    }
}

// The parts of an address.
fn parts(text: &str) -> (&str, &str)
    ensures host { result.0.now ≡ host_part text.now }
    ensures port { result.1.now ≡ port_part text.now }
{
    match text.split_once(':') {
        Some((host, port)) => (host, port),
        None => (text, ""),
    }
}

/// The host and the port of `HOST:PORT`.
#[tactic(auto, unfolding(crate::specs::Values::address_of))]
pub fn address_of(alloc: Global, text: &str) -> Result<Option<(Bytes, u16)>, NoMemory>
    ensures { IfOk result (λ at. at ≡ address_of text.now) }
{
    let (host, port) = parts(text);
    if !is_host(host.as_bytes()) {
        return Ok(None);
    }
    match port_of(port.as_bytes()) {
        Some(port) => Ok(Some((Bytes::copy(alloc, host.as_bytes())?, port))),
        None => Ok(None),
    }
}

/// Whether the text may be one that keys of topics begin with.
pub fn is_allowed_prefix(text: &str) -> bool
    ensures { result ≡ is_allowed_prefix text.now }
{
    !text.is_empty() && text.len() <= MAX_PREFIX
}
