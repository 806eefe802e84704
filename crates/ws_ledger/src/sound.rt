// The bounds of an event's own fields.
ghost use Rattle.std.specs.Prelude.{◌≡◌, ◌||◌, ◌==◌, IfOk};
ghost use Rattle.std.specs.Char.{is_ascii_control};
ghost use Rattle.std.specs.List.{list_any};
ghost use Rattle.ws_model.specs.Leases.{is_on};
ghost use Rattle.ws_model.specs.Legal.{is_blank, is_field_value, is_grant, is_key_text, is_link, is_media, is_sound, is_sound_intent, is_sound_tally, is_sound_version, is_text, is_trimmed};

use std::alloc::Global;
use ws_model::{Event, Intent, Mode, NoMemory, Tally, Version, What};
use ws_target::is_key;

/// A number of an event, an intent or a version stays below this.
const NUMBER_LIMIT: u64 = 9_223_372_036_854_775_808;

/// A time in seconds stays below this.
const TIME_LIMIT: u64 = 281_474_976_710_656;

/// The greatest length of a text that is no body, in bytes.
const TEXT_LIMIT: usize = 900_000;

/// The greatest length of a body, in bytes.
const BODY_LIMIT: usize = 4_194_304;

/// The greatest length of a secret, in bytes (WebSub, section 5.1).
const SECRET_LIMIT: usize = 199;

/// Whether the fields of an event are within their bounds: its numbers, its times, the lengths of its
/// texts, its keys, its media type and its link.
pub(crate) fn is_sound(alloc: Global, event: &Event) -> Result<bool, NoMemory>
    ensures { IfOk result (λ told. told ≡ is_sound event.now.serial event.now.what) }
{
    match &event.what {
        What::Asked(intent) => is_sound_intent(alloc, intent),
        What::Declined { code, .. } => Ok(200 <= *code && *code <= 999),
        What::Barred { reason, .. } => Ok(is_text(reason.as_slice())),
        What::Revoked { reason, .. } => Ok(is_text(reason.as_slice())),
        What::Pinged { topic } => is_key_text(alloc, topic.as_slice()),
        What::Fetched(version) => {
            Ok(is_sound_version(alloc, version)? && version.upto < event.serial)
        }
        What::Same { topic, upto } => Ok(is_text(topic.as_slice()) && *upto < event.serial),
        What::Unfetched { topic, upto, .. } => {
            Ok(is_key_text(alloc, topic.as_slice())? && *upto < event.serial)
        }
        What::Tally(tally) => Ok(is_sound_tally(tally)),
        _ => Ok(true),
    }
}

/// Whether an intent is: its number, its keys, the lengths of its texts, and what it is granted.
fn is_sound_intent(alloc: Global, intent: &Intent) -> Result<bool, NoMemory>
    ensures { IfOk result (λ told. told ≡ is_sound_intent intent.now) }
{
    Ok(
        intent.n < NUMBER_LIMIT
            && is_key_text(alloc, intent.topic.as_slice())?
            && is_key_text(alloc, intent.callback.as_slice())?
            && is_text(intent.echo.as_slice())
            && intent.secret.as_slice().len() <= SECRET_LIMIT
            && is_grant(intent),
    )
}

/// Whether a subscription is granted 60 to 864,000 seconds, and the end of one neither a lease nor a
/// secret.
fn is_grant(intent: &Intent) -> bool
    ensures { result ≡ is_grant intent.now }
{
    match intent.mode {
        Mode::On => 60 <= intent.granted && intent.granted <= 864_000,
        Mode::Off => intent.granted == 0 && intent.secret.as_slice().is_empty(),
    }
}

/// Whether a version is: its number, its key, the lengths of its texts and of its body, its media type,
/// and its link.
fn is_sound_version(alloc: Global, version: &Version) -> Result<bool, NoMemory>
    ensures { IfOk result (λ told. told ≡ is_sound_version version.now) }
{
    Ok(
        version.ver < NUMBER_LIMIT
            && is_key_text(alloc, version.topic.as_slice())?
            && is_text(version.media.as_slice())
            && is_media(version.media.as_slice())
            && is_text(version.own_link.as_slice())
            && is_link(version.own_link.as_slice())
            && version.body.as_slice().len() <= BODY_LIMIT,
    )
}

/// Whether the moment and the numbers of a Tally are within their limits.
fn is_sound_tally(tally: &Tally) -> bool
    ensures { result ≡ is_sound_tally tally.entry.now }
{
    tally.now < TIME_LIMIT
        && tally.serial < NUMBER_LIMIT
        && tally.intent < NUMBER_LIMIT
        && tally.version < NUMBER_LIMIT
}

/// Whether a text that is no body is short enough.
fn is_text(text: &[u8]) -> bool
    ensures { result ≡ is_text text.now }
{
    text.len() <= TEXT_LIMIT
}

/// Whether a text is short enough, and a key.
fn is_key_text(alloc: Global, text: &[u8]) -> Result<bool, NoMemory>
    ensures { IfOk result (λ told. told ≡ is_key_text text.now) }
{
    Ok(is_text(text) && is_key(alloc, text)?)
}

/// Whether a head can carry the media type: it has no CR, LF or NUL (RFC 9110, section 5.5), and no space
/// or tab at its ends.
fn is_media(text: &[u8]) -> bool
    ensures { result ≡ is_media text.now }
{
    is_field_value(text) && is_trimmed(text)
}

/// Whether a text has no CR, LF or NUL.
fn is_field_value(text: &[u8]) -> bool
    ensures { result ≡ is_field_value text.now }
{
    !text.contains(&13) && !text.contains(&10) && !text.contains(&0)
}

/// Whether a text has no space or tab at its ends.
fn is_trimmed(text: &[u8]) -> bool
    ensures { result ≡ is_trimmed text.now }
{
    if text.is_empty() {
        return true;
    }
    !is_blank(text[0]) && !is_blank(text[text.len() - 1])
}

/// Whether a byte is a space or a tab.
fn is_blank(byte: u8) -> bool
    ensures { result ≡ is_blank byte }
{
    byte == b' ' || byte == b'\t'
}

/// Whether a Link field can carry the link: it has no control byte and no `>`.
fn is_link(link: &[u8]) -> bool
    ensures { result ≡ is_link link.now }
{
    !has_barred(link)
}

/// Whether a text has a byte that no link in a Link field has.
fn has_barred(text: &[u8]) -> bool
    ensures { result ≡ list_any (λ c. is_ascii_control c || (c == 62)) text.now }
{
    text.iter().any(|byte| is_barred(*byte))
}

/// Whether no link in a Link field has the byte.
fn is_barred(byte: u8) -> bool
    ensures { result ≡ (is_ascii_control byte || (byte == 62)) }
{
    byte.is_ascii_control() || byte == b'>'
}
