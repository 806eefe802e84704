// What the head of a request asks for.
ghost use Rattle.std.specs.Prelude.{◌≡◌, ℕ, List, Option, take, reverse, true};
ghost use Rattle.std.specs.Option.{option_copied};
ghost use Rattle.httparse.specs.Grammar.{RequestHead, ReadsRequest, is_ows, skip_ows, trim_ows};
ghost use Rattle.ws_target.specs.Requests.{path_and_query, place_of};
ghost use Rattle.ws_http.specs.Requests.{is_headed};
ghost use Rattle.ws_http.specs.RequestStages.{verdict};
ghost use Rattle.ws_front.specs.Rules.{is_own_target, until_semicolon, is_form_type, head_refusal};

use crate::refusal::Refusal;
use ws_http::RequestReader;

// The bytes before the first semicolon.
fn until_semicolon(value: &[u8]) -> &[u8]
    ensures { result.now ≡ until_semicolon value.now }
{
    let mut end: usize = 0;
    'bytes: while end < value.len() && value[end] != b';' {
        end += 1;
    }
    &value[..end]
}

// Whether the byte is a space or a tab.
fn is_blank(byte: u8) -> bool
    ensures { result ≡ is_ows byte }
{
    byte == b' ' || byte == b'\t'
}

// The text without the spaces and tabs in front.
fn skip_blank(text: &[u8]) -> &[u8]
    ensures { result.now ≡ skip_ows text.now }
{
    let mut start: usize = 0;
    'blank: while start < text.len() && is_blank(text[start]) {
        start += 1;
    }
    &text[start..]
}

// The text without the spaces and tabs behind.
fn cut_blank(text: &[u8]) -> &[u8]
    ensures { result.now ≡ reverse (skip_ows (reverse text.now)) }
{
    let mut end: usize = text.len();
    'blank: while end > 0 && is_blank(text[end - 1]) {
        end -= 1;
    }
    &text[..end]
}

// The text without the spaces and tabs at its ends.
#[tactic(auto, unfolding(httparse::specs::Grammar::trim_ows))]
fn trimmed(text: &[u8]) -> &[u8]
    ensures { result.now ≡ trim_ows text.now }
{
    cut_blank(skip_blank(text))
}

// Whether a content of this type is read as a form.
fn is_form_type(value: Option<&[u8]>) -> bool
    ensures { result ≡ is_form_type (option_copied value.entry) }
{
    match value {
        None => true,
        Some(value) => trimmed(until_semicolon(value)).eq_ignore_ascii_case(
            b"application/x-www-form-urlencoded",
        ),
    }
}

// Whether a target is the hub with this URL and this path and query.
fn is_own_target(hub: &[u8], path: &[u8], target: &[u8]) -> bool
    requires { path.now ≡ path_and_query (place_of hub.now) }
    ensures { result ≡ is_own_target hub.now target.now }
{
    target == path || target == hub
}

/// Why a sound head is refused by the hub with this URL and this path and query, where it is.
#[tactic(auto, unfolding(crate::specs::Rules::head_refusal))]
pub fn head_refusal(hub: &[u8], path: &[u8], reader: &RequestReader) -> Option<Refusal>
    requires own { path.now ≡ path_and_query (place_of hub.now) }
    requires headed { is_headed (verdict reader.now) ≡ true }
    ensures { (h : RequestHead) (rest : List ℕ) → ReadsRequest (take 16384 reader.now.bytes) h rest → result ≡ head_refusal hub.now h }
{
    if !is_own_target(hub, path, reader.target()) {
        return Some(Refusal::NotFound);
    }
    if reader.method() != b"POST".as_slice() {
        return Some(Refusal::PostOnly);
    }
    if !is_form_type(reader.field(b"content-type")) {
        return Some(Refusal::FormOnly);
    }
    None
}
