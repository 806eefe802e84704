// Status codes, by the crate `http`.
ghost use Rattle.std.specs.Prelude.{◌≡◌, ◌<◌, nat_le, true};
ghost use Rattle.http.specs.StatusCode.{IsStatusCode, reason_phrase};
ghost use Rattle.ws_http.specs.ResponseFields.{or_empty};
ghost use Rattle.ws_http.specs.Responses.{is_interim};
ghost use Rattle.ws_http.specs.Texts.{is_answer_code, phrase};

use http::StatusCode;

/// Whether a number of three digits is the code of a response.
pub fn is_code(code: u16) -> bool
    requires { code < 1000 }
    ensures { result ≡ nat_le 100 code }
{
    StatusCode::from_u16(code).is_ok()
}

/// Whether a head of this code is an interim one.
pub fn is_interim(code: u16) -> bool
    ensures { result ≡ is_interim code }
{
    match StatusCode::from_u16(code) {
        Ok(code) => code.is_informational(),
        Err(_) => false,
    }
}

// The phrase that the crate `http` has for a code.
fn reason_of(code: u16) -> &'static [u8]
    requires { IsStatusCode code }
    ensures { result.now ≡ or_empty (reason_phrase code) }
{
    match StatusCode::from_u16(code) {
        Ok(code) => match code.canonical_reason() {
            Some(reason) => reason.as_bytes(),
            None => b"",
        },
        Err(_) => unreachable!(),
    }
}

/// The phrase of an answer's code. RFC 9110 gave 413 a new one, and `http` has the old one.
#[tactic(auto, using(crate::proofs::PhraseLemmas::answer_code, crate::proofs::PhraseLemmas::answer_phrase))]
pub fn phrase_of(code: u16) -> &'static [u8]
    requires { is_answer_code code ≡ true }
    ensures { result.now ≡ phrase code }
{
    if code == 413 {
        return b"Content Too Large";
    }
    reason_of(code)
}
