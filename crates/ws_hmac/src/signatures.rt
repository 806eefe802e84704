// The header X-Hub-Signature (WebSub section 7.1).
ghost use Rattle.std.specs.Prelude.{◌≡◌, ◌≤◌, IfOk, bytes_eq, length};
ghost use Rattle.std.specs.Str.{str_to_ascii_lowercase};
ghost use Rattle.hex.specs.Hex.{encode_lower};
ghost use Rattle.ws_hmac.specs.Sign.{prefix_of, sign, is_signature, is_signed_by};

use crate::hashes::{UseSha1, UseSha256, UseSha384, UseSha512};
use crate::keyed::hmac;
use std::alloc::Global;
use ws_model::{Alg, Bytes, NoMemory};

// The bytes of the longest digest, that of SHA-512.
const LONGEST_DIGEST: usize = 64;

const METHODS: [Alg; 4] = [Alg::Sha1, Alg::Sha256, Alg::Sha384, Alg::Sha512];

// Writes the four cases: the HMAC by each method's hash, and what is done with it.
macro_rules! with_hmac {
    ($alg:expr, $secret:expr, $body:expr, |$value:ident| $then:expr) => {
        match $alg {
            Alg::Sha1 => {
                let $value = hmac::<UseSha1, 64, 20>($secret, $body);
                $then
            }
            Alg::Sha256 => {
                let $value = hmac::<UseSha256, 64, 32>($secret, $body);
                $then
            }
            Alg::Sha384 => {
                let $value = hmac::<UseSha384, 128, 48>($secret, $body);
                $then
            }
            Alg::Sha512 => {
                let $value = hmac::<UseSha512, 128, 64>($secret, $body);
                $then
            }
        }
    };
}

/// The signature of a body: the method's name, `=`, and the HMAC in lower-case hexadecimal digits
/// (WebSub section 7.1).
///
/// It fails only where memory does.
pub fn signature(alloc: Global, alg: Alg, secret: &[u8], body: &[u8]) -> Result<Bytes, NoMemory>
    ensures { IfOk result (λ text. text ≡ sign alg secret.now body.now) }
{
    let digits = with_hmac!(alg, secret, body, |value| hex::encode(alloc, value)?);
    let method = prefix(alg);
    let text = format!(in alloc; "{method}{digits}")?;
    Ok(Bytes::from_vec(text.into_bytes()))
}

/// Whether a header is a signature of the body: one of the four methods, `=`, and the HMAC in
/// hexadecimal digits of either case (WebSub section 7.1). It takes no memory.
///
/// A value is compared to its last byte wherever it first differs, so that the time of a call
/// doesn't tell how much of a forged signature is right.
pub fn check(header: &[u8], secret: &[u8], body: &[u8]) -> bool
    ensures { result ≡ is_signature header.now secret.now body.now }
{
    METHODS
        .iter()
        .any(|alg| is_signed_by(*alg, header, secret, body))
}

fn is_signed_by(alg: Alg, header: &[u8], secret: &[u8], body: &[u8]) -> bool
    ensures { result ≡ is_signed_by alg header.now secret.now body.now }
{
    let Some(digits) = header.strip_prefix(prefix(alg).as_bytes()) else {
        return false;
    };
    with_hmac!(alg, secret, body, |value| is_hex_of(digits, &value))
}

// The method's name and the `=` behind it.
fn prefix(alg: Alg) -> &'static str
    ensures { result.now ≡ prefix_of alg }
{
    match alg {
        Alg::Sha1 => "sha1=",
        Alg::Sha256 => "sha256=",
        Alg::Sha384 => "sha384=",
        Alg::Sha512 => "sha512=",
    }
}

// Whether the text is the value's hexadecimal digits, in either case.
fn is_hex_of(text: &[u8], value: &[u8]) -> bool
    requires { length value.now ≤ LONGEST_DIGEST }
    ensures { result ≡ bytes_eq (str_to_ascii_lowercase text.now) (encode_lower value.now) }
{
    let mut buffer = [0; LONGEST_DIGEST];
    let found = &mut buffer[..value.len()];
    hex::decode_to_slice(text, found).is_ok() && is_same(found, value)
}

// Whether two lists of bytes are the same. Each byte is compared, wherever the first difference is.
fn is_same(found: &[u8], wanted: &[u8]) -> bool
    requires { length found.now ≡ length wanted.now }
    ensures { result ≡ bytes_eq found.now wanted.now }
{
    let mut difference = 0;
    for (i, byte) in found.iter().enumerate() {
        difference |= byte ^ wanted[i];
    }
    difference == 0
}
