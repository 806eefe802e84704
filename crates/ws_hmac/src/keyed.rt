// HMAC over any hash (RFC 2104).
ghost use Rattle.std.specs.Prelude.{◌≡◌, ◌≤◌};
ghost use Rattle.ws_hmac.specs.Hmac.{filled, hmac_of, short_key, xor_pad};

use crate::hashes::Hash;

const INNER_PAD: u8 = 0x36;

const OUTER_PAD: u8 = 0x5c;

/// The HMAC of a body by the hash `H` (RFC 2104, section 2).
///
/// It takes no memory and copies no body: the inner hash takes the padded key and then the body.
pub fn hmac<H: Hash<B, N>, const B: usize, const N: usize>(key: &[u8], body: &[u8]) -> [u8; N]
    requires { N ≤ B }
    ensures { result ≡ hmac_of H.hash B key.now body.now }
{
    let mut inner = key_block::<H, B, N>(key);
    let mut outer = inner;
    xor_all(&mut inner, INNER_PAD);
    xor_all(&mut outer, OUTER_PAD);
    let digest = H::digest(&inner, body);
    H::digest(&outer, &digest)
}

// The key in one block: hashed where it is longer, and then filled with zeros.
fn key_block<H: Hash<B, N>, const B: usize, const N: usize>(key: &[u8]) -> [u8; B]
    requires { N ≤ B }
    ensures { result ≡ filled B (short_key H.hash B key.now) }
{
    let mut block = [0; B];
    if key.len() > B {
        let digest = H::digest(key, &[]);
        block[..N].copy_from_slice(&digest);
    } else {
        block[..key.len()].copy_from_slice(key);
    }
    block
}

fn xor_all(bytes: &mut [u8], pad: u8)
    ensures { bytes.new ≡ xor_pad pad bytes.old }
{
    for byte in bytes.iter_mut() {
        *byte ^= pad;
    }
}
