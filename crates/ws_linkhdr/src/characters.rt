// Which bytes stand where in a Link field.
ghost use Rattle.std.specs.Prelude.{◌≡◌, [], ◌∷◌, ◌++◌, IfOk};
ghost use Rattle.std.specs.Str.{str_eq_ignore_ascii_case};
ghost use Rattle.ws_linkhdr.specs.Characters.{is_blank, is_escaped_byte, is_quoted_byte, is_target_byte, is_token_byte, is_word_byte, is_plain_byte};

use std::alloc::Global;
use ws_model::{Bytes, NoMemory};

#[tactic(auto, unfolding(crate::specs::Characters::is_blank))]
pub fn is_blank(byte: u8) -> bool
    ensures { result ≡ is_blank byte }
{
    byte == b' ' || byte == b'\t'
}

#[tactic(auto, unfolding(crate::specs::Characters::is_token_byte))]
pub fn is_token_byte(byte: u8) -> bool
    ensures { result ≡ is_token_byte byte }
{
    byte.is_ascii_alphanumeric() || b"!#$%&'*+-.^_`|~".contains(&byte)
}

#[tactic(auto, unfolding(crate::specs::Characters::is_word_byte))]
pub fn is_word_byte(byte: u8) -> bool
    ensures { result ≡ is_word_byte byte }
{
    is_token_byte(byte) || byte == b'/' || byte == b':'
}

#[tactic(auto, unfolding(crate::specs::Characters::is_plain_byte))]
pub fn is_plain_byte(byte: u8) -> bool
    ensures { result ≡ is_plain_byte byte }
{
    !byte.is_ascii_control()
}

#[tactic(auto, unfolding(crate::specs::Characters::is_target_byte))]
pub fn is_target_byte(byte: u8) -> bool
    ensures { result ≡ is_target_byte byte }
{
    is_plain_byte(byte) && byte != b'>'
}

#[tactic(auto, unfolding(crate::specs::Characters::is_quoted_byte))]
pub fn is_quoted_byte(byte: u8) -> bool
    ensures { result ≡ is_quoted_byte byte }
{
    byte == b'\t' || (is_plain_byte(byte) && !(byte == b'"' || byte == b'\\'))
}

#[tactic(auto, unfolding(crate::specs::Characters::is_escaped_byte))]
pub fn is_escaped_byte(byte: u8) -> bool
    ensures { result ≡ is_escaped_byte byte }
{
    byte == b'\t' || (b' '..=b'~').contains(&byte)
}

/// Whether two words are the same but for case.
pub fn is_same_word(a: &[u8], b: &[u8]) -> bool
    ensures { result ≡ str_eq_ignore_ascii_case a.now b.now }
{
    a.eq_ignore_ascii_case(b)
}

/// No bytes. It takes no memory.
pub fn no_bytes(alloc: Global) -> Bytes
    ensures { result ≡ [] }
{
    Bytes::from_vec(Vec::new(alloc))
}

/// The bytes, and one more behind them.
pub fn with_byte(bytes: Bytes, byte: u8) -> Result<Bytes, NoMemory>
    ensures { IfOk result (λ b. b ≡ bytes ++ byte ∷ []) }
{
    let mut content = bytes.into_vec();
    content.push(byte)?;
    Ok(Bytes::from_vec(content))
}
