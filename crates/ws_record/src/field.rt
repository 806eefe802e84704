// What an event is made of: each field has one text, is written, and is read off the front of bytes.
ghost use Rattle.std.specs.Prelude.{◌≡◌, ◌≤◌, ◌<◌, ◌+◌, ◌^◌, ◌++◌, ◌∷◌, [], List, ℕ, length, OnOk, IfSome, IfNone};
ghost use Rattle.std.specs.Int.{w16, w32, w64};
ghost use Rattle.ws_record.specs.Text.{number_text, bytes_text, mode_text, alg_text, flag_text, how_text, NumberFits, BytesFit, HowFits, capped};
ghost use Rattle.ws_record.specs.Reading.{Reads, Apart, both, BothFit};
ghost use Rattle.ws_record.specs.NumberLaws.{wide16, wide32, wide64, number-apart};
ghost use Rattle.ws_record.specs.FieldLaws.{nothing-apart, bytes-apart, mode-apart, alg-apart, flag-apart, how-apart, both-apart};

use std::alloc::Global;
use ws_model::{Alg, Bytes, How, Mode, NoMemory};

/// A value with one text.
pub trait WriteField {
    ghost text: { Self → List ℕ };

    ghost fits: { Self → Type 0 };

    /// Adds the text at the end.
    fn write(&self, out: &mut Vec<u8>) -> Result<(), NoMemory>
        requires { length (text self.now) < 2 ^ 32 }
        ensures written { OnOk result (out.new.items ≡ out.old.items ++ text self.now) }
        ensures fits { OnOk result (fits self.now) };

    /// Adds the text's length in bytes to a sum of lengths, which stops at its type's end.
    fn add_len(&self, sum: u64) -> u64
        ensures { (n : ℕ) → sum ≡ capped n → result ≡ capped (n + length (text self.now)) };
}

/// A value that is read off the front of bytes.
pub trait ReadField: WriteField + Sized + Drop {
    /// The value whose text begins the bytes, and the bytes behind it. None where there is none.
    fn read(alloc: Global, bytes: &[u8]) -> Result<Option<(Self, &[u8])>, NoMemory>
        ensures { Reads (λ p. (p.0, p.1.now)) Self.text Self.fits bytes.now result };

    ghost apart: { Apart Self.text Self.fits };
}

/// Adds a length to a sum of lengths, which stops at its type's end.
fn add_to(sum: u64, len: usize) -> u64
    ensures { (n : ℕ) → sum ≡ capped n → result ≡ capped (n + len) }
{
    sum.saturating_add(len as u64)
}

/// The first byte, and the bytes behind it.
pub fn split_byte(bytes: &[u8]) -> Option<(u8, &[u8])>
    ensures found { IfSome result (λ p. bytes.now ≡ p.0 ∷ p.1.now) }
    ensures none { IfNone result (bytes.now ≡ []) }
{
    let (first, rest) = bytes.split_first()?;
    Some((*first, rest))
}

/// No field: its text is empty.
impl WriteField for () {
    ghost text = { λ _. [] };

    ghost fits = { λ _. Unit {0} };

    fn write(&self, _out: &mut Vec<u8>) -> Result<(), NoMemory> {
        Ok(())
    }

    fn add_len(&self, sum: u64) -> u64 {
        sum
    }
}

impl ReadField for () {
    fn read(_alloc: Global, bytes: &[u8]) -> Result<Option<((), &[u8])>, NoMemory> {
        Ok(Some(((), bytes)))
    }

    ghost apart = { nothing-apart };
}

/// Two fields, one behind the other; by nesting, any number of them.
impl<A: WriteField, B: WriteField> WriteField for (A, B) {
    ghost text = { both A.text B.text };

    ghost fits = { BothFit A.fits B.fits };

    fn write(&self, out: &mut Vec<u8>) -> Result<(), NoMemory> {
        self.0.write(out)?;
        self.1.write(out)
    }

    fn add_len(&self, sum: u64) -> u64 {
        let sum = self.0.add_len(sum);
        self.1.add_len(sum)
    }
}

impl<A: ReadField, B: ReadField> ReadField for (A, B) {
    fn read(alloc: Global, bytes: &[u8]) -> Result<Option<((A, B), &[u8])>, NoMemory> {
        let Some((first, rest)) = A::read(alloc, bytes)? else {
            return Ok(None);
        };
        let Some((second, rest)) = B::read(alloc, rest)? else {
            return Ok(None);
        };
        Ok(Some(((first, second), rest)))
    }

    ghost apart = { both-apart A.text A.fits B.text B.fits A.apart B.apart };
}

impl<A: WriteField> WriteField for &A {
    ghost text = { λ r. A.text r.now };

    ghost fits = { λ r. A.fits r.now };

    fn write(&self, out: &mut Vec<u8>) -> Result<(), NoMemory> {
        A::write(self, out)
    }

    fn add_len(&self, sum: u64) -> u64 {
        A::add_len(self, sum)
    }
}

/// A single byte.
impl WriteField for u8 {
    ghost text = { λ b. b ∷ [] };

    ghost fits = { λ b. b < 2 ^ 8 };

    fn write(&self, out: &mut Vec<u8>) -> Result<(), NoMemory> {
        out.push(*self)?;
        Ok(())
    }

    fn add_len(&self, sum: u64) -> u64 {
        add_to(sum, 1)
    }
}

impl WriteField for u16 {
    ghost text = { number_text w16 };

    ghost fits = { NumberFits w16 };

    #[tactic(auto, unfolding(crate::specs::Text::number_text))]
    fn write(&self, out: &mut Vec<u8>) -> Result<(), NoMemory> {
        out.extend_from_slice(&self.to_be_bytes())?;
        Ok(())
    }

    #[tactic(auto, unfolding(crate::specs::Text::number_text))]
    fn add_len(&self, sum: u64) -> u64 {
        add_to(sum, 2)
    }
}

impl ReadField for u16 {
    fn read(_alloc: Global, bytes: &[u8]) -> Result<Option<(u16, &[u8])>, NoMemory> {
        let Some((front, rest)) = bytes.split_first_chunk::<2>() else {
            return Ok(None);
        };
        Ok(Some((u16::from_be_bytes(*front), rest)))
    }

    ghost apart = { number-apart w16 wide16 };
}

impl WriteField for u32 {
    ghost text = { number_text w32 };

    ghost fits = { NumberFits w32 };

    #[tactic(auto, unfolding(crate::specs::Text::number_text))]
    fn write(&self, out: &mut Vec<u8>) -> Result<(), NoMemory> {
        out.extend_from_slice(&self.to_be_bytes())?;
        Ok(())
    }

    #[tactic(auto, unfolding(crate::specs::Text::number_text))]
    fn add_len(&self, sum: u64) -> u64 {
        add_to(sum, 4)
    }
}

impl ReadField for u32 {
    fn read(_alloc: Global, bytes: &[u8]) -> Result<Option<(u32, &[u8])>, NoMemory> {
        let Some((front, rest)) = bytes.split_first_chunk::<4>() else {
            return Ok(None);
        };
        Ok(Some((u32::from_be_bytes(*front), rest)))
    }

    ghost apart = { number-apart w32 wide32 };
}

impl WriteField for u64 {
    ghost text = { number_text w64 };

    ghost fits = { NumberFits w64 };

    #[tactic(auto, unfolding(crate::specs::Text::number_text))]
    fn write(&self, out: &mut Vec<u8>) -> Result<(), NoMemory> {
        out.extend_from_slice(&self.to_be_bytes())?;
        Ok(())
    }

    #[tactic(auto, unfolding(crate::specs::Text::number_text))]
    fn add_len(&self, sum: u64) -> u64 {
        add_to(sum, 8)
    }
}

impl ReadField for u64 {
    fn read(_alloc: Global, bytes: &[u8]) -> Result<Option<(u64, &[u8])>, NoMemory> {
        let Some((front, rest)) = bytes.split_first_chunk::<8>() else {
            return Ok(None);
        };
        Ok(Some((u64::from_be_bytes(*front), rest)))
    }

    ghost apart = { number-apart w64 wide64 };
}

impl WriteField for Bytes {
    ghost text = { bytes_text };

    ghost fits = { BytesFit };

    fn write(&self, out: &mut Vec<u8>) -> Result<(), NoMemory> {
        let content = self.as_slice();
        let len = content.len() as u32;
        len.write(out)?;
        out.extend_from_slice(content)?;
        Ok(())
    }

    fn add_len(&self, sum: u64) -> u64 {
        add_to(add_to(sum, 4), self.as_slice().len())
    }
}

impl ReadField for Bytes {
    fn read(alloc: Global, bytes: &[u8]) -> Result<Option<(Bytes, &[u8])>, NoMemory> {
        let Some((len, rest)) = u32::read(alloc, bytes)? else {
            return Ok(None);
        };
        let Some((content, rest)) = rest.split_at_checked(len as usize) else {
            return Ok(None);
        };
        Ok(Some((Bytes::copy(alloc, content)?, rest)))
    }

    ghost apart = { bytes-apart };
}

impl WriteField for Mode {
    ghost text = { mode_text };

    ghost fits = { λ _. Unit {0} };

    fn write(&self, out: &mut Vec<u8>) -> Result<(), NoMemory> {
        let code = match self {
            Mode::Off => 0,
            Mode::On => 1,
        };
        out.push(code)?;
        Ok(())
    }

    fn add_len(&self, sum: u64) -> u64 {
        add_to(sum, 1)
    }
}

impl ReadField for Mode {
    fn read(_alloc: Global, bytes: &[u8]) -> Result<Option<(Mode, &[u8])>, NoMemory> {
        let Some((code, rest)) = split_byte(bytes) else {
            return Ok(None);
        };
        match code {
            0 => Ok(Some((Mode::Off, rest))),
            1 => Ok(Some((Mode::On, rest))),
            _ => Ok(None),
        }
    }

    ghost apart = { mode-apart };
}

impl WriteField for Alg {
    ghost text = { alg_text };

    ghost fits = { λ _. Unit {0} };

    fn write(&self, out: &mut Vec<u8>) -> Result<(), NoMemory> {
        let code = match self {
            Alg::Sha1 => 0,
            Alg::Sha256 => 1,
            Alg::Sha384 => 2,
            Alg::Sha512 => 3,
        };
        out.push(code)?;
        Ok(())
    }

    fn add_len(&self, sum: u64) -> u64 {
        add_to(sum, 1)
    }
}

impl ReadField for Alg {
    fn read(_alloc: Global, bytes: &[u8]) -> Result<Option<(Alg, &[u8])>, NoMemory> {
        let Some((code, rest)) = split_byte(bytes) else {
            return Ok(None);
        };
        match code {
            0 => Ok(Some((Alg::Sha1, rest))),
            1 => Ok(Some((Alg::Sha256, rest))),
            2 => Ok(Some((Alg::Sha384, rest))),
            3 => Ok(Some((Alg::Sha512, rest))),
            _ => Ok(None),
        }
    }

    ghost apart = { alg-apart };
}

impl WriteField for bool {
    ghost text = { flag_text };

    ghost fits = { λ _. Unit {0} };

    fn write(&self, out: &mut Vec<u8>) -> Result<(), NoMemory> {
        out.push(u8::from(*self))?;
        Ok(())
    }

    fn add_len(&self, sum: u64) -> u64 {
        add_to(sum, 1)
    }
}

impl ReadField for bool {
    fn read(_alloc: Global, bytes: &[u8]) -> Result<Option<(bool, &[u8])>, NoMemory> {
        let Some((code, rest)) = split_byte(bytes) else {
            return Ok(None);
        };
        match code {
            0 => Ok(Some((false, rest))),
            1 => Ok(Some((true, rest))),
            _ => Ok(None),
        }
    }

    ghost apart = { flag-apart };
}

impl WriteField for How {
    ghost text = { how_text };

    ghost fits = { HowFits };

    fn write(&self, out: &mut Vec<u8>) -> Result<(), NoMemory> {
        match self {
            How::Done => 0u8.write(out),
            How::Gone => 1u8.write(out),
            How::Missed(code) => (2u8, code).write(out),
        }
    }

    fn add_len(&self, sum: u64) -> u64 {
        match self {
            How::Done => 0u8.add_len(sum),
            How::Gone => 1u8.add_len(sum),
            How::Missed(code) => (2u8, code).add_len(sum),
        }
    }
}

impl ReadField for How {
    fn read(alloc: Global, bytes: &[u8]) -> Result<Option<(How, &[u8])>, NoMemory> {
        let Some((code, rest)) = split_byte(bytes) else {
            return Ok(None);
        };
        match code {
            0 => Ok(Some((How::Done, rest))),
            1 => Ok(Some((How::Gone, rest))),
            2 => {
                let Some((code, rest)) = u16::read(alloc, rest)? else {
                    return Ok(None);
                };
                Ok(Some((How::Missed(code), rest)))
            }
            _ => Ok(None),
        }
    }

    ghost apart = { how-apart };
}
