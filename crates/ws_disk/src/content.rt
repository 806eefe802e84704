// Bytes of a disk in memory.
ghost use Rattle.std.specs.Prelude.{◌≡◌, ◌+◌, ◌-◌, ◌≤◌, ◌++◌, min, length, take, drop, IfOk, vec_capacity};
ghost use Rattle.ws_disk.specs.Crash.{overwritten};
ghost use Rattle.ws_disk.specs.Torn.{filled, marked};

use std::alloc::Global;
use ws_model::NoMemory;

/// Adds bytes for which there is room. It takes no memory.
pub(crate) fn append(content: &mut Vec<u8>, bytes: &[u8])
    requires { length content.old.items + length bytes.now ≤ vec_capacity content.old }
    ensures bytes { content.new.items ≡ content.old.items ++ bytes.now }
    ensures capacity { vec_capacity content.old ≤ vec_capacity content.new }
{
    // It has the capacity, so this succeeds.
    let _ = content.extend_from_slice(bytes);
}

/// Puts bytes over what stands there and past the end. It takes no memory.
pub(crate) fn overwrite(content: &mut Vec<u8>, at: usize, bytes: &[u8])
    requires within { at ≤ length content.old.items }
    requires room { at + length bytes.now ≤ vec_capacity content.old }
    ensures bytes { content.new.items ≡ overwritten at bytes.now content.old.items }
    ensures capacity { vec_capacity content.old ≤ vec_capacity content.new }
{
    let inside = bytes.len().min(content.len() - at);
    content[at..at + inside].copy_from_slice(&bytes[..inside]);
    append(content, &bytes[inside..]);
}

/// Copies the bytes from that place on, as many as there are and fit, and says how many.
pub(crate) fn copy_from(content: &[u8], at: u64, into: &mut [u8]) -> usize
    ensures count { result ≡ min (length into.old) (length content.now - at) }
    ensures bytes { take result into.new ≡ take result (drop at content.now) }
{
    let start = at.min(content.len() as u64) as usize;
    let count = into.len().min(content.len() - start);
    into[..count].copy_from_slice(&content[start..start + count]);
    count
}

// The bytes with this one in each place that was written.
pub(crate) fn fill_written(
    alloc: Global,
    content: &[u8],
    written: &[bool],
    byte: u8,
) -> Result<Vec<u8>, NoMemory>
    ensures { IfOk result (λ image. image.items ≡ filled byte content.now written.now) }
{
    Ok(
        content
            .iter()
            .zip(written)
            .map(|(held, is_written)| if *is_written { byte } else { *held })
            .collect(alloc)?,
    )
}

// Marks so many places from that one on as written.
pub(crate) fn mark(written: &mut [bool], at: usize, count: usize)
    requires { at + count ≤ length written.old }
    ensures { written.new ≡ marked at count written.old }
{
    written[at..at + count].fill(true);
}
