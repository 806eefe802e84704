// The part of a body of a response that is kept.
ghost use Rattle.std.specs.Prelude.{◌≡◌, ◌≤◌, ◌<◌, ◌^◌, ◌+◌, ◌++◌, length, take, true, false, IsOk, OnOk, OnErr, vec_len};
ghost use Rattle.std.specs.Vec.{vec_capacity};
ghost use Rattle.ws_http.specs.FlowEnds.{more_of};

use crate::Need;
use ws_model::NoMemory;

/// The most bytes of a body.
pub const BODY_LIMIT: usize = 4_194_304;

/// How many bytes of a body are kept where a short one is asked for.
pub const SHORT: usize = 41;

/// Puts the bytes behind others. It takes no memory where there is room.
pub fn grow(kept: &mut Vec<u8>, bytes: &[u8]) -> Result<(), NoMemory>
    ensures ok { OnOk result (kept.new.items ≡ kept.old.items ++ bytes.now) }
    ensures fits { vec_len kept.old + length bytes.now ≤ vec_capacity kept.old → IsOk result }
    ensures capacity { vec_capacity kept.old ≤ vec_capacity kept.new }
    ensures err { OnErr result (kept.new.items ≡ kept.old.items) }
{
    kept.extend_from_slice(bytes)?;
    Ok(())
}

/// The first bytes, as many as there are.
pub fn first(bytes: &[u8], most: usize) -> &[u8]
    ensures { result.now ≡ take most bytes.now }
{
    let (front, _) = bytes.split_at(most.min(bytes.len()));
    front
}

/// The part of more data that is kept behind so many bytes.
pub fn kept_part(need: Need, before: usize, content: &[u8]) -> &[u8]
    ensures { result.now ≡ more_of need before content.now }
{
    match need {
        Need::Status => first(content, 0),
        Need::Short => first(content, SHORT.saturating_sub(before)),
        Need::Full => content,
    }
}
