// What happens to a core, one after the other.
ghost use Rattle.std.specs.Prelude.{OnOk};
ghost use Rattle.ws_core.specs.Follows.{HasHistory};

use std::alloc::Global;
use ws_core::Core;
use ws_model::{Bytes, Event, NoMemory, What};

/// The moment at which all happens, in seconds.
pub const NOW: u64 = 1_000;

/// Applies this under the next serial, where the core accepts it, and says whether it does.
pub fn happen(core: &mut Core, what: What) -> Result<bool, NoMemory>
    requires { HasHistory core.old }
    ensures { OnOk result (HasHistory core.new) }
{
    let serial = core.serial().saturating_add(1);
    let event = Event {
        serial,
        t: NOW,
        what,
    };
    if !core.accepts(&event)? {
        return Ok(false);
    }
    core.apply(&event)?;
    Ok(true)
}

/// A URL with a number in it, in letters.
pub fn url(alloc: Global, n: u64) -> Result<Bytes, NoMemory> {
    let mut text = b"http://some.example/".to_vec(alloc)?;
    for place in n.to_be_bytes() {
        text.push(b'a' + (place >> 4))?;
        text.push(b'a' + (place & 15))?;
    }
    Ok(Bytes::from_vec(text))
}
