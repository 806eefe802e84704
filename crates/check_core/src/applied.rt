// The core, gone on with what it accepts.
ghost use Rattle.std.specs.Prelude.{◌≡◌, OnOk};
ghost use Rattle.ws_model.specs.declared.event.What.TheVariants.{Pushed};
ghost use Rattle.ws_core.specs.Follows.{HasHistory};
ghost use Rattle.ws_core.specs.Stands.{CanFollow};

use std::alloc::Global;
use ws_core::Core;
use ws_model::{Event, How, NoMemory, What};

/// Times in seconds are below this.
pub const TIME_LIMIT: u64 = 1 << 48;

/// Goes on with an event, where the core accepts it.
pub fn go_on(core: &mut Core, event: &Event) -> Result<bool, NoMemory>
    requires { HasHistory core.old }
    ensures { OnOk result (HasHistory core.new) }
{
    if !core.accepts(event)? {
        return Ok(false);
    }
    apply(core, event)?;
    Ok(true)
}

// At even serials the end of a push is applied by the call that takes no memory.
fn apply(core: &mut Core, event: &Event) -> Result<(), NoMemory>
    requires { CanFollow core.old event.now }
    ensures { OnOk result (HasHistory core.new) }
{
    if event.serial % 2 == 0 {
        if let What::Pushed { ver, lease, how } = &event.what {
            apply_pushed(core, event, *ver, *lease, *how);
            return Ok(());
        }
    }
    core.apply(event)
}

fn apply_pushed(core: &mut Core, event: &Event, ver: u64, lease: u64, how: How)
    requires kind { event.now.what ≡ Pushed ver lease how }
    requires follows { CanFollow core.old event.now }
    ensures { HasHistory core.new }
{
    core.apply_pushed(event.serial, event.t, ver, lease, how);
}

/// The core after these events, or None where it doesn't accept one of them.
pub fn after(alloc: Global, events: &[Event]) -> Result<Option<Core>, NoMemory> {
    let mut core = Core::empty(alloc);
    for event in events {
        if !go_on(&mut core, event)? {
            return Ok(None);
        }
    }
    Ok(Some(core))
}
