// Reading a Link field.
ghost use Rattle.std.specs.Prelude.{◌≡◌, List, IfOk, IfErr};
ghost use Rattle.ws_linkhdr.specs.declared.item.LinkItem.{LinkItem};
ghost use Rattle.ws_linkhdr.specs.Grammar.{LinkField};
ghost use Rattle.ws_linkhdr.specs.Fault.{IsCause};

use crate::item::{LinkFault, LinkItem};
use crate::state::State;
use std::alloc::Global;

/// Reads the links of a Link field, in order (RFC 8288, section 3), in one pass over the bytes.
///
/// Answers `Grammar` where the field isn't in the grammar, and `NoMemory`.
pub fn read_links(alloc: Global, field: &[u8]) -> Result<Vec<LinkItem>, LinkFault>
    // The field is in the grammar, and says these items,
    ensures found { IfOk result (λ v. LinkField field.now v.items) }
    // and no others.
    ensures only { IfOk result (λ v. (items : List LinkItem) → LinkField field.now items → items ≡ v.items) }
    // Or it isn't in the grammar, and this is where it leaves it.
    ensures cause { IfErr result (IsCause field.now) }
{
    let mut items = Vec::new(alloc);
    let mut state = State::Between;
    for (at, byte) in field.iter().enumerate() {
        let Some(next) = state.next(alloc, &mut items, *byte)? else {
            return Err(LinkFault::Grammar { at: at as u64 });
        };
        state = next;
    }
    let Some(items) = state.finish(alloc, items)? else {
        return Err(LinkFault::Grammar {
            at: field.len() as u64,
        });
    };
    Ok(items)
}
