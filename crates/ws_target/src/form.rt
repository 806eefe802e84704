// Pairs as a form (URL Standard, section 5.2). Names and values are any bytes.
ghost use Rattle.std.specs.Prelude.{◌≡◌, [], ◌++◌, IfOk, OnOk};
ghost use Rattle.form_urlencoded.specs.Form.{append_pair, byte_serialize, extend_pairs};
ghost use Rattle.ws_target.specs.Requests.{form_pairs};

use form_urlencoded::byte_serialize;
use std::alloc::Global;
use ws_model::{NoMemory, Pair};

/// The pairs as a form.
pub fn form_of(alloc: Global, pairs: &[Pair]) -> Result<Vec<u8>, NoMemory>
    ensures { IfOk result (λ form. form.items ≡ extend_pairs [] (form_pairs pairs.now)) }
{
    let mut form = Vec::new(alloc);
    for pair in pairs {
        push_pair(&mut form, pair)?;
    }
    Ok(form)
}

fn push_pair(form: &mut Vec<u8>, pair: &Pair) -> Result<(), NoMemory>
    ensures { OnOk result (form.new.items ≡ append_pair form.old.items pair.now.name pair.now.value) }
{
    if !form.is_empty() {
        form.push(b'&')?;
    }
    push_encoded(form, pair.name.as_slice())?;
    form.push(b'=')?;
    push_encoded(form, pair.value.as_slice())
}

fn push_encoded(form: &mut Vec<u8>, bytes: &[u8]) -> Result<(), NoMemory>
    ensures { OnOk result (form.new.items ≡ form.old.items ++ byte_serialize bytes.now) }
{
    for piece in byte_serialize(bytes) {
        form.extend_from_slice(piece.as_bytes())?;
    }
    Ok(())
}
