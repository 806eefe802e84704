// The text of a single Pushed event, without memory.
ghost use Rattle.std.specs.Prelude.{◌≡◌, ◌≤◌, ◌<◌, ◌+◌, ◌^◌, ◌++◌, ◌∷◌, [], length, take};
ghost use Rattle.ws_record.specs.Text.{how_text};
ghost use Rattle.ws_record.specs.Batch.{batch_text, IsBatch, pushed_event, pushed_len};

use ws_model::How;

/// Writes bytes at a place, and gives the place behind them.
fn put(text: &mut [u8], at: usize, bytes: &[u8]) -> usize
    requires { at + length bytes.now ≤ length text.old }
    ensures text { take result text.new ≡ take at text.old ++ bytes.now }
    ensures place { result ≡ at + length bytes.now }
{
    let end = at + bytes.len();
    text[at..end].copy_from_slice(bytes);
    end
}

fn put_how(text: &mut [u8], at: usize, how: How) -> usize
    requires { at + 3 ≤ length text.old }
    ensures text { take result text.new ≡ take at text.old ++ how_text how }
    ensures place { result ≡ at + length (how_text how) }
{
    match how {
        How::Done => put(text, at, &[0]),
        How::Gone => put(text, at, &[1]),
        How::Missed(code) => {
            let at = put(text, at, &[2]);
            put(text, at, &code.to_be_bytes())
        }
    }
}

/// The text of the batch that has this one Pushed event, and its length in bytes: 40 for a miss,
/// and else 38. The time is below 2^48 seconds. It takes no memory.
pub fn pushed_batch(serial: u64, t: u64, ver: u64, lease: u64, how: How) -> ([u8; 40], usize)
    requires { t < 2 ^ 48 }
    ensures text { take result.1 result.0 ≡ batch_text (pushed_event serial t ver lease how ∷ []) }
    ensures len { result.1 ≡ pushed_len how }
    // What is written is read again.
    ensures batch { IsBatch (pushed_event serial t ver lease how ∷ []) }
{
    let mut text = [0; 40];
    let at = put(&mut text, 0, &1u32.to_be_bytes());
    let at = put(&mut text, at, &serial.to_be_bytes());
    let at = put(&mut text, at, &t.to_be_bytes());
    let at = put(&mut text, at, &[11]);
    let at = put(&mut text, at, &ver.to_be_bytes());
    let at = put(&mut text, at, &lease.to_be_bytes());
    let at = put_how(&mut text, at, how);
    (text, at)
}
