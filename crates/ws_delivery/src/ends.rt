// How many open pairs each lease has, by the lease's end.
ghost use Rattle.std.specs.Prelude.{◌≡◌, ◌+◌, ◌<◌, ◌^◌, ℕ, Bool, true, cond, unwrap_or, IfOk, OnOk, OnErr, nat_lt};
ghost use Rattle.std.specs.Map.{keys_of, lookup};
ghost use Rattle.std.specs.List.Sorted.{IsStrictlySortedBy};
ghost use Rattle.ws_delivery.specs.Table.{pair_order};
ghost use Rattle.ws_delivery.specs.Indexed.{total, is_end, AreCounts};

use std::collections::BTreeMap;
use ws_model::NoMemory;

/// The numbers of open pairs by the end and the number of their lease.
pub type Ends = BTreeMap<(u64, u64), u64>;

/// How many open pairs the lease has.
pub fn number_of(ends: &Ends, end: u64, lease: u64) -> u64
    ensures { result ≡ unwrap_or (lookup (is_end end lease) ends.now.entries) 0 }
{
    match ends.get(&(end, lease)) {
        Some(number) => *number,
        None => 0,
    }
}

/// Counts one more open pair of a lease. At an error nothing has changed.
pub fn add(ends: &mut Ends, end: u64, lease: u64) -> Result<(), NoMemory>
    requires counts { AreCounts ends.old.entries }
    requires few { total (is_end end lease) ends.old.entries < 2 ^ 63 }
    ensures more { OnOk result ((g : ℕ × ℕ → Bool) → total g ends.new.entries ≡ total g ends.old.entries + cond (g (end, lease)) 1 0) }
    ensures counts { OnOk result (AreCounts ends.new.entries) }
    ensures err { OnErr result (ends.new.entries ≡ ends.old.entries) }
{
    let number = number_of(ends, end, lease) + 1;
    ends.insert((end, lease), number)?;
    Ok(())
}

/// Counts one open pair of a lease less. It takes no memory.
pub fn take(ends: &mut Ends, end: u64, lease: u64)
    requires counts { AreCounts ends.old.entries }
    requires there { 0 < total (is_end end lease) ends.old.entries }
    ensures less { (g : ℕ × ℕ → Bool) → total g ends.new.entries + cond (g (end, lease)) 1 0 ≡ total g ends.old.entries }
    ensures counts { AreCounts ends.new.entries }
{
    let number = number_of(ends, end, lease);
    if number > 1 {
        match ends.insert((end, lease), number - 1) {
            Ok(_) => {}
            Err(_) => unreachable!(),
        }
    } else {
        let _ = ends.remove(&(end, lease));
    }
}

/// How many of all open pairs are of leases that end after `t`. It goes over the ends until `t`.
pub fn number_after(ends: &Ends, all: u64, t: u64) -> u64
    requires all { all ≡ total (λ q. true) ends.now.entries }
    ensures { result ≡ total (λ q. nat_lt t q.0) ends.now.entries }
{
    let mut left = all;
    for (key, number) in ends {
        if t < key.0 {
            return left;
        }
        left -= *number;
    }
    left
}
