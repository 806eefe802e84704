// What an order needs to know of its keys, and of what is looked for in it.
ghost use Rattle.std.specs.Prelude.{◌≡◌, Bool, nat_lt};
ghost use Rattle.ws_order.specs.NumberOrder.{numbers_order, same_number};
ghost use Rattle.ws_order.specs.Orders.{IsOrder};

/// A key that has a place among all others.
pub trait Key: Copy {
    ghost before: { Self → Self → Bool };

    ghost same: { Self → Self → Bool };

    /// Whether this stands before the other.
    fn is_before(&self, other: &Self) -> bool
        ensures { result ≡ before self.now other.now };

    /// A number that is spread evenly over the keys. It is for speed alone.
    fn spread(&self) -> u64;

    ghost laws: { IsOrder before same };
}

/// What is looked for among keys in their order.
pub trait Sought<K> {
    ghost wanted: { Self → K → Bool };

    ghost past: { Self → K → Bool };

    /// Whether it is such a key.
    fn is_wanted(&self, key: &K) -> bool
        ensures { result ≡ wanted self.now key.now };

    /// Whether no key that stands behind this one is wanted.
    fn is_past(&self, key: &K) -> bool
        ensures { result ≡ past self.now key.now };
}

impl Key for u64 {
    ghost before = { nat_lt };

    ghost same = { same_number };

    fn is_before(&self, other: &u64) -> bool {
        *self < *other
    }

    fn spread(&self) -> u64 {
        let mixed = self.wrapping_mul(0x9e37_79b9_7f4a_7c15);
        (mixed ^ (mixed >> 32)).wrapping_mul(0xd6e8_feb8_6659_fd93)
    }

    ghost laws = { numbers_order };
}
