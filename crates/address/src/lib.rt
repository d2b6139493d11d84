// Addresses and sizes: two types that cannot change places, with their sums and differences, rounding and the power-of-two test.
#![tactic(auto)]

ghost use Rattle.std.specs.Prelude.{SomeIff, ◌^◌, ◌≡◌, true, ◌+◌, ◌-◌, ◌%◌, ◌≤◌, ◌<◌, min, max};
ghost use Rattle.address.specs.Numbers.{up as round_up, down as round_down, power_of_two, address, difference, size};

// A place in memory, 0 to 2^64 - 1.
#[derive(Clone, Copy, PartialEq, Eq, PartialOrd, Ord)]
pub struct Address(pub u64);

// A number of addresses, 0 to 2^64 - 1.
#[derive(Clone, Copy, PartialEq, Eq, PartialOrd, Ord)]
pub struct Size(pub u64);

// What `x` is past the multiple of a power of two below it.
fn remainder(x: u64, by: u64) -> u64
    requires { power_of_two by ≡ true }
    ensures { result ≡ x % by }
{
    x & (by - 1)
}

// The multiple of a power of two at or below `x`.
pub fn round_down(x: u64, by: u64) -> u64
    requires { power_of_two by ≡ true }
    ensures { result ≡ round_down x by }
{
    x - remainder(x, by)
}

// The multiple of a power of two at or above `x`, if it is a number of 64 bits.
fn round_up(x: u64, by: u64) -> Option<u64>
    requires { power_of_two by ≡ true }
    ensures { SomeIff result (round_up x by < 2 ^ 64) (round_up x by) }
{
    let over = remainder(x, by);
    if over == 0 {
        return Some(x);
    }
    x.checked_add(by - over)
}

impl Address {
    // The address `by` further on, which exists.
    pub fn add(self, by: Size) -> Address
        requires { self.0 + by.0 < 18446744073709551616 }
        ensures { result.0 ≡ self.0 + by.0 }
    {
        Address(self.0 + by.0)
    }

    // The address `by` further back, which exists.
    pub fn sub(self, by: Size) -> Address
        requires { by.0 ≤ self.0 }
        ensures { result.0 ≡ self.0 - by.0 }
    {
        Address(self.0 - by.0)
    }

    // How far it lies above `base`, which is no higher.
    pub fn offset_from(self, base: Address) -> Size
        requires { base.0 ≤ self.0 }
        ensures { result.0 ≡ self.0 - base.0 }
    {
        Size(self.0 - base.0)
    }

    // The address `by` further on, if it exists.
    pub fn plus(self, by: Size) -> Option<Address>
        ensures { result ≡ address (self.0 + by.0) }
    {
        Some(Address(self.0.checked_add(by.0)?))
    }

    // The address `by` further back, if it exists.
    pub fn minus(self, by: Size) -> Option<Address>
        ensures { result ≡ difference self.0 by.0 }
    {
        Some(Address(self.0.checked_sub(by.0)?))
    }

    // The lowest multiple of `by`, a power of two, at or above.
    pub fn up(self, by: Size) -> Option<Address>
        requires { power_of_two by.0 ≡ true }
        ensures { result ≡ address (round_up self.0 by.0) }
    {
        Some(Address(round_up(self.0, by.0)?))
    }

    // The highest multiple of `by`, a power of two, at or below.
    pub fn down(self, by: Size) -> Address
        requires { power_of_two by.0 ≡ true }
        ensures { result.0 ≡ round_down self.0 by.0 }
    {
        Address(round_down(self.0, by.0))
    }

    // The higher of the two. By hand: with that of the derived order, which goes by `cmp`, the walks of a search take up to a quarter longer.
    pub fn max(self, other: Address) -> Address
        ensures { result.0 ≡ max self.0 other.0 }
    {
        if self.0 < other.0 { other } else { self }
    }

    // The lower of the two.
    // By hand, as `max` is.
    pub fn min(self, other: Address) -> Address
        ensures { result.0 ≡ min self.0 other.0 }
    {
        if self.0 < other.0 { self } else { other }
    }
}

// Sums and rounding as of addresses, on the other type: a trait for both, with a law for each, would be longer than these lines.
impl Size {
    // Both together, which is a size.
    pub fn add(self, more: Size) -> Size
        requires { self.0 + more.0 < 18446744073709551616 }
        ensures { result.0 ≡ self.0 + more.0 }
    {
        Size(self.0 + more.0)
    }

    // What is left of it without `less`, which is no larger.
    pub fn sub(self, less: Size) -> Size
        requires { less.0 ≤ self.0 }
        ensures { result.0 ≡ self.0 - less.0 }
    {
        Size(self.0 - less.0)
    }

    // Both together, if that is a size.
    pub fn plus(self, more: Size) -> Option<Size>
        ensures { result ≡ size (self.0 + more.0) }
    {
        Some(Size(self.0.checked_add(more.0)?))
    }

    // The least multiple of `by` that is no less.
    pub fn up(self, by: Size) -> Option<Size>
        requires { power_of_two by.0 ≡ true }
        ensures { result ≡ size (round_up self.0 by.0) }
    {
        Some(Size(round_up(self.0, by.0)?))
    }

    // The greatest multiple of `by` that is no more.
    pub fn down(self, by: Size) -> Size
        requires { power_of_two by.0 ≡ true }
        ensures { result.0 ≡ round_down self.0 by.0 }
    {
        Size(round_down(self.0, by.0))
    }

    // Whether an alignment of this many bytes is a power of two.
    pub fn power_of_two(self) -> bool
        ensures { result ≡ power_of_two self.0 }
    {
        self.0.is_power_of_two()
    }
}
