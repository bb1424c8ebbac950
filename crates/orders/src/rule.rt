// Orders whose addresses are the bits of the coordinates, dealt out by a rule.
ghost use Rattle.std.specs.Prelude.{◌≡◌, ℕ, ◌+◌, ◌-◌, ◌*◌, ◌/◌, ◌%◌, ◌^◌, ◌<◌, ◌≤◌};
ghost use Rattle.orders.specs.Interleave.{Schedule, point_at, address_of};
ghost use Rattle.orders.specs.Interleaved.{bits_of};
ghost use Rattle.orders.specs.Spaces.{InSpace};
ghost use Rattle.orders.specs.declared.space.Space.{Space};

use crate::space::Space;

// A rule says whose bit comes next, from the top of the address down.
pub trait BitRule {
    ghost kind_of: { Self → ℕ };

    ghost space_of: { Self → Space };

    ghost turn_of: { Self → ℕ → ℕ };

    ghost used_of: { Self → ℕ → ℕ → ℕ };

    fn over(space: Space) -> Self
        ensures { space_of result ≡ space };

    fn kind(&self) -> u8
        ensures { result ≡ kind_of self.now };

    fn space(&self) -> Space
        ensures { result ≡ space_of self.now };

    // how many bits an address has
    final fn bits(&self) -> u32
        ensures all { result ≡ bits_of (space_of self.now) }
        ensures sixty { result ≤ 60 }
    {
        self.space().bits()
    }

    // the coordinate that the bit t of an address, from the top, belongs to; 0 past the last bit
    fn turn(&self, t: u32) -> usize
        ensures dealt { t < bits_of (space_of self.now) → result ≡ turn_of self.now t }
        ensures four { result < 4 };

    ghost kinds: { (s : Self) → (1 ≤ kind_of s) × (kind_of s ≤ 255) };

    ghost deals: { (s : Self) → Schedule (space_of s).n (space_of s).p (turn_of s) (used_of s) };
}

// The address of a point of the space: its bits from the top down, each the next of its coordinate.
pub(crate) fn address_by<R: BitRule>(s: &R, x: [u16; 4]) -> u64
    requires { InSpace (R.space_of s.now).n (R.space_of s.now).p x }
    ensures { result ≡ address_of (R.turn_of s.now) (bits_of (R.space_of s.now)) x }
{
    let mut lacks = s.space().widths();
    let mut a = 0;
    for t in 0..s.bits() {
        let j = s.turn(t);
        lacks[j] -= 1;
        a = a * 2 + ((x[j] >> lacks[j]) % 2) as u64;
    }
    a
}

// The point of an address: its bits from the top down, each put to its coordinate. They are put together in 32 bits: in 16 it takes twice
// the time.
pub(crate) fn point_by<R: BitRule>(s: &R, a: u64) -> [u16; 4]
    ensures { result ≡ point_at (R.turn_of s.now) (bits_of (R.space_of s.now)) a }
{
    let bits = s.bits();
    let mut q = [0u32; 4];
    for t in 0..bits {
        let j = s.turn(t);
        q[j] = q[j] * 2 + ((a >> (bits - 1 - t)) % 2) as u32;
    }
    [q[0] as u16, q[1] as u16, q[2] as u16, q[3] as u16]
}
