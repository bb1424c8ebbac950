ghost use Rattle.std.specs.Prelude.{◌≡◌, ℕ, ◌≤◌, length, ◌≢◌, slice_index};
ghost use Rattle.records.specs.Chain.{Chained, Absent, walk};

pub mod methods;
pub mod places;

// Free numbers from 1 to 1,025 in a table of fixed size, as the device has no heap: each is a record with the index of the next; 0 ends the
// chain, and 65,535 stands at a number that is not in it.
#[derive(Drop)]
pub struct FreeList {
    next: [u16; 1026],
    front: u16,
    count: u16,
    ghost long: { length next ≡ 1026 },
    ghost low: { front ≤ 1025 },
    ghost linked: { ∥ Chained next front (walk 1026 next front) ∥₁ },
    ghost counted: { count ≡ length (walk 1026 next front) },
    ghost loose: { (k : ℕ) → k ≤ 1025 → (slice_index next k ≢ 65535) → Absent k (walk 1026 next front) → ⊥ },
}
