ghost use Rattle.std.specs.Prelude.{◌≡◌, ℕ, ◌+◌, ◌<◌, ◌≤◌, [], length, ◌≢◌, slice_index, slice_index_or};
ghost use Rattle.records.specs.Chain.{Absent};
ghost use Rattle.records.specs.Free.{numbers};
ghost use Rattle.slots.specs.Slot.{number, slot_at, span};

use crate::row::SlotRow;
use pages::charge::Charge;
use records::free::FreeList;

pub mod access;
pub mod making;

// Pages 1 to `pages` in the first `pages` + 1 of the lent slots. `home` has the slot of each page, or 0, and `free` the free slots.
// An `Option` in place of the 0 would take four bytes for each page, not two.
// A store that was made on a no has no page.
#[derive(Drop)]
pub struct SlotStore<'a> {
    row: SlotRow<'a>,
    home: [u16; 1025],
    free: FreeList,
    pages: u16,
    charge: Charge,
    ghost homes: { length home ≡ 1025 },
    ghost few: { pages ≤ 1024 },
    ghost room: { span pages ≤ length row.slots.now },
    ghost long: { (i : ℕ) → i < span pages → length (slice_index_or row.slots.now i []) ≡ 130 },
    ghost low: { (i : ℕ) → i < span pages → number (slice_index_or row.slots.now i []) ≤ pages },
    ghost placed: { (i : ℕ) → i < span pages → (number (slice_index_or row.slots.now i []) ≢ 0) → slice_index home (number (slice_index_or row.slots.now i [])) ≡ i + 1 },
    ghost homed: { (q : ℕ) → 1 ≤ q → (slice_index home q ≢ 0) → number (slot_at row.slots.now (slice_index home q)) ≡ q },
    ghost reach: { (q : ℕ) → slice_index home q ≤ pages + 1 },
    ghost listed: { (i : ℕ) → i < span pages → number (slice_index_or row.slots.now i []) ≡ 0 → Absent (i + 1) (numbers free) → ⊥ },
    ghost vacant: { (k : ℕ) → k < length (numbers free) → number (slot_at row.slots.now (slice_index (numbers free) k)) ≡ 0 },
    ghost bound: { (k : ℕ) → k < length (numbers free) → slice_index (numbers free) k ≤ pages + 1 },
}
