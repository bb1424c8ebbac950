ghost use Rattle.std.specs.Prelude.{◌≡◌, ◌-◌, ◌≤◌, length, slice_set};
ghost use Rattle.slots.specs.Slot.{slot_at};

// The lent slots, counted from 1.
#[derive(Drop)]
pub(crate) struct SlotRow<'a> {
    pub(crate) slots: &'a mut [[u8; 130]],
}

impl SlotRow<'_> {
    // The slot `s`.
    pub(crate) fn slot(&self, s: u16) -> [u8; 130]
        requires low { 1 ≤ s }
        requires high { s ≤ length self.now.slots.now }
        ensures { result ≡ slot_at self.now.slots.now s }
    {
        self.slots[s as usize - 1]
    }

    // Replaces the slot `s`.
    pub(crate) fn put(&mut self, s: u16, slot: [u8; 130])
        requires low { 1 ≤ s }
        requires high { s ≤ length self.old.slots.now }
        ensures slots { self.new.slots.now ≡ slice_set self.old.slots.now (s - 1) slot }
        ensures lent { self.new.slots.ghost_name ≡ self.old.slots.ghost_name }
    {
        self.slots[s as usize - 1] = slot;
    }
}
