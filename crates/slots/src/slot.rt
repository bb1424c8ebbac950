ghost use Rattle.std.specs.Prelude.{◌≡◌, length};
ghost use Rattle.slots.specs.Slot.{number, filled, freed};

// The number of a slot.
pub(crate) fn number_of(slot: &[u8; 130]) -> u16
    ensures number { result ≡ number slot.now }
    ensures long { length slot.now ≡ 130 }
{
    u16::from_le_bytes([slot[0], slot[1]])
}

// The slot that holds page `page` of these bytes.
pub(crate) fn slot_of(page: u16, from: &[u8; 128]) -> [u8; 130]
    ensures { result ≡ filled page from.now }
{
    let mut slot = [0; 130];
    slot[..2].copy_from_slice(&page.to_le_bytes());
    slot[2..].copy_from_slice(from);
    slot
}

// A slot made free: it keeps its page, only its number becomes 0.
pub(crate) fn vacated(mut slot: [u8; 130]) -> [u8; 130]
    ensures { result ≡ freed slot }
{
    slot[..2].copy_from_slice(&[0, 0]);
    slot
}
