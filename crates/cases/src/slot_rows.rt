// Rows of slots that no slot store is made over.
ghost use Rattle.cases.specs.SlotRows.{Refused};

// A slot number used twice, and one above the pages.
pub fn slot_rows_stand() -> u8
    ensures { Refused }
{
    0
}
