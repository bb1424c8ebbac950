// A day in the 8 x 8 space, over any store of 16 pages as it comes from the factory. Each function stands for the theorem that its contract states.
ghost use Rattle.cases.specs.Branch.{Enough, Short};
ghost use Rattle.cases.specs.Readout.{Readouts};

// With a charge of 35: grant, format and eleven lodges are accepted, and the charge is used up.
pub fn eleven_lodged_stand() -> u8
    ensures { Enough }
{
    0
}

// With 34 the eleventh lodge is refused for want of charge, and ten events remain.
pub fn ten_remain_stand() -> u8
    ensures { Short }
{
    0
}

// After the day, searches of the box (2, 0) to (3, 1) with several charges and rooms.
pub fn readouts_stand() -> u8
    ensures { Readouts }
{
    0
}
