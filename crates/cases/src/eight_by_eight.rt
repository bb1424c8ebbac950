// The 8 x 8 space: two coordinates of three bits. Each function stands for the theorem that its contract states.
ghost use Rattle.cases.specs.EightByEight.{ZAddresses, RowAddresses, BoxAddresses, ZFirsts, RowFirsts, Regions};

// The Z addresses of some points.
pub fn z_addresses_stand() -> u8
    ensures { ZAddresses }
{
    0
}

// The row addresses of some points.
pub fn row_addresses_stand() -> u8
    ensures { RowAddresses }
{
    0
}

// All Z addresses of the box (3,3) to (4,4).
pub fn box_addresses_stand() -> u8
    ensures { BoxAddresses }
{
    0
}

// First Z addresses of that box.
pub fn z_firsts_stand() -> u8
    ensures { ZFirsts }
{
    0
}

// First row addresses of that box.
pub fn row_firsts_stand() -> u8
    ensures { RowFirsts }
{
    0
}

// Regions that meet that box and regions that do not.
pub fn regions_stand() -> u8
    ensures { Regions }
{
    0
}
