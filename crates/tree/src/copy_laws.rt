// Theorems about the path copy: each function states one as its contract, and its body says nothing.
ghost use Rattle.tree.specs.CopyLaws.{LodgeLaw, WithdrawLaw, CountLaw, SumLaw, SortedLaw, GreatestLaw, HeightLaw, NumberLaw, FrameLaw, AgreeLaw, UniqueLaw, SameLaw, TotalLaw, EmptyLaw, OpenedLaw, RangeLaw};
ghost use Rattle.tree.specs.CopyLookup.{FindLaw};
ghost use Rattle.tree.specs.CopyExample.{ElevenLaw};
ghost use Rattle.tree.specs.CopyPages.{PageLaw};
ghost use Rattle.tree.specs.CopyMemory.{MemoryLaw};
ghost use Rattle.tree.specs.CopyPlaces.{InnerEditLaw, LeafEditLaw, LeafCountLaw};
ghost use Rattle.tree.specs.CopyUpdate.{UpdateLaw};
ghost use Rattle.tree.specs.CopyDescent.{DescentLaw, WritesLaw, PathLaw, TallyLaw};

// lodge where k + 6 pages are free: the events, soundness, the free list, the memory
pub fn lodge_stands() -> u8
    ensures { LodgeLaw }
{
    0
}

// the same for withdraw, which always finds pages enough
pub fn withdraw_stands() -> u8
    ensures { WithdrawLaw }
{
    0
}

// both change the count at their address by one and no other
pub fn count_stands() -> u8
    ensures { CountLaw }
{
    0
}

// and the sum of the counts by one
pub fn sum_stands() -> u8
    ensures { SumLaw }
{
    0
}

// the events of a kept state rise strictly
pub fn sorted_stands() -> u8
    ensures { SortedLaw }
{
    0
}

// counts stay within the greatest, where a lodge finds its count below it
pub fn greatest_stands() -> u8
    ensures { GreatestLaw }
{
    0
}

// the heights afterwards: one more where the root splits, 0 where it drops out
pub fn height_stands() -> u8
    ensures { HeightLaw }
{
    0
}

// tree and free pages number limit - 1, and a tree with pages leaves 6 free
pub fn number_stands() -> u8
    ensures { NumberLaw }
{
    0
}

// a tree stands in every memory that agrees on its pages
pub fn frame_stands() -> u8
    ensures { FrameLaw }
{
    0
}

// a state is kept in every memory that agrees on the usable pages
pub fn agree_stands() -> u8
    ensures { AgreeLaw }
{
    0
}

// a memory, a root and a height determine the tree
pub fn unique_stands() -> u8
    ensures { UniqueLaw }
{
    0
}

// at most one tree is kept under a root and a height
pub fn same_stands() -> u8
    ensures { SameLaw }
{
    0
}

// the total of a sound tree fits 32 bits
pub fn total_stands() -> u8
    ensures { TotalLaw }
{
    0
}

// the empty tree with all usable pages free is kept
pub fn empty_stands() -> u8
    ensures { EmptyLaw }
{
    0
}

// a sound tree with all other usable pages free is kept
pub fn opened_stands() -> u8
    ensures { OpenedLaw }
{
    0
}

// tree and free pages are usable ones
pub fn range_stands() -> u8
    ensures { RangeLaw }
{
    0
}

// a lookup down one path finds what all events say
pub fn find_stands() -> u8
    ensures { FindLaw }
{
    0
}

// the addresses 0 to 10 lodged into the empty tree over 16 pages
pub fn example_stands() -> u8
    ensures { ElevenLaw }
{
    0
}

// at an inner page: one child, and an edit of the entries
pub fn page_stands() -> u8
    ensures { PageLaw }
{
    0
}

// the operations on a memory of pages are the tree's, where a tree stands
pub fn memory_stands() -> u8
    ensures { MemoryLaw }
{
    0
}

// the edits of an inner page's entries, by index
pub fn inner_edit_stands() -> u8
    ensures { InnerEditLaw }
{
    0
}

// the edits of a leaf's entries, by index
pub fn leaf_edit_stands() -> u8
    ensures { LeafEditLaw }
{
    0
}

// the count of an address in a leaf, by index
pub fn leaf_count_stands() -> u8
    ensures { LeafCountLaw }
{
    0
}

// a whole operation on memory, root, height and free list is the tree's
pub fn update_stands() -> u8
    ensures { UpdateLaw }
{
    0
}

// what is needed is known at the leaf, before the first write
pub fn descent_stands() -> u8
    ensures { DescentLaw }
{
    0
}

// how many pages are written, over every memory
pub fn writes_stands() -> u8
    ensures { WritesLaw }
{
    0
}

// the pages of a path are as a reader expects them
pub fn path_stands() -> u8
    ensures { PathLaw }
{
    0
}

// the leaf at its end has the address's count
pub fn tally_stands() -> u8
    ensures { TallyLaw }
{
    0
}
