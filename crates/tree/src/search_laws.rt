// Theorems about the search of a tree, each the contract of a function that computes nothing.
ghost use Rattle.tree.specs.SearchLaws.{FirstLaw, TestLaw, FindsLaw, RegionsLaw, ReadsLaw, ReadsFromLaw, CountLaw, OnceLaw, DoneLaw, OnlyLaw, AppendLaw, ExactLaw, CutLaw, CutPageLaw, MoreLaw, ResumeLaw, FinishLaw, AgainLaw, ProgressLaw, ProgressMoreLaw, RoundsLaw, WalkLaw, LimitedLaw};
ghost use Rattle.tree.specs.SearchCodeLaws.{PassLaw, UnpaidLaw, LeafLaw, InnerLaw, ChildLaw, LoopBeginLaw, LoopTurnLaw, LoopEndLaw, LoopEarlyLaw, EntryLaw};
ghost use Rattle.tree.specs.SearchExample.{SearchExample};

// `first` is the least address of a region that passes, and `meets` tests that there is one.
pub fn first_stands() -> u8
    ensures first { FirstLaw }
    ensures test { TestLaw }
{
    0
}

// A search finds exactly the box's events at or above its start, rising.
pub fn finds_stands() -> u8
    ensures { FindsLaw }
{
    0
}

// It reads the pages whose region holds an address of the box at or above its start, each once and in visiting order.
pub fn reads_stands() -> u8
    ensures regions { RegionsLaw }
    ensures reads { ReadsLaw }
    ensures reads_from { ReadsFromLaw }
    ensures count { CountLaw }
    ensures once { OnceLaw }
{
    0
}

// With enough charge and room it ends done with all finds, and only so.
pub fn done_stands() -> u8
    ensures done { DoneLaw }
    ensures only { OnlyLaw }
    ensures append { AppendLaw }
    ensures exact { ExactLaw }
{
    0
}

// With less charge and as much room it ends cut, at the first page not paid for; where it ends more, the address is the next event's.
// Either way its finds are a beginning.
pub fn cut_stands() -> u8
    ensures cut { CutLaw }
    ensures cut_page { CutPageLaw }
    ensures more { MoreLaw }
{
    0
}

// Resumed at the address where it stopped, it finds exactly the rest, with no more reads than the whole and one way down read again at most.
pub fn resume_stands() -> u8
    ensures resume { ResumeLaw }
    ensures finish { FinishLaw }
    ensures again { AgainLaw }
{
    0
}

// With charge of at least the height a cut names an address above its start; so search after search ends, with just the finds of one search.
pub fn progress_stands() -> u8
    ensures progress { ProgressLaw }
    ensures progress_more { ProgressMoreLaw }
    ensures rounds { RoundsLaw }
{
    0
}

// The walk that carries one number makes the same steps, and asks for a first address once, and at most once for each leaf that it reads;
// with a charge and room it comes to the run of these steps.
pub fn walk_stands() -> u8
    ensures walk { WalkLaw }
    ensures limited { LimitedLaw }
{
    0
}

// For code: what the walk of one page comes to,
pub fn page_walk_stands() -> u8
    ensures pass { PassLaw }
    ensures unpaid { UnpaidLaw }
    ensures leaf { LeafLaw }
    ensures inner { InnerLaw }
{
    0
}

// the loop over its children,
pub fn child_loop_stands() -> u8
    ensures child { ChildLaw }
    ensures begin { LoopBeginLaw }
    ensures turn { LoopTurnLaw }
    ensures end { LoopEndLaw }
    ensures early { LoopEarlyLaw }
{
    0
}

// and the loop over a leaf's entries.
pub fn entry_loop_stands() -> u8
    ensures { EntryLaw }
{
    0
}

// A small tree, its steps, and what searches of it come to.
pub fn search_example_stands() -> u8
    ensures { SearchExample }
{
    0
}
