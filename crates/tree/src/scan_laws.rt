// Theorems about the scan of an opening, each the contract of a function.
ghost use Rattle.tree.specs.ScanLaws.{AcceptedIsSound, SoundIsAccepted, RefusedAtFirstUnsound, FirstUnsoundIsRefused, WrongSumsAreRefused, RefusedIsUnsound, UnchargedAtPage, UnchargedIsShort, ShortIsUncharged, ChargeSuffices, EachReadIsPaid, StackSuffices, ScanEnds, OneSoundTree, ScanExample};

// What is accepted is a sound tree, read page by page, once each.
pub fn accepted_is_sound_stands() -> u8
    ensures { AcceptedIsSound }
{
    0
}

// A sound tree is accepted, with a charge for each of its pages.
pub fn sound_is_accepted_stands() -> u8
    ensures { SoundIsAccepted }
{
    0
}

// A refusal names the first unsound page in visiting order and a rule that it breaks.
pub fn refused_at_first_unsound_stands() -> u8
    ensures { RefusedAtFirstUnsound }
{
    0
}

// The first visit that breaks a rule is refused.
pub fn first_unsound_is_refused_stands() -> u8
    ensures { FirstUnsoundIsRefused }
{
    0
}

// Wrong sums, or too little room, are refused at page 1.
pub fn wrong_sums_are_refused_stands() -> u8
    ensures { WrongSumsAreRefused }
{
    0
}

// Where something is refused no sound tree stands.
pub fn refused_is_unsound_stands() -> u8
    ensures { RefusedIsUnsound }
{
    0
}

// Without charge the scan ends at the page that could not be read.
pub fn uncharged_at_page_stands() -> u8
    ensures { UnchargedAtPage }
{
    0
}

// Then a sound tree has more pages than the charge.
pub fn uncharged_is_short_stands() -> u8
    ensures { UnchargedIsShort }
{
    0
}

// With a charge below a sound tree's pages, the scan ends without charge.
pub fn short_is_uncharged_stands() -> u8
    ensures { ShortIsUncharged }
{
    0
}

// A charge for each page that may be used is enough.
pub fn charge_suffices_stands() -> u8
    ensures { ChargeSuffices }
{
    0
}

// Each page passed takes one charge and is marked once.
pub fn each_read_is_paid_stands() -> u8
    ensures { EachReadIsPaid }
{
    0
}

// Up to height 6 the stack needs at most 64 records.
pub fn stack_suffices_stands() -> u8
    ensures { StackSuffices }
{
    0
}

// The scan ends.
pub fn scan_ends_stands() -> u8
    ensures { ScanEnds }
{
    0
}

// At most one sound tree stands for a header.
pub fn one_sound_tree_stands() -> u8
    ensures { OneSoundTree }
{
    0
}

// A small memory opens; with a wrong total, or a page reached twice, it is refused.
pub fn scan_example_stands() -> u8
    ensures { ScanExample }
{
    0
}
