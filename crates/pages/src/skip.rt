ghost use Rattle.std.specs.Prelude.{◌≡◌, [], ◌∷◌};
ghost use Rattle.pages.specs.Image.{Image, Reads, Writes, granted};
ghost use Rattle.pages.specs.Skip.{places, Skips};
ghost use Rattle.pages.specs.Table.{seen, WritesBelow, Answers};
ghost use Rattle.pages.specs.Sizes.{seen_sized};

use crate::fault::StoreFault;
use crate::making::MakingFault;
use crate::store::PageStore;
use crate::table::SkipTable;

// A layer over any store that leaves out a list of bad pages: its pages are the others, in their order, numbered from 1, at most 1,024.
#[derive(Drop)]
pub struct Skip<S> {
    below: S,
    table: SkipTable,
}

// The question before the making, of a store of `size` pages: are there 1 to 64 bad numbers, strictly rising, all pages of the store?
pub fn skip_allowed(bad: &[u16], size: u16) -> Result<(), MakingFault>
    ensures { Answers bad.now size result }
{
    SkipTable::without(bad, size)
        .map(|_| ())
        .ok_or(MakingFault::BadPages)
}

// Bad pages 2 and 5 of 6 leave 1, 3, 4, 6.
pub fn skip_stands() -> u8
    ensures { places (2 ∷ 5 ∷ []) 6 ≡ 1 ∷ 3 ∷ 4 ∷ 6 ∷ [] }
{
    0
}

impl<S: PageStore> Skip<S> {
    // Puts the layer on a store. Where the list is not allowed it has no page.
    pub fn over(below: S, bad: &[u16]) -> Skip<S>
        ensures below { result.below ≡ below }
        ensures made { Skips bad.now (S.meaning below) (seen result.table (S.meaning result.below)) }
    {
        let table = SkipTable::without(bad, below.size()).unwrap_or_else(SkipTable::none);
        Skip { below, table }
    }

    // Takes the layer off again.
    pub fn into_below(self) -> S
        ensures { result ≡ self.below }
    {
        let Skip { below, table: _ } = self;
        below
    }
}

// The clauses `table` and `below` say that the layer stays the same and what the store below is asked.
impl<S: PageStore> PageStore for Skip<S> {
    ghost meaning = { λ s. seen s.table (S.PageStore.meaning s.below) };

    ghost sized = { λ s. seen_sized s.table (S.PageStore.meaning s.below) (S.PageStore.sized s.below) };

    fn size(&self) -> u16 {
        self.table.count_over(self.below.size())
    }

    fn read(&mut self, page: u16, into: &mut [u8; 128]) -> Result<(), StoreFault>
        ensures read { Reads (seen self.old.table (S.PageStore.meaning self.old.below)) page into.old result (seen self.new.table (S.PageStore.meaning self.new.below)) into.new }
        ensures table { self.new.table ≡ self.old.table }
        ensures below { (S.PageStore.meaning self.new.below).pages ≡ (S.PageStore.meaning self.old.below).pages }
    {
        let place = self.table.place(page, self.below.size())?;
        self.below.read(place, into)
    }

    fn write(&mut self, page: u16, from: &[u8; 128]) -> Result<(), StoreFault>
        ensures write { Writes (seen self.old.table (S.PageStore.meaning self.old.below)) page from.now result (seen self.new.table (S.PageStore.meaning self.new.below)) }
        ensures table { self.new.table ≡ self.old.table }
        ensures below { WritesBelow self.old.table (S.PageStore.meaning self.old.below) page from.now result (S.PageStore.meaning self.new.below) }
    {
        let place = self.table.place(page, self.below.size())?;
        self.below.write(place, from)
    }

    fn grant(&mut self, charge: u32)
        ensures grant { seen self.new.table (S.PageStore.meaning self.new.below) ≡ granted (seen self.old.table (S.PageStore.meaning self.old.below)) charge }
        ensures table { self.new.table ≡ self.old.table }
        ensures below { S.PageStore.meaning self.new.below ≡ granted (S.PageStore.meaning self.old.below) charge }
    {
        self.below.grant(charge)
    }
}
