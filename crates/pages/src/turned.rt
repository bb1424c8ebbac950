ghost use Rattle.std.specs.Prelude.{◌≡◌, map};
ghost use Rattle.pages.specs.Image.{Image, Reads, Writes, granted};
ghost use Rattle.pages.specs.Turn.{turn, turned};
ghost use Rattle.pages.specs.Sizes.{turned_sized};

use crate::fault::StoreFault;
use crate::store::PageStore;

// A layer over any store: byte b is kept below as 255 - b. It has the pages and the charge of the store below.
#[derive(Drop)]
pub struct Turned<S> {
    below: S,
}

// Turns each byte in place; turned again it is as before.
fn turn_all(page: &mut [u8; 128])
    ensures after { page.new ≡ map turn page.old }
    ensures back { map turn page.new ≡ page.old }
{
    for b in page.iter_mut() {
        *b = 255 - *b;
    }
}

impl<S: PageStore> Turned<S> {
    // Puts the layer on a store.
    pub fn over(below: S) -> Turned<S>
        ensures { result.below ≡ below }
    {
        Turned { below }
    }

    // Takes the layer off again.
    pub fn into_below(self) -> S
        ensures { result ≡ self.below }
    {
        let Turned { below } = self;
        below
    }
}

// The clauses `below` say what the store below is asked.
impl<S: PageStore> PageStore for Turned<S> {
    ghost meaning = { λ s. turned (S.PageStore.meaning s.below) };

    ghost sized = { λ s. turned_sized (S.PageStore.meaning s.below) (S.PageStore.sized s.below) };

    fn size(&self) -> u16 {
        self.below.size()
    }

    fn read(&mut self, page: u16, into: &mut [u8; 128]) -> Result<(), StoreFault>
        ensures read { Reads (turned (S.PageStore.meaning self.old.below)) page into.old result (turned (S.PageStore.meaning self.new.below)) into.new }
        ensures below { (S.PageStore.meaning self.new.below).pages ≡ (S.PageStore.meaning self.old.below).pages }
    {
        self.below.read(page, into)?;
        turn_all(into);
        Ok(())
    }

    fn write(&mut self, page: u16, from: &[u8; 128]) -> Result<(), StoreFault>
        ensures write { Writes (turned (S.PageStore.meaning self.old.below)) page from.now result (turned (S.PageStore.meaning self.new.below)) }
        ensures below { Writes (S.PageStore.meaning self.old.below) page (map turn from.now) result (S.PageStore.meaning self.new.below) }
    {
        let mut bytes = *from;
        turn_all(&mut bytes);
        self.below.write(page, &bytes)
    }

    fn grant(&mut self, charge: u32)
        ensures grant { turned (S.PageStore.meaning self.new.below) ≡ granted (turned (S.PageStore.meaning self.old.below)) charge }
        ensures below { S.PageStore.meaning self.new.below ≡ granted (S.PageStore.meaning self.old.below) charge }
    {
        self.below.grant(charge)
    }
}
