// One page of a path: read with a check, or written from its entries.
ghost use Rattle.std.specs.Prelude.{◌≤◌, length, IsTrue, ◌↔◌};
ghost use Rattle.layout.specs.Bytes.{content_of};
ghost use Rattle.layout.specs.Content.{Own};
ghost use Rattle.layout.specs.Listed.{entries};
ghost use Rattle.paths.specs.PathsPages.{ReadsPage, WritesPage};

use faults::access::{fetch, put};
use faults::fault::Fault;
use layout::entry::Entry;
use layout::list::EntryList;
use layout::page_ref::PageRef;
use layout::reader::PageReader;
use layout::visit::Rule;
use layout::writer::write_page;
use pages::store::PageStore;

// Whether a page has its own number and level.
fn is_own(bytes: &[u8; 128], at: PageRef) -> bool
    ensures { IsTrue result ↔ (Own at.page at.level (content_of bytes.now)) }
{
    let reader = PageReader::new(bytes);
    reader.number() == at.page && reader.level() == at.level
}

// Fills the lent list with the entries of a page of this level. Refused where the page is not of this number and level (B) or has no
// entries (C).
pub(crate) fn read_page<S: PageStore>(
    store: &mut S,
    at: PageRef,
    list: &mut EntryList,
) -> Result<(), Fault>
    ensures { ReadsPage (S.meaning store.old) at.page at.level result (entries list.new) (S.meaning store.new) }
{
    let mut bytes = [0; 128];
    fetch(store, at, &mut bytes)?;
    if !is_own(&bytes, at) {
        return Err(Fault::Unsound(at.page, Rule::B));
    }
    list.read(&bytes);
    if list.len() == 0 {
        return Err(Fault::Unsound(at.page, Rule::C));
    }
    Ok(())
}

// Writes a page of these entries.
pub(crate) fn write_items<S: PageStore>(
    store: &mut S,
    at: PageRef,
    items: &[Entry],
) -> Result<(), Fault>
    requires { length items.now ≤ 10 }
    ensures { WritesPage (S.meaning store.old) at.level at.page items.now result (S.meaning store.new) }
{
    let mut bytes = [0; 128];
    let _ = write_page(&mut bytes, at.level, at.page, items);
    put(store, at, &bytes)
}
