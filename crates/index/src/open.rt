// Open: asks whether the memory holds a sound tree of this order, and leaves the index open on it.
ghost use Rattle.std.specs.Prelude.{◌≡◌, length};
ghost use Rattle.index.specs.Model.{told};
ghost use Rattle.index.specs.Model.Call.{opens};
ghost use Rattle.index.specs.Opening.{Opening};
ghost use Rattle.index.specs.Steps.{Step};
ghost use Rattle.index.specs.View.{view};

use crate::head::{read_head, top_of};
use crate::index::{Index, OpenTree};
use faults::fault::Fault;
use layout::page_ref::PageRef;
use layout::visit::Visit;
use orders::order::PointOrder;
use pages::store::PageStore;
use records::free::FreeList;
use tree::copy_limit::last_usable;
use walks::scan::scan;

impl<S: PageStore, O: PointOrder> Index<S, O> {
    // First shuts the index. Reads page 1 and then every tree page, depth first, parents first and lower regions first, and asks each for the
    // rules of a sound tree. Accepted, the index is open on that tree, with a rising free list of the other usable pages.
    pub fn open(&mut self, work: &mut [Visit]) -> Result<(), Fault>
        ensures step { Step (O.PointOrder.meaning self.old.order) (view S.PageStore.meaning self.old) (told result) (view S.PageStore.meaning self.new) (opens (length work.old)) }
        ensures image { Opening (O.PointOrder.meaning self.old.order) (view S.PageStore.meaning self.old) (length work.old) (told result) (view S.PageStore.meaning self.new) }
        ensures order { self.new.order ≡ self.old.order }
    {
        self.tree = None;
        if work.len() < 64 {
            return Err(Fault::Work);
        }
        let header = read_head(&mut self.store, &self.order)?;
        let last = last_usable(self.store.size());
        let top = top_of(&self.order);
        let mut marks = [false; 1026];
        scan(&mut self.store, last, header, top, work, &mut marks)?;
        self.tree = Some(OpenTree {
            root: PageRef {
                page: header.root,
                level: header.height,
            },
            total: header.total,
            free: FreeList::rising(2, last, &marks),
        });
        Ok(())
    }
}
