// The end of a change of the tree.
ghost use Rattle.index.specs.Head.{WritesHead};
ghost use Rattle.index.specs.Settled.{Renews};

use crate::freed::{give_back, take_used};
use crate::head::write_head;
use crate::index::OpenTree;
use faults::fault::Fault;
use orders::order::PointOrder;
use pages::store::PageStore;
use paths::copied::Copied;

impl OpenTree {
    // Writes the header of the copied tree; then the pages that the copy used are no longer free, the old path's pages are, and the tree is the new one.
    pub(crate) fn settle<S: PageStore, O: PointOrder>(
        &mut self,
        store: &mut S,
        order: &O,
        copied: Copied,
        total: u32,
    ) -> Result<(), Fault>
        ensures header { WritesHead (O.PointOrder.meaning order.now) (S.PageStore.meaning store.old) copied.root.level copied.root.page total result (S.PageStore.meaning store.new) }
        ensures tree { Renews self.old copied total result self.new }
    {
        write_head(store, order, copied.root, total)?;
        take_used(&mut self.free, copied.trade.used);
        give_back(&mut self.free, copied.trade.path.as_slice());
        self.root = copied.root;
        self.total = total;
        Ok(())
    }
}
