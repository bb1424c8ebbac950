// The calls that touch no tree page: making an index, format, shut and grant.
ghost use Rattle.std.specs.Prelude.{◌≡◌};
ghost use Rattle.index.specs.Model.{state, told};
ghost use Rattle.index.specs.Model.Answer.{accepted};
ghost use Rattle.index.specs.Model.Known.{shut as is_shut};
ghost use Rattle.index.specs.Model.Call.{formats, shuts, grants};
ghost use Rattle.index.specs.Steps.{Step};
ghost use Rattle.index.specs.View.{view};

use crate::head::write_head;
use crate::index::{Index, OpenTree};
use faults::fault::Fault;
use layout::page_ref::EMPTY;
use orders::order::PointOrder;
use pages::store::PageStore;
use records::free::FreeList;
use tree::copy_limit::last_usable;

impl<S: PageStore, O: PointOrder> Index<S, O> {
    // An index is made shut, over a store and an order.
    pub fn new(store: S, order: O) -> Index<S, O>
        ensures made { view S.PageStore.meaning result ≡ state (S.PageStore.meaning store) is_shut }
        ensures order { result.order ≡ order }
    {
        Index {
            store,
            order,
            tree: None,
        }
    }

    // Writes an empty header and leaves the index open on no tree, with all usable pages free.
    pub fn format(&mut self) -> Result<(), Fault>
        ensures step { Step (O.PointOrder.meaning self.old.order) (view S.PageStore.meaning self.old) (told result) (view S.PageStore.meaning self.new) formats }
        ensures order { self.new.order ≡ self.old.order }
    {
        let last = last_usable(self.store.size());
        write_head(&mut self.store, &self.order, EMPTY, 0)?;
        self.tree = Some(OpenTree {
            root: EMPTY,
            total: 0,
            free: FreeList::rising(2, last, &[false; 1026]),
        });
        Ok(())
    }

    // Leaves the index shut; spends nothing.
    pub fn shut(&mut self)
        ensures step { Step (O.PointOrder.meaning self.old.order) (view S.PageStore.meaning self.old) accepted (view S.PageStore.meaning self.new) shuts }
        ensures order { self.new.order ≡ self.old.order }
    {
        // an index that is shut already costs nothing
        if self.tree.is_some() {
            self.tree = None;
        }
    }

    // Sets the store's charge: the number of page accesses that the cell carries.
    pub fn grant(&mut self, charge: u32)
        ensures step { Step (O.PointOrder.meaning self.old.order) (view S.PageStore.meaning self.old) accepted (view S.PageStore.meaning self.new) (grants charge) }
        ensures order { self.new.order ≡ self.old.order }
    {
        self.store.grant(charge);
    }
}
