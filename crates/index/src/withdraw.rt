// Withdraw: one event less at a point.
ghost use Rattle.std.specs.Prelude.{◌≡◌};
ghost use Rattle.index.specs.Model.{told};
ghost use Rattle.index.specs.Model.Call.{withdraws};
ghost use Rattle.index.specs.Steps.{Step};
ghost use Rattle.index.specs.View.{view};

use crate::index::Index;
use crate::located::located;
use faults::fault::Fault;
use orders::order::PointOrder;
use orders::point::Point;
use pages::store::PageStore;
use paths::withdraw::withdraw;

impl<S: PageStore, O: PointOrder> Index<S, O> {
    // Takes one event back at a point: reads the path, writes what remains of it to free pages, then the header; only then are the old
    // pages free.
    pub fn withdraw(&mut self, x: Point) -> Result<(), Fault>
        ensures step { Step (O.PointOrder.meaning self.old.order) (view S.PageStore.meaning self.old) (told result) (view S.PageStore.meaning self.new) (withdraws x.coords) }
        ensures order { self.new.order ≡ self.old.order }
    {
        let Some(tree) = &mut self.tree else {
            return Err(Fault::Shut);
        };
        let address = located(&self.order, x)?;
        let copied = withdraw(&mut self.store, tree.root, address, &tree.free)?;
        let total = tree.total.saturating_sub(1);
        tree.settle(&mut self.store, &self.order, copied, total)
    }
}
