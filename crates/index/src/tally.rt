// Tally: how many events a point has.
ghost use Rattle.std.specs.Prelude.{◌≡◌};
ghost use Rattle.index.specs.Model.{told_count};
ghost use Rattle.index.specs.Model.Call.{tallies};
ghost use Rattle.index.specs.Steps.{Step};
ghost use Rattle.index.specs.View.{view};

use crate::index::Index;
use crate::located::located;
use faults::fault::Fault;
use orders::order::PointOrder;
use orders::point::Point;
use pages::store::PageStore;
use paths::tally::tally;

impl<S: PageStore, O: PointOrder> Index<S, O> {
    // Reads the path and answers the point's count, or 0.
    pub fn tally(&mut self, x: Point) -> Result<u16, Fault>
        ensures step { Step (O.PointOrder.meaning self.old.order) (view S.PageStore.meaning self.old) (told_count result) (view S.PageStore.meaning self.new) (tallies x.coords) }
        ensures order { self.new.order ≡ self.old.order }
    {
        let Some(tree) = &self.tree else {
            return Err(Fault::Shut);
        };
        let address = located(&self.order, x)?;
        tally(&mut self.store, tree.root, address)
    }
}
