// Lodge: one event more at a point.
ghost use Rattle.std.specs.Prelude.{◌≡◌};
ghost use Rattle.index.specs.Model.{told};
ghost use Rattle.index.specs.Model.Call.{lodges};
ghost use Rattle.index.specs.Steps.{Step};
ghost use Rattle.index.specs.View.{view};

use crate::index::Index;
use crate::located::located;
use faults::fault::Fault;
use orders::order::PointOrder;
use orders::point::Point;
use pages::store::PageStore;
use paths::lodge::lodge;

impl<S: PageStore, O: PointOrder> Index<S, O> {
    // Beside `withdraw`, which reads alike: one function over both copies would speak of each copy's contract through a closure.
    // Records one event at a point: reads the path, writes its copy to free pages, then the header; only then are the old pages free.
    pub fn lodge(&mut self, x: Point) -> Result<(), Fault>
        ensures step { Step (O.PointOrder.meaning self.old.order) (view S.PageStore.meaning self.old) (told result) (view S.PageStore.meaning self.new) (lodges x.coords) }
        ensures order { self.new.order ≡ self.old.order }
    {
        let Some(tree) = &mut self.tree else {
            return Err(Fault::Shut);
        };
        let address = located(&self.order, x)?;
        let copied = lodge(&mut self.store, tree.root, address, &tree.free)?;
        let total = tree.total.saturating_add(1);
        tree.settle(&mut self.store, &self.order, copied, total)
    }
}
