// Taking an index apart.
ghost use Rattle.std.specs.Prelude.{◌≡◌};

use crate::index::Index;
use orders::order::PointOrder;
use pages::store::PageStore;

impl<S: PageStore, O: PointOrder> Index<S, O> {
    // The store and the order again, whether the index is open or shut; what it remembered of the tree is let go.
    pub fn into_parts(self) -> (S, O)
        ensures store { result.0 ≡ self.store }
        ensures order { result.1 ≡ self.order }
    {
        let Index { store, order, .. } = self;
        (store, order)
    }
}
