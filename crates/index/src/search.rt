// Search: the events of a box.
ghost use Rattle.std.specs.Prelude.{◌≡◌, length};
ghost use Rattle.index.specs.Model.{told_found};
ghost use Rattle.index.specs.Model.Call.{searches as searches_call};
ghost use Rattle.index.specs.Law.{RunLaw};
ghost use Rattle.index.specs.LawEndings.{EndingLaw};
ghost use Rattle.index.specs.Searched.{Lends};
ghost use Rattle.index.specs.Steps.{Step};
ghost use Rattle.index.specs.View.{view};

use crate::head::top_of;
use crate::index::Index;
use crate::located::located;
use faults::fault::Fault;
use orders::order::PointOrder;
use orders::space::QueryBox;
use pages::store::PageStore;
use searches::find::{Find, Found};
use searches::request::Request;
use searches::search::search;

impl<S: PageStore, O: PointOrder> Index<S, O> {
    // Finds the events of a box at or above the address `start`: depth first, parents first and by rising address. Only pages whose region holds an
    // address of the box there are read. The finds go into the lent memory, whose rest stays as it is. It ends done; or more, at the first event without room;
    // or cut, at a page that the charge does not carry. Its law over whole runs is the clause `law`.
    pub fn search(
        &mut self,
        query: &QueryBox,
        start: u64,
        memory: &mut [Find],
    ) -> Result<Found, Fault>
        ensures law { RunLaw (O.PointOrder.meaning self.old.order) (view S.PageStore.meaning self.old) (told_found result memory.new) (view S.PageStore.meaning self.new)
            query.now.low.coords query.now.high.coords start (length memory.old) }
        ensures ending { EndingLaw (O.PointOrder.meaning self.old.order) (view S.PageStore.meaning self.old) (told_found result memory.new) (view S.PageStore.meaning self.new)
            query.now.low.coords query.now.high.coords start (length memory.old) }
        ensures step { Step (O.PointOrder.meaning self.old.order) (view S.PageStore.meaning self.old) (told_found result memory.new) (view S.PageStore.meaning self.new)
            (searches_call query.now.low.coords query.now.high.coords start (length memory.old)) }
        ensures lent { Lends result memory.old memory.new }
        ensures order { self.new.order ≡ self.old.order }
    {
        self.search_tree(query, start, memory)
    }

    // Asks whether the index is open and whether both ends of the box are in the space, and searches the tree.
    fn search_tree(
        &mut self,
        query: &QueryBox,
        start: u64,
        memory: &mut [Find],
    ) -> Result<Found, Fault>
        ensures step { Step (O.PointOrder.meaning self.old.order) (view S.PageStore.meaning self.old) (told_found result memory.new) (view S.PageStore.meaning self.new)
            (searches_call query.now.low.coords query.now.high.coords start (length memory.old)) }
        ensures lent { Lends result memory.old memory.new }
        ensures order { self.new.order ≡ self.old.order }
    {
        let Some(tree) = &self.tree else {
            return Err(Fault::Shut);
        };
        located(&self.order, query.low())?;
        located(&self.order, query.high())?;
        let top = top_of(&self.order);
        let request = Request {
            order: &self.order,
            query,
            start,
        };
        Ok(search(&mut self.store, &request, tree.root, top, memory))
    }
}
