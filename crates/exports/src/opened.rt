// An index over a store.
ghost use Rattle.std.specs.Prelude.{MatchResult};
ghost use Rattle.exports.specs.Standing.{StandsAt, Unopened};
ghost use Rattle.exports.specs.Batches.{granted, opened};

use index::index::Index;
use layout::visit::Visit;
use orders::order::PointOrder;
use pages::store::PageStore;

// An index, shut, with this charge.
pub(crate) fn shut_index<S: PageStore + Drop, O: PointOrder + Drop>(
    store: S,
    order: O,
    charge: u32,
) -> Index<S, O>
    ensures { StandsAt S.PageStore.meaning O.PointOrder.meaning store order (granted charge) result }
{
    let mut index = Index::new(store, order);
    index.grant(charge);
    index
}

// An index, open; or the number of the refusal.
pub(crate) fn open_index<S: PageStore + Drop, O: PointOrder + Drop>(
    store: S,
    order: O,
    charge: u32,
) -> Result<Index<S, O>, u8>
    ensures { MatchResult result (StandsAt S.PageStore.meaning O.PointOrder.meaning store order (opened charge)) (Unopened (O.PointOrder.meaning order) (S.PageStore.meaning store) charge) }
{
    let mut index = shut_index(store, order, charge);
    let mut work = [Visit::default(); 64];
    match index.open(&mut work) {
        Ok(()) => Ok(index),
        Err(fault) => Err(fault.number()),
    }
}
