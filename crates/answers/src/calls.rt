// The calls of the index, and accesses to its store, with their answers.
ghost use Rattle.std.specs.Prelude.{◌≡◌, IfOk, OnErr};
ghost use Rattle.index.specs.Model.{told};
ghost use Rattle.index.specs.Model.Call.{opens};
ghost use Rattle.index.specs.View.{view};
ghost use Rattle.answers.specs.Calls.{call_of, Lending, Steps, Carried, Accessed};

use crate::answer::Answer;
use faults::fault::Fault;
use index::index::Index;
use layout::visit::Visit;
use orders::order::PointOrder;
use orders::point::Point;
use pages::store::PageStore;
use script::call::{Access, IndexCall, Search};
use searches::find::Find;
use std::alloc::{AllocError, Global};

// An opening takes no more records than this, whatever it is lent.
const MOST_WORK: u32 = 64;

// Opens with so many work records. From 64 on every number of records gives the same answer, so no more than 64 are lent.
fn open<S: PageStore, O: PointOrder>(
    heap: Global,
    index: &mut Index<S, O>,
    records: u32,
) -> Result<Result<(), Fault>, AllocError>
    ensures done { IfOk result (λ r. Steps (O.PointOrder.meaning index.old.order) (view S.PageStore.meaning index.old) (told r) (view S.PageStore.meaning index.new) (opens records)) }
    ensures short { OnErr result (index.new ≡ index.old) }
    ensures order { index.new.order ≡ index.old.order }
{
    let mut work = vec![in heap; Visit::default(); records.min(MOST_WORK) as usize]?;
    Ok(index.open(work.as_mut_slice()))
}

// A tree has no more points with events than this: ten in each of its 1,024 pages.
const MOST_FINDS: u32 = 10240;

const NO_FIND: Find = Find {
    address: 0,
    point: Point { coords: [0; 4] },
    count: 0,
};

// Searches with room for so many finds. From 10,240 on every room gives the same answer, so no more is lent.
fn search<S: PageStore, O: PointOrder>(
    heap: Global,
    index: &mut Index<S, O>,
    asked: Search,
    n: u8,
) -> Result<Answer, AllocError>
    ensures done { IfOk result (λ answer. Carried (O.PointOrder.meaning index.old.order) n (view S.PageStore.meaning index.old) answer (view S.PageStore.meaning index.new) (call_of (IndexCall.Search asked))) }
    ensures short { OnErr result (index.new ≡ index.old) }
    ensures order { index.new.order ≡ index.old.order }
{
    let mut finds = vec![in heap; NO_FIND; asked.room.min(MOST_FINDS) as usize]?;
    match index.search(&asked.query, asked.start, finds.as_mut_slice()) {
        Ok(found) => {
            finds.truncate(found.count);
            Ok(Answer::Found(found, finds, n))
        }
        Err(fault) => Ok(Answer::Refused(fault)),
    }
}

// Carries out a call of the index, in a space of n coordinates.
pub fn call<S: PageStore, O: PointOrder>(
    heap: Global,
    index: &mut Index<S, O>,
    call: IndexCall,
    n: u8,
) -> Result<Answer, AllocError>
    ensures done { IfOk result (λ answer. Carried (O.PointOrder.meaning index.old.order) n (view S.PageStore.meaning index.old) answer (view S.PageStore.meaning index.new) (call_of call)) }
    ensures short { OnErr result (Lending call × (index.new ≡ index.old)) }
    ensures order { index.new.order ≡ index.old.order }
{
    Ok(match call {
        IndexCall::Grant(charge) => {
            index.grant(charge);
            Answer::Ok
        }
        IndexCall::Format => Answer::done(index.format(), Answer::Refused),
        IndexCall::Open(records) => Answer::done(open(heap, index, records)?, Answer::Refused),
        IndexCall::Shut => {
            index.shut();
            Answer::Ok
        }
        IndexCall::Lodge(x) => Answer::done(index.lodge(x), Answer::Refused),
        IndexCall::Withdraw(x) => Answer::done(index.withdraw(x), Answer::Refused),
        IndexCall::Tally(x) => index.tally(x).map_or_else(Answer::Refused, Answer::Count),
        IndexCall::Search(asked) => search(heap, index, asked, n)?,
    })
}

// Accesses a store.
pub fn access<S: PageStore>(store: &mut S, access: Access) -> Answer
    ensures { Accessed (S.meaning store.old) access result (S.meaning store.new) }
{
    match access {
        Access::Read(page) => {
            let mut bytes = [0; 128];
            store
                .read(page, &mut bytes)
                .map_or_else(Answer::Denied, |()| Answer::Page(bytes))
        }
        Access::Write(page, byte) => {
            Answer::done(store.write(page, &[byte; 128]), Answer::Denied)
        }
    }
}
