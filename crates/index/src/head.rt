// Reading and writing the header.
ghost use Rattle.std.specs.Prelude.{◌≡◌, ◌-◌, ◌<◌, IsTrue, ◌↔◌};
ghost use Rattle.orders.specs.Orders.{size};
ghost use Rattle.index.specs.Head.{ReadsHead, WritesHead};
ghost use Rattle.index.specs.Keeping.{Ours, top};

use faults::access::{fetch, put};
use faults::fault::Fault;
use layout::header::Header;
use layout::page_ref::{HEADER, PageRef};
use orders::order::PointOrder;
use pages::store::PageStore;

// Whether a header is of this order: its kind, n and p.
fn is_ours<O: PointOrder>(order: &O, header: &Header) -> bool
    ensures { IsTrue result ↔ (Ours (O.meaning order.now) header.now) }
{
    header.kind == order.kind() && header.n == order.n() && header.p == order.p()
}

// Reads page 1: a header of this order, or the refusal 8, 9, 10 or 11.
pub(crate) fn read_head<S: PageStore, O: PointOrder>(
    store: &mut S,
    order: &O,
) -> Result<Header, Fault>
    ensures { ReadsHead (O.PointOrder.meaning order.now) (S.PageStore.meaning store.old) result (S.PageStore.meaning store.new) }
{
    let mut page = [0; 128];
    fetch(store, HEADER, &mut page)?;
    let header = Header::try_from(&page)?;
    if !is_ours(order, &header) {
        return Err(Fault::OtherOrder);
    }
    Ok(header)
}

// Writes page 1: the header of a tree of this order, with this root and so many events; or the refusal 8 or 17.
pub(crate) fn write_head<S: PageStore, O: PointOrder>(
    store: &mut S,
    order: &O,
    root: PageRef,
    total: u32,
) -> Result<(), Fault>
    ensures { WritesHead (O.PointOrder.meaning order.now) (S.PageStore.meaning store.old) root.level root.page total result (S.PageStore.meaning store.new) }
{
    let header = Header {
        kind: order.kind(),
        n: order.n(),
        p: order.p(),
        height: root.level,
        root: root.page,
        total,
    };
    put(store, HEADER, &header.into())
}

// The greatest address.
pub(crate) fn top_of<O: PointOrder>(order: &O) -> u64
    ensures { result ≡ top (O.meaning order.now) }
{
    let bits = order.n() as u32 * order.p() as u32;
    (1u64 << bits) - 1
}
