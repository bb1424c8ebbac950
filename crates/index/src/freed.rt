// The free list after a path copy.
ghost use Rattle.std.specs.Prelude.{◌≡◌, ◌≤◌, drop};
ghost use Rattle.records.specs.Free.{numbers};
ghost use Rattle.index.specs.Freed.{GivenBack};

use records::free::FreeList;

// Takes as many pages from the front as the copy used.
pub(crate) fn take_used(free: &mut FreeList, used: usize)
    ensures { numbers free.new ≡ drop used (numbers free.old) }
{
    for _ in 0..used {
        let _ = free.take_front();
    }
}

// Puts the old path's pages to the front, one after another.
pub(crate) fn give_back(free: &mut FreeList, path: &[u16])
    ensures { GivenBack path.now (numbers free.old) (numbers free.new) }
{
    for &page in path {
        let _ = free.put_front(page);
    }
}
