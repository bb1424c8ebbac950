// A run: calls of the index, one after another.
ghost use Rattle.std.specs.Prelude.{◌≡◌, IfOk};
ghost use Rattle.index.specs.View.{view};
ghost use Rattle.answers.specs.Runs.{Chain, RunsLaw};

use crate::answer::Answer;
use crate::calls::call;
use index::index::Index;
use orders::order::PointOrder;
use pages::store::PageStore;
use script::call::IndexCall;
use std::alloc::{AllocError, Global};

// Carries out the calls one after another, in a space of n coordinates, and gives their answers. The law over whole runs holds of the run:
// it is the clause `law`.
pub fn run<S: PageStore, O: PointOrder>(
    heap: Global,
    index: &mut Index<S, O>,
    calls: &[IndexCall],
    n: u8,
) -> Result<Vec<Answer>, AllocError>
    ensures chain { IfOk result (λ answers. Chain (O.PointOrder.meaning index.old.order) n (view S.PageStore.meaning index.old) calls.now answers.items (view S.PageStore.meaning index.new)) }
    ensures law { IfOk result (λ answers. RunsLaw (O.PointOrder.meaning index.old.order) n (view S.PageStore.meaning index.old) calls.now answers.items (view S.PageStore.meaning index.new)) }
    ensures order { index.new.order ≡ index.old.order }
{
    let mut answers = Vec::new(heap);
    for asked in calls {
        answers.push(call(heap, index, *asked, n)?)?;
    }
    Ok(answers)
}
