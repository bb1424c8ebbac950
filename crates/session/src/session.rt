// What a script has set up beside its store.
ghost use Rattle.std.specs.Prelude.{◌≡◌, None, false, []};
ghost use Rattle.script.specs.declared.setup.OrderKind.TheVariants.{Z};
ghost use Rattle.session.specs.SetUp.{Stands};

use orders::space::Space;
use script::setup::OrderKind;
use std::alloc::Global;

#[derive(Clone, Copy)]
pub struct Chosen {
    pub kind: OrderKind,
    pub space: Space,
}

// The order where no line chose one.
fn default_order() -> Chosen
    ensures { (result.kind ≡ Z) × (result.space.n ≡ 4) × (result.space.p ≡ 15) }
{
    Chosen {
        kind: OrderKind::Z,
        space: Space::new(4, 15).unwrap(),
    }
}

// What is done with the memory after the last line.
#[derive(Drop)]
pub enum Ending {
    Dump,
    // the file's name
    Save(String),
}

#[derive(Drop)]
pub struct Session {
    pub order: Option<Chosen>,
    // whether a line has called something
    pub called: bool,
    pub endings: Vec<Ending>,
}

impl Session {
    pub fn new(heap: Global) -> Session
        ensures { (result.order ≡ None) × (result.called ≡ false) × (result.endings.items ≡ []) }
    {
        Session {
            order: None,
            called: false,
            endings: Vec::new(heap),
        }
    }

    // The order that stands, or the one that stands where no line chose any.
    pub fn chosen(&self) -> Chosen
        ensures { Stands self.now result }
    {
        self.order.unwrap_or_else(default_order)
    }
}
