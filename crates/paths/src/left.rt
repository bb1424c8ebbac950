// What a withdrawal leaves of a page.
ghost use Rattle.std.specs.Prelude.{◌≡◌};
ghost use Rattle.paths.specs.WithdrawRules.{copied_of};

use crate::copied::Copied;
use crate::trade::Trade;
use layout::page_ref::{EMPTY, PageRef};

// Its new page, or none; and the trade so far.
#[derive(Clone, Copy, PartialEq, Eq, Debug)]
pub struct Left {
    pub page: Option<u16>,
    pub trade: Trade,
}

impl Left {
    // What is left of the root of a tree of this height, as an answer.
    pub(crate) fn copied(self, height: u8) -> Copied
        ensures { result ≡ copied_of self height }
    {
        let Left { page, trade } = self;
        let root = page.map_or(
            EMPTY,
            |page| PageRef {
                page,
                level: height,
            },
        );
        Copied { root, trade }
    }
}
