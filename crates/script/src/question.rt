// The three questions that a script can ask of the order alone, and their answers.
ghost use Rattle.script.specs.Questions.{Answered};

use orders::order::PointOrder;
use orders::point::Point;
use orders::space::QueryBox;

#[derive(Clone, Copy, PartialEq, Eq, Debug)]
pub enum Question {
    // which address has the point?
    AddressOf(Point),
    // which point has the address?
    PointOf(u64),
    // which is the first address of the box at or above this one?
    FirstOf(QueryBox, u64),
}

#[derive(Clone, Copy, PartialEq, Eq, Debug)]
pub enum Answer {
    Address(u64),
    At(Point),
}

// Asks the order; none where no address or point answers.
pub fn ask<O: PointOrder>(order: &O, question: Question) -> Option<Answer>
    ensures { Answered (O.meaning order.now) question result }
{
    match question {
        Question::AddressOf(x) => order.address(x).map(Answer::Address),
        Question::PointOf(a) => order.point(a).map(Answer::At),
        Question::FirstOf(b, from) => order.first(&b, from).map(Answer::Address),
    }
}
