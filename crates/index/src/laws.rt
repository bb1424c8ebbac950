// Laws of the index, each on a contract: what every step does to the counts of points, to the pages and to page 1, and what whole
// histories lead to. The steps are those of the calls' contracts.
ghost use Rattle.index.specs.Histories.{HistoryLaw, TallyLaw, WithdrawalLaw};
ghost use Rattle.index.specs.Law.{SearchLaw};
ghost use Rattle.index.specs.LawsFirst.{FirstLaw};
ghost use Rattle.index.specs.LawsSteps.{AccountsLaw, AnsweredLaw, BlankLaw, CountsLaw, RefusedLaw, StepAccountsLaw};
ghost use Rattle.index.specs.LawsWitness.{WitnessLaw};

// An index over factory-blank memory is kept from the start.
pub fn blank_stands() -> u8
    ensures { BlankLaw }
{
    0
}

// There are kept states with events: an index open on one event, at any point of the space.
pub fn witness_stands() -> u8
    ensures { WitnessLaw }
{
    0
}

// There are histories with events: a format and a lodge that are accepted.
pub fn first_stands() -> u8
    ensures { FirstLaw }
{
    0
}

// Lodge and withdraw change the count of one point by one and of no other; format empties all; nothing else changes a count.
pub fn counts_stands() -> u8
    ensures { CountsLaw }
{
    0
}

// A tally answers the count of its point.
pub fn answered_stands() -> u8
    ensures { AnsweredLaw }
{
    0
}

// Tree and free pages of an open index together number L - 1, each once; a tree with pages leaves six free; events rise.
pub fn accounts_stands() -> u8
    ensures { AccountsLaw }
{
    0
}

// So it is after every step.
pub fn step_accounts_stands() -> u8
    ensures { StepAccountsLaw }
{
    0
}

// A refused call leaves the same tree standing under page 1.
pub fn refused_stands() -> u8
    ensures { RefusedLaw }
{
    0
}

// After every history over factory-blank memory each point has its accepted lodgings less its accepted withdrawals since the last
// accepted format.
pub fn history_stands() -> u8
    ensures { HistoryLaw }
{
    0
}

// So a tally in a history answers what its point holds.
pub fn tally_stands() -> u8
    ensures { TallyLaw }
{
    0
}

// And a withdrawal that is accepted finds an event.
pub fn withdrawal_stands() -> u8
    ensures { WithdrawalLaw }
{
    0
}

// Of every search from address 0 in a history over factory-blank memory: what it finds, what it costs, and what the same search does with less.
pub fn search_stands() -> u8
    ensures { SearchLaw }
{
    0
}
