//! What a block shows of the machine of holders, as laws: the functions have no body, and their contracts are the laws.
ghost use Rattle.buf_block.specs.BlockView.{MadeWhole, ShowsOk, ShowsOne, SplitIsTheTables, SplitIsStep, LetGoIsStep, ExchangeIsStep, ReadIsStep};
ghost use Rattle.buf_block.specs.BlockLog.{RunsTheMachine, KeepsTheInvariant, DeedTakenAtMostOnce, DeedTakenWhereEmptied};
ghost use Rattle.buf_block.specs.BlockLog.{EmptiedAtTheEnd, NoReadBehindTheDeed, DeedTakenOrDue, HoldersCanLetGo};
ghost use Rattle.buf_block.specs.DeskLog.{ClosesWhole, CanEnd, TakesAsTheMachine, LetsGoAsTheMachine};

/// A block that was just made shows the state of one holder with the whole amount and the deed at home. Between any two
/// steps, whatever the threads do, a block shows at most one state, and the invariant of the machine holds there.
pub fn a_block_shows_one_state()
    ensures made { MadeWhole }
    ensures ok { ShowsOk }
    ensures one { ShowsOne }
{}

/// Each atomic step on a block is one step of the machine: the split of [`take`](crate::Hold::take), the subtraction and
/// the exchange of [`let_go`](crate::Hold::let_go), and a reading of the bytes, which finds the deed at home.
pub fn steps_are_the_machines()
    ensures split_words { SplitIsTheTables }
    ensures split { SplitIsStep }
    ensures let_go { LetGoIsStep }
    ensures exchange { ExchangeIsStep }
    ensures read { ReadIsStep }
{}

/// From the block as it is made, whatever the threads do through its seats and however their steps interleave: the machine
/// that is sent the same events runs to the state that the block shows, the invariant holds there, the deed is taken at
/// most once, and just once exactly where the last seat has the emptied slot. No seat has an amount then, and none reads.
/// Where no seat has an amount, the deed was taken or the last seat can take it, and each seat with an amount can let go.
pub fn any_interleaving_keeps_a_block()
    ensures machine { RunsTheMachine }
    ensures ok { KeepsTheInvariant }
    ensures at_most_once { DeedTakenAtMostOnce }
    ensures exactly_once { DeedTakenWhereEmptied }
    ensures all_gave_back { EmptiedAtTheEnd }
    ensures read { NoReadBehindTheDeed }
    ensures taken_or_due { DeedTakenOrDue }
    ensures can_let_go { HoldersCanLetGo }
{}

/// From the desk as it is opened, whatever calls are made with its passes and however they interleave: where one pass has
/// all units again, as [`close`](unit_pass::Desk::close) asks, no node is live, no hold has any amount of a block, and each
/// block that was made was freed, once. What the calls do to a block is what the machine of holders does.
pub fn a_desk_that_closes_has_freed_its_blocks()
    ensures whole { ClosesWhole }
    ensures can_end { CanEnd }
    ensures take { TakesAsTheMachine }
    ensures let_go { LetsGoAsTheMachine }
{}
