// Laws of good states.
ghost use Rattle.search_base.specs.Adding.{AddingStaysGood, DerivingStaysGood};
ghost use Rattle.search_base.specs.Laws.{AdvisedStaysPrepared, AskingStaysGood, BeginningIsGood, BoundingStaysGood, LoggedIsReached, NoLinesArePrepared, TurnLinesJoin, TurnLinesKeepOwn};
ghost use Rattle.search_base.specs.Pending.{AddingStaysGoodBut, AskingStaysGoodBut, EndIsGood, GoodButForNone};

use totalizer::{fitting_stays, own_lines_stay, reform_stays};

/// Law: a state has exactly the vectors that its lines have logged.
pub fn logged_is_reached()
    ensures { LoggedIsReached }
{}

/// Law: lines that log nothing and have earned what they learned lead to a good state.
pub fn beginning_is_good()
    ensures { BeginningIsGood }
{}

/// Law: a new proof has such lines.
pub fn no_lines_are_prepared()
    ensures { NoLinesArePrepared }
{}

/// Law: lines that are taken of whoever hands them in leave such lines.
pub fn advised_stays_prepared()
    ensures { AdvisedStaysPrepared }
{}

/// Law: an oracle's call keeps a good state good.
pub fn asking_stays_good()
    ensures { AskingStaysGood }
{
    own_lines_stay();
    fitting_stays();
    reform_stays();
}

/// Law: a bound that is asked for keeps a good state good.
pub fn bounding_stays_good()
    ensures { BoundingStaysGood }
{
    own_lines_stay();
}

/// Law: conservative lines by which no bound changes keep a good state good.
pub fn adding_stays_good()
    ensures { AddingStaysGood }
{
    own_lines_stay();
    fitting_stays();
    reform_stays();
}

/// Law: derived and implied constraints keep a good state good.
pub fn deriving_stays_good()
    ensures { DerivingStaysGood }
{
    own_lines_stay();
    fitting_stays();
    reform_stays();
}

/// Law: the lines of oracles and conservative lines are lines of turns, and may follow each other.
pub fn turn_lines_join()
    ensures { TurnLinesJoin }
{}

/// Law: lines of turns keep what no line has learned.
pub fn turn_lines_keep_own()
    ensures { TurnLinesKeepOwn }
{}

/// Law: a state that is good but for no models is good, and the other way round.
pub fn good_but_for_none()
    ensures { GoodButForNone }
{}

/// Law: conservative lines keep a state good but for some models.
pub fn adding_stays_good_but()
    ensures { AddingStaysGoodBut }
{
    own_lines_stay();
    fitting_stays();
    reform_stays();
}

/// Law: an oracle's call keeps a state good but for some models.
pub fn asking_stays_good_but()
    ensures { AskingStaysGoodBut }
{
    own_lines_stay();
    fitting_stays();
    reform_stays();
}

/// Law: where a kept clause is `0 >= 1`, a state that is good but for some models is good.
pub fn end_is_good()
    ensures { EndIsGood }
{}
