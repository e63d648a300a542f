//! Laws of the definitions.

ghost use Rattle.dp_board.specs.Laws.{CommandsDoNotCount, EachActHasAFlag};
ghost use Rattle.dp_board.specs.FirstStrokes.{FirstStrokesStay};
ghost use Rattle.dp_board.specs.Laws.{StrokesGoOn, WindowIsOfLastPoints, DepthIsInForce};
ghost use Rattle.dp_board.specs.Laws.{CutOutStaysOut, OthersDoNotCount, PrefixesWithoutPoints};
ghost use Rattle.dp_board.specs.Laws.{GroupsArePoints, MovedIsAPoint};
ghost use Rattle.dp_board.specs.Moves.{FlagsGoOn, FlagsMove, FlagsStayBefore, JoinsComeLater};
ghost use Rattle.dp_board.specs.Moves.{EachActHasAJoin, MovedIsInReach, FinalFlagsStay};
ghost use Rattle.dp_board.specs.Table.{TablesBegin, TablesGoOn, TablesMove, TablesJoin};

/// Which acts are commands that are drawn does not depend on the commands: a history with other
/// commands in place of its own has the same flags.
pub fn commands_do_not_count<A, B>()
    ensures { CommandsDoNotCount A B }
{}

/// A history has a flag for each of its acts.
pub fn each_act_has_a_flag<Op>()
    ensures { EachActHasAFlag Op }
{}

/// An act after a history changes the strokes that the history leaves.
pub fn strokes_go_on<Op>()
    ensures { StrokesGoOn Op }
{}

/// The window after a history that sets no depth has the last points of it, as many as the depth at
/// most.
pub fn window_is_of_last_points<Op>()
    ensures { WindowIsOfLastPoints Op }
{}

/// The depth in force after a history is the last that was set.
pub fn depth_is_in_force<Op>()
    ensures { DepthIsInForce Op }
{}

/// A point that was cut out of the window stays out, whatever depth is set later.
pub fn cut_out_stays_out<Op>()
    ensures { CutOutStaysOut Op }
{}

/// A history that sets no depth has the strokes of the first profile.
pub fn first_strokes_stay<Op>()
    ensures { FirstStrokesStay Op }
{}

/// An act that has no effect on strokes changes nothing of what is drawn, wherever it stands.
pub fn others_do_not_count<Op>()
    ensures { OthersDoNotCount Op }
{}

/// The beginning of a history, if it has no point, is drawn whole. What comes after it is drawn
/// as if it stood alone, from the depth that the beginning leaves.
pub fn prefixes_without_points<Op>()
    ensures { PrefixesWithoutPoints Op }
{}

/// Each group of a user is named by the position of a point of that user, and so is the group that
/// an act moves.
pub fn groups_are_points<Op>()
    ensures groups { GroupsArePoints Op }
    ensures moved { MovedIsAPoint Op }
{}

/// The flags of a history with one more act. If the act moves no group they stay, and the act has
/// the flag true if it is a command. If it moves one, the flags of that group change and no others,
/// and none up to the point of the group.
pub fn flags_go_on<Op>()
    ensures unmoved { FlagsGoOn Op }
    ensures moved { FlagsMove Op }
    ensures before { FlagsStayBefore Op }
{}

/// What an act joins comes before it, and what it moves is in reach.
pub fn groups_come_first<Op>()
    ensures each { EachActHasAJoin Op }
    ensures joined { JoinsComeLater Op }
    ensures moved { MovedIsInReach Op }
{}

/// What can't be undone or brought back any more has its flag in each longer history: a replay may
/// forget how it came to it.
pub fn final_flags_stay<Op>()
    ensures { FinalFlagsStay Op }
{}

/// A table of strokes follows a history act by act, and says what an act that comes next moves and
/// what it joins.
pub fn tables_follow<Op>()
    ensures first { TablesBegin Op }
    ensures next { TablesGoOn Op }
    ensures moved { TablesMove Op }
    ensures joined { TablesJoin Op }
{}
