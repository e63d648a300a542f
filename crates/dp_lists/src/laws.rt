//! Laws of lists, each the contract of a function that does nothing.

ghost use Rattle.dp_lists.specs.Laws.{NumbersStay, LastIsNext, OthersStay};

/// Items that are numbered from 1 keep their numbers if another is added at the end or takes
/// the place of one of them.
pub fn items_are_numbered<T>()
    ensures stay { NumbersStay T }
    ensures last { LastIsNext T }
    ensures others { OthersStay T }
{}
