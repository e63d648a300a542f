//! Laws of the definitions. The function does nothing: its contract is the laws.

ghost use Rattle.dp_screen.specs.Due.{ApartIsDueTwice, EchoIsDueOne, MoveIsDueFew};

/// How many commands an act may draw on both boards. An echo that moves no group may draw one, a
/// stranger's command that is apart from the fork's two. One that moves a group may draw as many as
/// there are acts from the point of that group on, and those of the fork.
pub fn few_are_due<Op>()
    ensures echo { EchoIsDueOne Op }
    ensures apart { ApartIsDueTwice Op }
    ensures moved { MoveIsDueFew Op }
{
    dp_rollback::few_are_due::<Op>();
}
