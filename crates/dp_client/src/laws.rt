//! Laws of the definitions. The functions do nothing: their contracts are the laws.

ghost use Rattle.dp_client.specs.Due.{ApartDrawsTwice, EchoDrawsOne, MoveDrawsFew};
ghost use Rattle.dp_client.specs.Taking.{EntriesAreTaken};

use dp_msg_draw::Draw;

/// What the entry that comes next makes of a client: it joins those that are taken of its epoch, or
/// it is the mark of a later epoch, which the client then enters and acknowledges.
pub fn entries_are_taken()
    ensures { EntriesAreTaken }
{}

/// How many commands an entry may draw on both boards. An echo that moves no group may draw one, a
/// stranger's command that is apart from the fork's two. One that moves a group may draw as many as
/// there are entries from the point of that group on, and those of the fork.
pub fn few_are_due()
    ensures echo { EchoDrawsOne }
    ensures apart { ApartDrawsTwice }
    ensures moved { MoveDrawsFew }
{
    dp_screen::few_are_due::<Draw>();
}
