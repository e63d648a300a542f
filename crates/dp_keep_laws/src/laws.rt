//! Laws of the definitions. Each function does nothing but call others: its contract is the law.

ghost use Rattle.std.specs.Prelude.{◌≡◌, ℕ, Some, List, [], ◌∷◌, ◌++◌, take, drop, length};
ghost use Rattle.dp_acl.specs.Opening.{kept_entries, opening};
ghost use Rattle.dp_board.specs.Commands.{drawn_commands};
ghost use Rattle.dp_board.specs.Laws.{depth_after};
ghost use Rattle.dp_messages.specs.declared.message.Entry.{Entry};
ghost use Rattle.dp_msg_draw.specs.declared.draw.Draw.{Draw as Command};
ghost use Rattle.dp_plain.specs.Board.{empty_board};
ghost use Rattle.dp_plain.specs.Commands.{draw, draw_all};
ghost use Rattle.dp_replay.specs.Replay.{replay, replay_from, depth_in_force};
ghost use Rattle.dp_epochs.specs.declared.event.Event.TheVariants.{Say};
ghost use Rattle.dp_epochs.specs.State.{State, after_event};
ghost use Rattle.dp_epochs.specs.Past.{state_after};
ghost use Rattle.dp_keep_laws.specs.Suffixes.{SuffixesStandAlone, SuffixesShowAlone};
ghost use Rattle.dp_keep_laws.specs.Keeping.{MayBeCut, UndoNothing, EndsKeeping, reset_end};
ghost use Rattle.dp_keep_laws.specs.Worked.{keeping_journal, older_stroke, its_undo};

use dp_board::{others_do_not_count, prefixes_without_points};
use dp_msg_draw::Draw;

/// The end of a history that moves no group of before it is drawn as it is by itself. It is drawn
/// on what the history before it showed, from the depth of undo that was in force there.
pub fn suffixes_stand_alone<B, Op>()
    ensures commands { SuffixesStandAlone Op }
    ensures boards { SuffixesShowAlone B Op }
{}

/// An end that moves a group of before it doesn't stand alone: if it undoes an older stroke, the
/// history draws nothing, and its beginning by itself draws the stroke.
pub fn older_undos_count()
    ensures whole { drawn_commands 30 (older_stroke ++ its_undo) ≡ [] }
    ensures apart { drawn_commands 30 older_stroke
        ++ drawn_commands (depth_after 30 older_stroke) its_undo ≡ 7 ∷ [] }
{}

/// What an epoch opens with shows the commands of its reset, drawn in order on the empty board: of
/// the epoch before nothing is seen but what they draw.
pub fn resets_show_their_commands()
    ensures { (epoch : ℕ) (history : List Entry) (present : List ℕ) (commands : List Command)
        → replay (opening epoch history present commands []) ≡ draw_all empty_board commands }
{
    prefixes_without_points::<Draw>();
}

/// An opening followed by more is replayed as what it keeps and those more, on the board that the
/// commands of the reset draw. That begins at the depth of undo that was in force before.
pub fn openings_go_on()
    ensures { (epoch : ℕ) (history : List Entry) (present : List ℕ) (commands : List Command)
        (kept more : List Entry)
        → replay (opening epoch history present commands kept ++ more)
        ≡ replay_from draw (draw_all empty_board commands) (depth_in_force history)
        (kept ++ more) }
{
    prefixes_without_points::<Draw>();
}

/// If a history may be cut at a place, what a reset keeps from there on shows what the history
/// shows. It is drawn on what the history showed at the place. So does each opening of an epoch
/// with these entries whose commands draw that. Both go on so: with more entries they show what the
/// history shows with these.
pub fn kept_entries_show_the_same()
    ensures boards { (history more : List Entry) (place : ℕ) → MayBeCut place history more
        → replay_from draw (replay (take place history)) (depth_in_force history)
        (kept_entries (Some place) history ++ more)
        ≡ replay (history ++ more) }
    ensures openings { (epoch : ℕ) (history more : List Entry) (present : List ℕ)
        (commands : List Command) (place : ℕ) → MayBeCut place history more
        → draw_all empty_board commands ≡ replay (take place history)
        → replay (opening epoch history present commands
        (kept_entries (Some place) history) ++ more)
        ≡ replay (history ++ more) }
{
    others_do_not_count::<Draw>();
    openings_go_on();
}

/// If from a place on nothing was undone or redone, and no depth of undo was set, a history may be
/// cut at the place. So each history may be cut at its end.
pub fn histories_may_be_cut()
    ensures undone { (history more : List Entry) (place : ℕ)
        → UndoNothing (drop place history ++ more) → MayBeCut place history more }
    ensures end { (history : List Entry) → MayBeCut (length history) history [] }
{}

/// A reset that keeps shows the same. The premise: the live history may be cut at the place that
/// the reset names, and its commands draw what the history showed there. Then the history of the
/// next epoch shows what the live history showed. It goes on so: with more entries it shows what
/// the old history would show with these.
pub fn keeping_shows_the_same()
    ensures same { (s : State) (conn place : ℕ) → EndsKeeping s conn place
        → MayBeCut place s.live []
        → replay (after_event s (Say conn reset_end)).live ≡ replay s.live }
    ensures more { (s : State) (conn place : ℕ) (more : List Entry) → EndsKeeping s conn place
        → MayBeCut place s.live more
        → replay ((after_event s (Say conn reset_end)).live ++ more) ≡ replay (s.live ++ more) }
{
    kept_entries_show_the_same();
}

/// There is a session in which the end of a reset keeps, and may: that of the worked example.
pub fn worked_reset_keeps()
    ensures ends { EndsKeeping (state_after keeping_journal []) 1 3 }
    ensures cut { MayBeCut 3 (state_after keeping_journal []).live [] }
{}
