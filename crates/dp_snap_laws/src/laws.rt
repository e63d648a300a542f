//! Laws of the definitions. Each function does nothing: its contract is the law.
//!
//! The rule: docs/protocol.md, "Snapshots".

ghost use Rattle.std.specs.Prelude.{◌≡◌, ℕ, List, All};
ghost use Rattle.dp_board.specs.Commands.{all_commands};
ghost use Rattle.dp_board.specs.Laws.{HasNoPoint};
ghost use Rattle.dp_board.specs.Replay.{replay as replay_acts};
ghost use Rattle.dp_board.specs.declared.act.UserAct.{UserAct};
ghost use Rattle.dp_messages.specs.declared.message.Entry.{Entry};
ghost use Rattle.dp_messages.specs.Messages.{HasSpelling};
ghost use Rattle.dp_msg_draw.specs.declared.draw.Draw.{Draw as Message};
ghost use Rattle.dp_plain.specs.Board.{Board, HasPixels, IsBoard, empty_board};
ghost use Rattle.dp_plain.specs.Commands.{draw, draw_all};
ghost use Rattle.dp_replay.specs.Replay.{replay};
ghost use Rattle.dp_snap.specs.Snapshot.{snapshot};
ghost use Rattle.dp_snap.specs.Spelled.{IsSpelled};

use dp_board::{Board as Drawn, prefixes_without_points};
use dp_layered::{PlainBoard, PlainPixels};
use dp_layers::{listed_modes, trees_stay_trees};
use dp_msg_draw::Draw;
use dp_plain::spelled_commands_keep_pixels;

/// On the empty board, a snapshot of a board that has pixels gives that board: drawn one command
/// after the other, and in the replay of each history that has its commands in order and no point.
/// So it is for the board of each history of messages that have a spelling.
pub fn snapshots_replay()
    ensures drawn { (board : Board) → IsBoard board → HasPixels board
        → draw_all empty_board (snapshot board) ≡ board }
    ensures replayed { (board : Board) (depth : ℕ) (acts : List (UserAct Message))
        → IsBoard board → HasPixels board → HasNoPoint acts
        → all_commands acts ≡ snapshot board
        → replay_acts draw empty_board depth acts ≡ board }
    ensures again { (entries : List Entry) → All (λ e. HasSpelling e.msg) entries
        → draw_all empty_board (snapshot (replay entries)) ≡ replay entries }
{
    listed_modes();
    prefixes_without_points::<Draw>();
    replays_are_boards();
    replays_have_pixels();
}

/// What a history replays to is a board.
pub fn replays_are_boards()
    ensures { (entries : List Entry) → IsBoard (replay entries) }
{
    PlainBoard::laws();
    trees_stay_trees::<PlainPixels>();
}

/// What a history of messages that have a spelling replays to has pixels.
pub fn replays_have_pixels()
    ensures { (entries : List Entry) → All (λ e. HasSpelling e.msg) entries
        → HasPixels (replay entries) }
{
    spelled_commands_keep_pixels();
}

/// The snapshot of what a history of messages that have a spelling replays to can be sent: each of
/// its commands has a spelling, as a message of its own and as a part of a reset.
pub fn snapshots_are_spelled()
    ensures { (entries : List Entry) → All (λ e. HasSpelling e.msg) entries
        → All IsSpelled (snapshot (replay entries)) }
{
    replays_are_boards();
    replays_have_pixels();
}
