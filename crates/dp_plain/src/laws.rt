//! Laws of the definitions. Each function does nothing: its contract is the law.

ghost use Rattle.std.specs.Prelude.{◌≡◌, ℕ, List, All, Some, None};
ghost use Rattle.std.specs.List.{fold};
ghost use Rattle.dp_blend.specs.Color.{Channels};
ghost use Rattle.dp_msg_draw.specs.declared.draw.Draw.{Draw};
ghost use Rattle.dp_msg_draw.specs.Payloads.{DrawHasSpelling};
ghost use Rattle.dp_layers.specs.Rows.{content_of, with_content};
ghost use Rattle.dp_pixels.specs.Commands.{pixels_after};
ghost use Rattle.dp_plain.specs.Board.{Board, HasPixels, IsBoard};
ghost use Rattle.dp_plain.specs.Commands.{draw, draw_all, painted_layer};

use dp_pixels::pixels_stay_pixels;

/// On a board that has pixels, a command that has a spelling leaves one that has pixels.
pub fn spelled_commands_keep_pixels()
    ensures { (board : Board) (op : Draw) → DrawHasSpelling op → HasPixels board
        → HasPixels (draw board op) }
{
    pixels_stay_pixels();
}

/// Commands on the pixels of one layer change what that layer holds, and nothing else. If no paint
/// layer has the id, they change nothing.
pub fn runs_change_one_layer()
    ensures present { (board : Board) (id : ℕ) (run : List Draw) (pixels : List Channels)
        → IsBoard board → All (λ c. painted_layer c ≡ Some id) run
        → content_of board.rows id ≡ Some pixels
        → draw_all board run ≡ record board {
          rows = with_content board.rows id
              (fold (λ old c. pixels_after board.width board.height c old) pixels run);
        } }
    ensures absent { (board : Board) (id : ℕ) (run : List Draw) → IsBoard board
        → All (λ c. painted_layer c ≡ Some id) run → content_of board.rows id ≡ None
        → draw_all board run ≡ board }
{}
