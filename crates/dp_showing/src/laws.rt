//! Laws of the definitions. The functions do nothing: their contracts are the laws.

ghost use Rattle.std.specs.Prelude.{◌≡◌, ℕ, List};
ghost use Rattle.dp_board.specs.Counts.{CountsFew};
ghost use Rattle.dp_client.specs.Client.{State, confirmed, confirmed_on, view, view_on};
ghost use Rattle.dp_client.specs.Due.{canvas_due, due_on};
ghost use Rattle.dp_messages.specs.declared.message.Entry.{Entry};
ghost use Rattle.dp_msg_draw.specs.declared.draw.Draw.{Draw};
ghost use Rattle.dp_pixels.specs.Feet.{reach};

use dp_shown::ClientBoard;

/// What a client draws is what its definitions say, on whatever board it draws: its boards show its
/// confirmed canvas and its view, and what an entry may draw is due on a canvas.
pub fn clients_show<B: ClientBoard>()
    ensures confirmed { (s : State) → B.board (confirmed_on B.drawn B.blank s) ≡ confirmed s }
    ensures view { (s : State) → B.board (view_on B.drawn B.blank s) ≡ view s }
    ensures counts { (due : List Draw) (draws draws_now tiles tiles_now : ℕ)
        → CountsFew B.weight due draws draws_now tiles tiles_now
        → CountsFew reach due draws draws_now tiles tiles_now }
    ensures takes { (s : State) (entry : Entry) (draws draws_now tiles tiles_now : ℕ)
        → CountsFew B.weight (due_on B.are_apart s entry) draws draws_now tiles tiles_now
        → CountsFew reach (canvas_due s entry) draws draws_now tiles tiles_now }
{
    B::shows();
}
