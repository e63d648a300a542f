//! What a board is to a client that draws on it and shows it.

ghost use Rattle.std.specs.Prelude.{◌≡◌, IsErrOf, OnOk};
ghost use Rattle.std.specs.Io.KnownBytes.{Appends};
ghost use Rattle.dp_io.specs.Faults.{HasCause};
ghost use Rattle.dp_io.specs.Streams.{GrowsByPrefix};
ghost use Rattle.dp_msg_draw.specs.declared.draw.Draw.{Draw as Command};
ghost use Rattle.dp_pixels.specs.Feet.{are_apart, reach};
ghost use Rattle.dp_plain.specs.Board.{empty_board};
ghost use Rattle.dp_plain.specs.Commands.{draw};
ghost use Rattle.dp_plain.specs.Picture.{p3};
ghost use Rattle.dp_shown.specs.Ends.{is_sink_fault};

use crate::end::PictureEnd;
use dp_blank::BlankBoard;
use dp_board::Board;
use dp_io::Sink;
use dp_msg_draw::Draw;
use dp_plain::BoardView;
use std::alloc::Global;

/// A board on which a client draws, and of which it shows pictures. What it shows is a plain board,
/// on which the same commands are drawn.
pub trait ClientBoard: Board<Op = Draw> + BlankBoard + BoardView {
    /// Writes the picture of the board as a P3 file.
    ///
    /// # Errors
    ///
    /// `Memory` if memory ran out, and `Failed` if the sink failed. A prefix of the file was
    /// written then.
    fn write_picture<O: Sink>(&self, alloc: Global, output: &mut O) -> Result<(), PictureEnd>
        ensures written { OnOk result
            (Appends (O.held output.old) (O.held output.new) (p3 (Self.board self.now))) }
        ensures prefix { GrowsByPrefix (O.held output.old) (O.held output.new)
            (p3 (Self.board self.now)) }
        ensures uncounted { IsErrOf result PictureEnd.Memory
            → O.faults output.new ≡ O.faults output.old }
        ensures cause { HasCause is_sink_fault (O.faults output.old) (O.faults output.new)
            result };

    /// Laws: a blank board shows the empty one, and a command that is drawn is drawn on what is
    /// shown. It makes as many tiles as the command reaches, and commands are apart if their feet
    /// don't meet.
    fn shows()
        ensures blank { Self.board Self.blank ≡ empty_board }
        ensures drawn { (board : Self) (command : Command)
            → Self.board (Self.drawn board command) ≡ draw (Self.board board) command }
        ensures weight { Self.weight ≡ reach }
        ensures apart { Self.are_apart ≡ are_apart };
}
