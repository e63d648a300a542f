//! The lines of what is left at the end.

ghost use Rattle.std.specs.Prelude.{List, IfErr, OnOk};
ghost use Rattle.dp_lines.specs.declared.line.Line.{Line as Given};
ghost use Rattle.dp_line_machine.specs.Ends.{IsOfLines};
ghost use Rattle.dp_line_machine.specs.Moments.{Moment, moment};
ghost use Rattle.dp_script.specs.Progress.{HasDone, IsEnding, StopsIn};

use crate::held::do_given;
use dp_line_machine::{LineMachine, ScriptEnd};
use dp_lines::{LineError, Lines};

/// Does each line that is left if nothing more is fed.
pub(crate) fn do_rest<O, D, T, M: LineMachine<O, D, T>>(
    lines: &mut Lines,
    machine: &mut M,
    output: &mut O,
    draws: &mut D,
    tiles: &mut T,
) -> Result<(), ScriptEnd<M::End>>
    requires { M.is_ready machine.old }
    ensures ok { OnOk result ((start : Moment M O D T) (whole : List Given)
        → IsEnding M.is_step M.has_done whole lines.old start
        (moment machine.old output.old draws.old tiles.old)
        → HasDone M.is_step M.has_done start whole
        (moment machine.new output.new draws.new tiles.new)) }
    ensures err { IfErr result (λ end. (start : Moment M O D T) (whole : List Given)
        → IsEnding M.is_step M.has_done whole lines.old start
        (moment machine.old output.old draws.old tiles.old)
        → StopsIn M.is_step M.has_done M.has_ended whole start
        (moment machine.new output.new draws.new tiles.new) end) }
    ensures of_lines { IfErr result IsOfLines }
{
    'rest: loop {
        match lines.finish() {
            Ok(Some(line)) => do_given(machine, &line, output, draws, tiles)?,
            Ok(None) => return Ok(()),
            Err(LineError::Long(number)) => return Err(ScriptEnd::BadLine(number)),
            Err(LineError::Memory) => return Err(ScriptEnd::Memory),
        }
    }
}
