//! The lines of what is fed.

ghost use Rattle.std.specs.Prelude.{◌≡◌, ℕ, ◌+◌, ◌-◌, ◌^◌, ◌<◌, ◌≤◌, ◌∷◌, ◌++◌, [], List, length};
ghost use Rattle.std.specs.Prelude.{IfErr, OnOk};
ghost use Rattle.dp_lines.specs.declared.line.Line.{Line as Given};
ghost use Rattle.dp_lines.specs.Ends.{seen};
ghost use Rattle.dp_lines.specs.Held.{IsInLimit, NextIsLong, ended_from};
ghost use Rattle.dp_line_machine.specs.Ends.{IsOfLines};
ghost use Rattle.dp_line_machine.specs.Moments.{Moment, moment};
ghost use Rattle.dp_script.specs.Progress.{HasDone, IsReading, StopsAfter, StopsIn};

use dp_line_machine::{LineMachine, ScriptEnd, Undone};
use dp_lines::{Line, LineError, Lines, further_step, lines_seen, still_left};

/// Does the line.
pub(crate) fn do_given<O, D, T, M: LineMachine<O, D, T>>(
    machine: &mut M,
    line: &Line,
    output: &mut O,
    draws: &mut D,
    tiles: &mut T,
) -> Result<(), ScriptEnd<M::End>>
    requires ready { M.is_ready machine.old }
    requires fits { IsInLimit line.now }
    ensures ready { OnOk result (M.is_ready machine.new) }
    ensures ok { OnOk result ((start : Moment M O D T) (done : List Given)
        → HasDone M.is_step M.has_done start done
        (moment machine.old output.old draws.old tiles.old)
        → HasDone M.is_step M.has_done start (done ++ line.now ∷ [])
        (moment machine.new output.new draws.new tiles.new)) }
    ensures err { IfErr result (λ end. (start : Moment M O D T) (done : List Given)
        → HasDone M.is_step M.has_done start done
        (moment machine.old output.old draws.old tiles.old)
        → StopsAfter M.is_step M.has_done M.has_ended done line.now start
        (moment machine.new output.new draws.new tiles.new) end) }
    ensures of_lines { IfErr result IsOfLines }
{
    further_step::<M>();
    match machine.do_line(line, output, draws, tiles) {
        Ok(()) => Ok(()),
        Err(Undone::NoStep) => Err(ScriptEnd::BadLine(line.number)),
        Err(Undone::Ended(end)) => Err(ScriptEnd::Ended(end)),
    }
}

/// Feeds the piece, and does each line that has its newline with it.
pub(crate) fn do_piece<O, D, T, M: LineMachine<O, D, T>>(
    lines: &mut Lines,
    machine: &mut M,
    piece: &[u8],
    output: &mut O,
    draws: &mut D,
    tiles: &mut T,
) -> Result<(), ScriptEnd<M::End>>
    requires ready { M.is_ready machine.old }
    requires few { lines.old.fed + length piece.now < 2 ^ 32 - 1 }
    ensures ready { OnOk result (M.is_ready machine.new) }
    ensures ok { OnOk result ((start : Moment M O D T) (all : List ℕ)
        → IsReading M.is_step M.has_done all lines.old start
        (moment machine.old output.old draws.old tiles.old)
        → IsReading M.is_step M.has_done (all ++ piece.now) lines.new start
        (moment machine.new output.new draws.new tiles.new)) }
    ensures drained { OnOk result (ended_from lines.new ≡ []) }
    ensures short { OnOk result ((n : ℕ) → ¬ NextIsLong lines.new n) }
    ensures fed { OnOk result (lines.new.fed ≡ lines.old.fed + length piece.now) }
    ensures err { IfErr result (λ end. (start : Moment M O D T) (limit : ℕ) (all more : List ℕ)
        → length (all ++ piece.now) ≤ limit
        → IsReading M.is_step M.has_done all lines.old start
        (moment machine.old output.old draws.old tiles.old)
        → StopsIn M.is_step M.has_done M.has_ended (seen limit (all ++ piece.now ++ more)) start
        (moment machine.new output.new draws.new tiles.new) end) }
    ensures of_lines { IfErr result IsOfLines }
{
    still_left();
    lines_seen();
    let Ok(()) = lines.feed(piece) else {
        return Err(ScriptEnd::Memory);
    };
    do_held(lines, machine, output, draws, tiles)
}

/// Does each line that is held with its newline.
fn do_held<O, D, T, M: LineMachine<O, D, T>>(
    lines: &mut Lines,
    machine: &mut M,
    output: &mut O,
    draws: &mut D,
    tiles: &mut T,
) -> Result<(), ScriptEnd<M::End>>
    requires { M.is_ready machine.old }
    ensures ready { OnOk result (M.is_ready machine.new) }
    ensures ok { OnOk result ((start : Moment M O D T) (all : List ℕ)
        → IsReading M.is_step M.has_done all lines.old start
        (moment machine.old output.old draws.old tiles.old)
        → IsReading M.is_step M.has_done all lines.new start
        (moment machine.new output.new draws.new tiles.new)) }
    ensures drained { OnOk result (ended_from lines.new ≡ []) }
    ensures short { OnOk result ((n : ℕ) → ¬ NextIsLong lines.new n) }
    ensures fed { OnOk result (lines.new.fed ≡ lines.old.fed) }
    ensures err { IfErr result (λ end. (start : Moment M O D T) (limit : ℕ) (all more : List ℕ)
        → length all ≤ limit
        → IsReading M.is_step M.has_done all lines.old start
        (moment machine.old output.old draws.old tiles.old)
        → StopsIn M.is_step M.has_done M.has_ended (seen limit (all ++ more)) start
        (moment machine.new output.new draws.new tiles.new) end) }
    ensures of_lines { IfErr result IsOfLines }
{
    still_left();
    lines_seen();
    'held: loop {
        match lines.next_line() {
            Ok(Some(line)) => do_given(machine, &line, output, draws, tiles)?,
            Ok(None) => return Ok(()),
            Err(LineError::Long(number)) => return Err(ScriptEnd::BadLine(number)),
            Err(LineError::Memory) => return Err(ScriptEnd::Memory),
        }
    }
}
