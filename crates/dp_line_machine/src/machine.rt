//! What does lines.

use dp_io::Source;
use dp_lines::{Line, StepRule};
use std::alloc::Global;

/// Why a line isn't done.
#[derive(Drop, Debug)]
pub enum Undone<E> {
    /// It is no step there. Nothing has changed outside.
    NoStep,
    /// It ended the run so.
    Ended(E),
}

/// How a run over the lines of a source ends.
#[derive(Drop, Debug)]
pub enum ScriptEnd<E> {
    /// The input was read to its end, and all lines are done.
    Done,
    /// The line of this number is no step.
    BadLine(u32),
    /// The input failed.
    ReadFault,
    /// The input has more bytes than count.
    Long,
    /// Memory ran out before a line was done.
    Memory,
    /// A line ended the run so.
    Ended(E),
}

/// What does the lines of a source, with an output and counters that are handed to it. Links are
/// its own.
pub trait LineMachine<O, D, T>: StepRule {
    ghost use Rattle.std.specs.Prelude.{◌∷◌, ◌++◌, [], List, OnOk, IfErr};
    ghost use Rattle.dp_lines.specs.declared.line.Line.{Line as Given};
    ghost use Rattle.dp_lines.specs.Held.{IsInLimit};
    ghost use Rattle.dp_line_machine.specs.Moments.{Moment, moment};
    ghost use Rattle.dp_line_machine.specs.Ends.{IfNoStep, IfEnded};

    /// How a line ends a run.
    type End;

    /// The machine may do a line.
    ghost is_ready: { Self → Type 0 };

    /// From the first moment to the second one these lines were done.
    ghost has_done: { Moment Self O D T → List Given → Moment Self O D T → Type 0 };

    /// From the first moment these lines were done, and at the second one the next line had ended
    /// the run so.
    ghost has_ended: { Moment Self O D T → List Given → Given → Moment Self O D T → Self.End
        → Type 0 };

    /// Does the line.
    ///
    /// # Errors
    ///
    /// `NoStep` if the line is no step after the lines that were done, `Ended` if it ends the
    /// run.
    fn do_line(
        &mut self,
        line: &Line,
        output: &mut O,
        draws: &mut D,
        tiles: &mut T,
    ) -> Result<(), Undone<Self::End>>
        requires ready { is_ready self.old }
        requires fits { IsInLimit line.now }
        ensures ready { OnOk result (is_ready self.new) }
        ensures step { OnOk result ((start : Moment Self O D T) (done : List Given)
            → has_done start done (moment self.old output.old draws.old tiles.old)
            → Self.is_step done line.now) }
        ensures done { OnOk result ((start : Moment Self O D T) (done : List Given)
            → has_done start done (moment self.old output.old draws.old tiles.old)
            → has_done start (done ++ line.now ∷ [])
            (moment self.new output.new draws.new tiles.new)) }
        ensures refused { IfErr result (IfNoStep ((start : Moment Self O D T) (done : List Given)
            → has_done start done (moment self.old output.old draws.old tiles.old)
            → ¬ Self.is_step done line.now)) }
        ensures kept { IfErr result (IfNoStep ((start : Moment Self O D T) (done : List Given)
            → has_done start done (moment self.old output.old draws.old tiles.old)
            → has_done start done (moment self.new output.new draws.new tiles.new))) }
        ensures ended { IfErr result (IfEnded (λ end.
            (start : Moment Self O D T) (done : List Given)
            → has_done start done (moment self.old output.old draws.old tiles.old)
            → has_ended start done line.now
            (moment self.new output.new draws.new tiles.new) end)) };
}

/// Has machines do the lines of a source.
pub trait LineRunner {
    ghost use Rattle.std.specs.Prelude.{◌-◌, ◌^◌, ◌<◌, ◌≤◌, [], IfSome};
    ghost use Rattle.dp_lines.specs.TakenParts.{TookWithin};
    ghost use Rattle.dp_line_machine.specs.Ends.{FaultMatchesInput};
    ghost use Rattle.dp_line_machine.specs.Leaves.{HoldsNoCause, ScriptLeaves};
    ghost use Rattle.dp_line_machine.specs.Moments.{moment};

    /// Reads the lines of the input, of which `limit` bytes count, and has the machine do them one
    /// after the other. All lines that are whole in a piece are done before the next piece is
    /// read. A piece has at most 4096 bytes.
    ///
    /// # Errors
    ///
    /// It ends with `BadLine` at the first line that is no step. It ends with `Long` if the input
    /// has more bytes than count, and with `ReadFault` if it failed. It ends with `Memory` if
    /// memory ran out for a line, and with `Ended` if a line ended the run.
    ///
    /// The rule: docs/protocol.md, "Lines".
    fn run_lines<I: Source, O, D, T, M: LineMachine<O, D, T>>(
        alloc: Global,
        limit: usize,
        input: &mut I,
        machine: &mut M,
        output: &mut O,
        draws: &mut D,
        tiles: &mut T,
    ) -> ScriptEnd<M::End>
        requires few { limit < 2 ^ 32 - 1 }
        requires ready { M.is_ready machine.old }
        requires first { M.has_done (moment machine.old output.old draws.old tiles.old) []
            (moment machine.old output.old draws.old tiles.old) }
        ensures leaves { ScriptLeaves M.is_step M.has_done M.has_ended limit
            (I.left input.old) (I.left input.new)
            (moment machine.old output.old draws.old tiles.old)
            (moment machine.new output.new draws.new tiles.new) result }
        ensures took { IfSome (I.left input.old) (λ bytes.
            TookWithin (HoldsNoCause M.is_step limit) 4096 bytes (I.left input.new)) }
        ensures fault { FaultMatchesInput (I.faults input.old) (I.faults input.new) result }
        ensures later { I.faults input.old ≤ I.faults input.new };
}
