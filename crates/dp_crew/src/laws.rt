//! Laws of crews, each the contract of a function that does nothing.

ghost use Rattle.std.specs.Prelude.{◌≡◌, ℕ, List, [], Result, true, false};
ghost use Rattle.std.specs.declared.alloc.AllocError.{AllocError};
ghost use Rattle.dp_hall.specs.declared.view.View.{View};
ghost use Rattle.dp_hall.specs.Calls.{Closes, IsAlone};
ghost use Rattle.dp_hall.specs.Rule.{first_view};
ghost use Rattle.dp_crew.specs.declared.flags.Flags.{Flags as Noted};
ghost use Rattle.dp_crew.specs.Parts.{Sight, ServesAll};
ghost use Rattle.dp_crew.specs.Gathering.{Gathers, IsFirst};

use crate::Reporting;
use dp_hall::Machine;

/// Once the workers of a crew are joined and their hall is closed, its log is theirs. If memory
/// ran out before there was a hall, none was served.
pub fn crews_add_up<W, M: Machine, R, T, S: Reporting<M, R, T>>()
    ensures first { (m : M)
        → IsFirst (first_view {E = M.Event} {O = Result M.Reply AllocError} m) }
    ensures alone { (see : Sight W R T) (start : M) (most : ℕ)
        (v : View M.Event (Result M.Reply AllocError) M) (old new : List W)
        (reports : List S.Report) (flags : Noted)
        → Gathers S.rules see start most v [] old new reports flags → IsAlone v }
    ensures closed { (see : Sight W R T) (start last : M) (most : ℕ)
        (v : View M.Event (Result M.Reply AllocError) M) (old new : List W)
        (reports : List S.Report) (flags : Noted)
        → S.rules.begins start → Gathers S.rules see start most v [] old new reports flags
        → Closes M.may_step start v last
        → ServesAll S.rules M.may_step see start last most old new reports flags }
    ensures nothing { (see : Sight W R T) (start : M) (most : ℕ) (wires : List W) (flags : Noted)
        → flags.memory ≡ true → flags.fault ≡ false → flags.wire ≡ false
        → ServesAll S.rules M.may_step see start start most wires wires [] flags }
{
    S::reports_go_on();
}
