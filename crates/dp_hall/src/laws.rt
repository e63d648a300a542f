//! Laws of halls, each the contract of a function that does nothing.

ghost use Rattle.std.specs.Prelude.{◌≡◌, ◌≤◌, ℕ, List, [], ◌∷◌, ◌++◌, length, Bool, Result};
ghost use Rattle.std.specs.declared.alloc.AllocError.{AllocError};
ghost use Rattle.dp_hall.specs.declared.view.Entry.{Entry as Noted};
ghost use Rattle.dp_hall.specs.declared.view.View.{View as Known};
ghost use Rattle.dp_hall.specs.Calls.{IsSound, Acts, ActsEach, Asks, SplitsInto};
ghost use Rattle.dp_hall.specs.Calls.{JoinsInto, IsAlone, Closes};
ghost use Rattle.dp_hall.specs.declared.listener.Acted.{Acted as Came};
ghost use Rattle.dp_hall.specs.Rule.{first_view};
ghost use Rattle.dp_hall.specs.Laws.{Continues, Rejoins, AllBackBut, entry_count};

use crate::hall::Hall;
use crate::seat::Seat;
use dp_machine::Machine;

/// What is true of each seat.
pub fn seats_are_sound<M: Machine>(seat: &Seat<M>)
    ensures { IsSound M.may_step seat.now.view }
{
    let _ = &seat.token;
}

/// What several calls of one seat make of its view.
pub fn calls_add_up<E, O, M>()
    ensures none { (v : Known E O M) → Continues v [] v }
    ensures act { (v w : Known E O M) (event : E) (outcome : O) (act : Acts v event outcome w)
        → Continues v (act.entry ∷ []) w }
    ensures each { (v w : Known E O M) (follows : O → Bool) (events : List E) (acted : Came O)
        (acts : ActsEach follows v events acted w) → Continues v acts.entries w }
    ensures ask { (v w : Known E O M) → Asks v w → Continues v [] w }
    ensures count { (v : Known E O M) (n : ℕ) → v.known ≤ n
        → Continues v [] (record v { known = n }) }
    ensures both { (u v w : Known E O M) (xs ys : List (Noted E O M))
        → Continues u xs v → Continues v ys w → Continues u (xs ++ ys) w }
{}

/// What a split, calls of both seats and their join make of a view.
pub fn seats_rejoin<E, O, M>()
    ensures { (v first second one two w : Known E O M) (xs ys : List (Noted E O M))
        → SplitsInto v first second → Continues first xs one → Continues second ys two
        → JoinsInto one two w → Rejoins v xs ys w }
{}

/// Which seats are still to be joined, so that the hall may be closed.
pub fn seats_come_back<E, O, M>()
    ensures start { (m : M) → AllBackBut [] (first_view {E = E} {O = O} m) }
    ensures calls { (v w : Known E O M) (xs : List (Noted E O M)) (out : List (List ℕ))
        → AllBackBut out v → Continues v xs w → AllBackBut out w }
    ensures split { (v stays given : Known E O M) (out : List (List ℕ))
        → AllBackBut out v → SplitsInto v stays given → AllBackBut (given.name ∷ out) stays }
    ensures given { (v stays given : Known E O M) → SplitsInto v stays given → AllBackBut [] given }
    ensures join { (v w both : Known E O M) (out : List (List ℕ))
        → AllBackBut (w.name ∷ out) v → AllBackBut [] w → JoinsInto v w both
        → AllBackBut out both }
    ensures pair { (v w : Known E O M) (xs ys : List (Noted E O M)) (out : List (List ℕ))
        → AllBackBut out v → Rejoins v xs ys w → AllBackBut out w }
    ensures close { (v : Known E O M) → v.name ≡ [] → AllBackBut [] v → IsAlone v }
{}

/// The log has as many entries as the seats.
pub fn entries_add_up<M: Machine>()
    ensures { (start left : M) (v : Known M.Event (Result M.Reply AllocError) M)
        (closed : Closes M.may_step start v left) → length closed.log ≡ entry_count v }
{}

/// What is moved to another thread.
fn crosses<T: Send>() {}

/// What threads share.
fn shares<T: Sync>() {}

/// A hall may be shared, and its seats may cross threads, if the machine may.
pub fn halls_cross_threads<M: Machine + Send>() {
    crosses::<Seat<M>>();
    shares::<Hall<M>>();
}
