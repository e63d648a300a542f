//! A run of `join` over a link.

ghost use Rattle.std.specs.Prelude.{◌≡◌, ℕ, ◌≤◌, List, length};
ghost use Rattle.std.specs.declared.option.Option.{Option};
ghost use Rattle.dp_messages.specs.declared.message.Entry.{Entry as Item};
ghost use Rattle.dp_line_machine.specs.Counters.{counters};
ghost use Rattle.dp_joining.specs.Leaves.{FaultMatchesJoin, IsWelcome, JoinLeaves, ReadsNoFurther};
ghost use Rattle.dp_joining.specs.Leaves.{WaitsUnread};
ghost use Rattle.dp_joining.specs.Partings.{TakesLeave};
ghost use Rattle.dp_joiner.specs.Steps.{IsReady, Seen, seen};

use crate::machine::JoinMachine;
use dp_io::{Sink, Source};
use dp_join_link::JoinStop;
use dp_joiner::{Joiner, greet};
use dp_line_machine::{LineRunner, ScriptEnd};
use dp_lines::{RunEnd, further_step, whole_lines};
use dp_msg_meta::Text;
use dp_shown::ClientBoard;
use dp_steps::Steps;
use std::alloc::Global;
use std::sync::ledger::Ledger;

/// How many bytes of a script count: 64 MiB.
const SCRIPT_LIMIT: usize = 1 << 26;

/// How a run over a link has ended, and the link.
#[derive(Drop)]
pub struct Joined<R, S> {
    pub end: RunEnd,
    pub rx: R,
    pub tx: S,
}

/// Greets the server at the other end of a link by a name of at most 32 bytes. Then it does the
/// lines of a script, one after the other. The client draws on boards of the type `B`, and the
/// script is read by `L`. What a line writes to the link is written before what it prints, and both
/// before the next line is done. At the script's end it says that it leaves.
///
/// # Errors
///
/// It ends with `BadLine` at the first line that asks for nothing. It ends with `Closed`,
/// `BadMessage` or `Long` if a line asks for an entry more than the link gives. `Long` comes also
/// if the script has more than 64 MiB. It ends with `ReadFault`, `WriteFault` and `LinkFault` if
/// the script, the output and the link failed, and with `Memory` if memory ran out.
///
/// The rule: docs/protocol.md, "Joining".
pub fn join_link<
    L: LineRunner,
    B: ClientBoard,
    I: Source,
    O: Sink,
    R: Source + Drop,
    S: Sink + Drop,
    D: Ledger,
    T: Ledger,
>(
    alloc: Global,
    name: &Text,
    link: (R, S),
    input: &mut I,
    output: &mut O,
    draws: &mut Steps<D>,
    tiles: &mut Steps<T>,
) -> Joined<R, S>
    requires { length name.now ≤ 32 }
    ensures leaves { JoinLeaves name.now (record {
      input = I.left input.old;
      left = I.left input.new;
      link = R.left link.0;
      print_old = O.held output.old;
      print_now = O.held output.new;
      sent_old = S.held link.1;
      sent_now = S.held result.tx;
      counters = counters draws.old draws.new tiles.old tiles.new;
    }) result.end }
    ensures took { ReadsNoFurther (I.left input.old) (I.left input.new) }
    ensures unread { WaitsUnread name.now (R.left link.0) (I.left input.old) (I.left input.new) }
    ensures fault { FaultMatchesJoin (record {
      input = I.faults input.old;
      output = O.faults output.old;
      source = R.faults link.0;
      sink = S.faults link.1;
    }) (record {
      input = I.faults input.new;
      output = O.faults output.new;
      source = R.faults result.rx;
      sink = S.faults result.tx;
    }) result.end }
    ensures input_later { I.faults input.old ≤ I.faults input.new }
    ensures output_later { O.faults output.old ≤ O.faults output.new }
{
    whole_lines();
    let (mut rx, mut tx) = link;
    match greet::<B, R, S>(alloc, name, &mut rx, &mut tx) {
        Ok(greeting) => {
            let joiner = Joiner::new(alloc, greeting, rx, tx);
            do_script::<L, B, I, O, R, S, D, T>(joiner, input, output, draws, tiles)
        }
        Err(stop) => {
            let end = stop.run_end();
            Joined { end, rx, tx }
        }
    }
}

/// Does the lines of the script, and says that the client leaves.
fn do_script<
    L: LineRunner,
    B: ClientBoard,
    I: Source,
    O: Sink,
    R: Source + Drop,
    S: Sink + Drop,
    D: Ledger,
    T: Ledger,
>(
    joiner: Joiner<B, R, S>,
    input: &mut I,
    output: &mut O,
    draws: &mut Steps<D>,
    tiles: &mut Steps<T>,
) -> Joined<R, S>
    requires { IsReady joiner.client joiner.source }
    ensures leaves { (name : List ℕ) (link : Option (List ℕ)) (first : Seen) (welcome : Item)
        → IsWelcome name link first
        (seen O.held O.faults joiner output.old draws.old tiles.old) welcome
        → JoinLeaves name (record {
          input = I.left input.old;
          left = I.left input.new;
          link = link;
          print_old = first.printed;
          print_now = O.held output.new;
          sent_old = first.written;
          sent_now = S.held result.tx;
          counters = counters first.draws draws.new first.tiles tiles.new;
        }) result.end }
    ensures took { ReadsNoFurther (I.left input.old) (I.left input.new) }
    ensures fault { (name : List ℕ) (link : Option (List ℕ)) (first : Seen) (welcome : Item)
        → IsWelcome name link first
        (seen O.held O.faults joiner output.old draws.old tiles.old) welcome
        → FaultMatchesJoin (record {
          input = I.faults input.old;
          output = first.print_faults;
          source = first.source.faults;
          sink = first.write_faults;
        }) (record {
          input = I.faults input.new;
          output = O.faults output.new;
          source = R.faults result.rx;
          sink = S.faults result.tx;
        }) result.end }
    ensures input_later { I.faults input.old ≤ I.faults input.new }
    ensures output_later { (name : List ℕ) (link : Option (List ℕ)) (first : Seen) (welcome : Item)
        → IsWelcome name link first
        (seen O.held O.faults joiner output.old draws.old tiles.old) welcome
        → first.print_faults ≤ O.faults output.new }
{
    further_step::<JoinMachine<B, R, S>>();
    let alloc = joiner.alloc();
    let mut machine = JoinMachine { joiner };
    let ended = L::run_lines(
        alloc,
        SCRIPT_LIMIT,
        input,
        &mut machine,
        output,
        draws,
        tiles,
    );
    let JoinMachine { joiner } = machine;
    let mut joiner = joiner;
    let end = leave(&mut joiner, ended);
    let (rx, tx) = joiner.into_link();
    Joined { end, rx, tx }
}

/// Says that the client leaves, if all lines are done. How the run ends.
fn leave<B: ClientBoard, R: Source, S: Sink>(
    joiner: &mut Joiner<B, R, S>,
    ended: ScriptEnd<JoinStop>,
) -> RunEnd
    ensures parts { TakesLeave joiner.old.written joiner.new.written
        joiner.old.write_faults joiner.new.write_faults joiner.old.client.user ended result }
    ensures source { joiner.new.source ≡ joiner.old.source }
{
    match ended {
        ScriptEnd::Done => joiner.farewell(),
        ScriptEnd::BadLine(number) => RunEnd::BadLine(number),
        ScriptEnd::ReadFault => RunEnd::ReadFault,
        ScriptEnd::Long => RunEnd::Long,
        ScriptEnd::Memory => RunEnd::Memory,
        ScriptEnd::Ended(stop) => stop.run_end(),
    }
}
