//! The program's top call.

ghost use Rattle.std.specs.Prelude.{◌≡◌, ◌≢◌, ◌⊎◌, ◌<◌, ◌≤◌, [], ℕ, List, Option, IfSome};
ghost use Rattle.std.specs.Prelude.{length, Some};
ghost use Rattle.std.specs.Io.KnownBytes.{Keeps, IsAtEnd};
ghost use Rattle.dp_hall.specs.Names.{AreDistinct, IsIn};
ghost use Rattle.dp_io.specs.Faults.{Rose};
ghost use Rattle.dp_serve_laws.specs.Acts.{KeepsActs};
ghost use Rattle.dp_serve_laws.specs.Reported.{reported};
ghost use Rattle.dp_serve.specs.declared.report.LinkReport.{LinkReport};
ghost use Rattle.dp_link_run.specs.Links.{link_seen};
ghost use Rattle.dp_lines.specs.declared.run_end.RunEnd.{RunEnd};
ghost use Rattle.dp_lines.specs.declared.run_end.RunEnd.TheVariants.{Memory};
ghost use Rattle.dp_words.specs.declared.command_line.CommandLine.{CommandLine};
ghost use Rattle.dp_words.specs.declared.command_line.CommandLine.TheVariants.{Local, Join, Listen};
ghost use Rattle.dp_words.specs.declared.command_line.LocalCommand.{LocalCommand};
ghost use Rattle.dp_words.specs.declared.command_line.Service.{Service};
ghost use Rattle.dp_lines.specs.RunEnds.{FaultMatchesEnd};
ghost use Rattle.dp_line_machine.specs.Counters.{counters};
ghost use Rattle.dp_world.specs.RunEnds.{DrawsByDue, GrowsByDue};
ghost use Rattle.dp_app.specs.Stores.{HoldsKept};
ghost use Rattle.dp_app.specs.Worlds.{HasHeadline, HasPlainForks};
ghost use Rattle.dp_endings.specs.Answer.{Answer, IsGiven, Says, SaysNoLink, SaysUsage};
ghost use Rattle.dp_commands.specs.Commands.{AskAndLack, AskForLocal, Asks, HasLink, HasLinks};
ghost use Rattle.dp_commands.specs.Commands.{HasWires, IsCommand, IsWorld, LacksWires};
ghost use Rattle.dp_app.specs.Due.{GetsLink, IsDue};
ghost use Rattle.dp_commands.specs.Effects.{KeepsNothing, effects, kept, stores, streams};
ghost use Rattle.dp_commands.specs.Effects.{wire_seen};
ghost use Rattle.dp_commands.specs.Faults.{AskAndFailed};
ghost use Rattle.dp_commands.specs.Joins.{HasJoined};
ghost use Rattle.dp_app.specs.Kinds.{Reads};
ghost use Rattle.dp_local.specs.Runs.{run_of};
ghost use Rattle.dp_commands.specs.Servers.{HasServed, HasBadRow};

use crate::running::run_words;
use dp_commands::{Ran, Resources, let_go};
use dp_endings::say;
use dp_epochs::{Journal, Shut};
use dp_io::{Sink, Source};
use dp_joining::{each_outcome, one_outcome};
use dp_keeper::Keeper;
use dp_local::{Host, local_commands_are_runs};
use dp_serve::Reports;
use dp_serve_laws::{
    acts_of_connections, reports_name_distinct_connections, rows_are_kept, store_faults_are_counted,
};
use dp_sim::headline;
use dp_steps::Steps;
use dp_wire::{Gate, Wire};
use dp_words::one_command_line;
use dp_world::reports_are_due;
use dp_world_laws::forks_of_lines_are_plain;
use std::alloc::Global;
use std::sync::Wait;
use std::sync::ledger::Ledger;
use std::thread::Threads;

/// What the program ends with.
#[derive(Drop)]
pub struct Outcome<W, K> {
    /// The exit status. The table: docs/protocol.md, "Statuses".
    pub status: u8,
    /// The wires that it was given.
    pub wires: Vec<W>,
    /// The keeper that it was given.
    pub keeper: K,
    /// The events that a server kept, in order. Like the next two it is empty for other commands.
    pub journal: Journal,
    /// The closings that a server refused.
    pub shut: Shut,
    /// A report of each link of a server.
    pub reports: Reports,
}

impl<W, K> Outcome<W, K> {
    /// The status, the wires and the keeper. The rest is let go.
    pub fn into_parts(self) -> (u8, Vec<W>, K)
        ensures status { result.0 ≡ self.status }
        ensures wires { result.1 ≡ self.wires }
        ensures keeper { result.2 ≡ self.keeper }
    {
        let Outcome {
            status,
            wires,
            keeper,
            journal,
            shut,
            reports,
        } = self;
        let_go(journal, shut);
        drop(reports);
        (status, wires, keeper)
    }
}

/// The program, on its words after its name, its input and its output. On `diag` it says why it
/// ended. On the wires it may dial, or they hand out the links of a server (`wanted` of dp_words
/// says which it needs). A server resumes the session of the keeper's rows, and keeps its events
/// there. The gate is passed by the workers of a server, outside the session's turn. The work on
/// its canvas is counted. Nothing else is read or written.
pub fn drawpile<
    R: Threads + Wait + Sync,
    I: Source,
    O: Sink,
    E: Sink,
    W: Wire + Send,
    K: Keeper + Send,
    G: Gate,
    D: Ledger + Send,
    T: Ledger + Send,
>(
    rt: &R,
    alloc: Global,
    words: &[String],
    input: &mut I,
    output: &mut O,
    diag: &mut E,
    wires: Vec<W>,
    keeper: K,
    gate: &G,
    draws: &mut Steps<D>,
    tiles: &mut Steps<T>,
) -> Outcome<W, K>
    // Words that are no command are refused, and so is a command that needs links if the wires
    // for them aren't there. Reading the words can run out of memory.
    ensures other_words { ¬ IsCommand words.now
        → SaysUsage (E.held diag.old) (E.held diag.new) (E.faults diag.old) (E.faults diag.new)
        result.status
        ⊎ Says (E.held diag.old) (E.held diag.new) (E.faults diag.old) (E.faults diag.new)
        result.status Memory }
    ensures no_link { (command : CommandLine)
        → Asks words.now command → LacksWires command wires.items
        → SaysNoLink (E.held diag.old) (E.held diag.new) (E.faults diag.old) (E.faults diag.new)
        result.status
        ⊎ Says (E.held diag.old) (E.held diag.new) (E.faults diag.old) (E.faults diag.new)
        result.status Memory }

    // A command on the input and the output alone ends in one of the ways of a run. What the input
    // comes to decides what is written. The fault that ends it is the one that was counted, and the
    // status and the line on diag report it. Of `world` what is written is the report of the lines
    // that are done, and no more is drawn than these lines may draw: what is said once, what is
    // taken on the client's two canvases, and nothing for a picture that is shown. Of `drill` each
    // command of its history is drawn at most once, and no more tiles are made than these reach.
    ensures ends { (command : LocalCommand) → Asks words.now (Local command)
        → (end : RunEnd)
        × (run_of command).leaves (I.left input.old) (I.left input.new)
        (O.held output.old) (O.held output.new)
        (counters draws.old draws.new tiles.old tiles.new) end
        × FaultMatchesEnd (I.faults input.old) (I.faults input.new)
        (O.faults output.old) (O.faults output.new) end
        × Says (E.held diag.old) (E.held diag.new) (E.faults diag.old) (E.faults diag.new)
        result.status end }

    // `join` dials on the first wire, and ends in one of the ways of a run over a link: what the
    // script and the link come to decides what is printed and what is written to the link. Or
    // memory ran out before the words were read. The link is handed back, and other wires stay. No
    // more is drawn than is due to the messages that are said and the entries that are taken:
    // nothing is drawn anew to show a canvas. If it gets no link, the links of the wire stay as
    // they were, and nothing is read, written or drawn.
    ensures joins { (addr name : List ℕ) → Asks words.now (Join addr name) → wires.items ≢ []
        → HasJoined (wire_seen W.links W.faults W.Rx.left W.Rx.faults W.Tx.held W.Tx.faults)
        name (effects (streams I.left I.faults O.held O.faults input.old input.new output.old
        output.new (counters draws.old draws.new tiles.old tiles.new))
        wires.items result.wires.items
        (stores K.held K.put_faults K.read_faults keeper result.keeper)
        (kept result.journal result.shut result.reports))
        (E.held diag.old) (E.held diag.new) (E.faults diag.old) (E.faults diag.new)
        result.status }

    // `serve` resumes the session of the keeper's rows, and runs a worker for each wire. What is
    // left of the wires and of the keeper, and what was kept and reported, is what serving that
    // session over them leaves. Or the session can't be resumed: the store failed, one of its rows
    // may not stand, or memory ran out. The input and the output aren't touched, and nothing is
    // drawn.
    ensures serves { (addr : List ℕ) (conns : Option ℕ) (service : Service)
        → Asks words.now (Listen addr (length wires.items) conns service)
        → HasServed (wire_seen W.links W.faults W.Rx.left W.Rx.faults W.Tx.held W.Tx.faults)
        conns (effects (streams I.left I.faults O.held O.faults input.old input.new output.old
        output.new (counters draws.old draws.new tiles.old tiles.new))
        wires.items result.wires.items
        (stores K.held K.put_faults K.read_faults keeper result.keeper)
        (kept result.journal result.shut result.reports))
        (E.held diag.old) (E.held diag.new) (E.faults diag.old) (E.faults diag.new)
        result.status }

    // This holds whatever the input comes to, after its first lines, however many. Each client has
    // taken a prefix of the history of its epoch. Its confirmed canvas is that prefix replayed, and
    // its view is the same with its unanswered sends drawn. A message that is not permitted changes
    // nothing and stands in no history. Its unanswered sends are its last ones, as long as no event
    // was answered Ended.
    ensures headline { IsWorld words.now → IfSome (I.left input.old) HasHeadline }
    ensures forks { IsWorld words.now → IfSome (I.left input.old) HasPlainForks }

    // However `world` ended, what it wrote is a prefix of the report that its input is due. No more
    // was drawn than the schedule of its input may draw. It can't be that an input is due none.
    ensures due { IsWorld words.now → IfSome (I.left input.old) (λ bytes.
        GrowsByDue bytes (O.held output.old) (O.held output.new)) }
    ensures due_draws { IsWorld words.now → IfSome (I.left input.old) (λ bytes.
        DrawsByDue bytes (counters draws.old draws.new tiles.old tiles.new)) }

    // Whatever the input and the link hold, it can't be that no answer is due.
    ensures some_due { ¬ HasWires words.now wires.items
        → (bytes : List ℕ) (link : Option (List ℕ))
        → ¬ ((answer : Answer) → ¬ IsDue words.now bytes link answer) }

    // If nothing failed and memory sufficed, an answer is given that the words, the input's bytes
    // and those of the link of `join` are due. They are due no other. (What `serve` does depends on
    // which worker comes first, too: `serves` says it.)
    ensures complete { ¬ HasWires words.now wires.items
        → ¬ Rose (I.faults input.old) (I.faults input.new)
        → ¬ Rose (O.faults output.old) (O.faults output.new)
        → ¬ Rose (E.faults diag.old) (E.faults diag.new)
        → result.status ≢ 7 → (HasLink words.now wires.items → result.status ≢ 5)
        → IfSome (I.left input.old) (λ bytes. (link : Option (List ℕ))
        → GetsLink (wire_seen W.links W.faults W.Rx.left W.Rx.faults W.Tx.held W.Tx.faults)
        words.now wires.items link
        → (answer : Answer) × IsDue words.now bytes link answer
        × IsGiven answer result.status
        (O.held output.old) (O.held output.new) (E.held diag.old) (E.held diag.new)) }
    ensures exact { ¬ HasWires words.now wires.items
        → ¬ Rose (I.faults input.old) (I.faults input.new)
        → ¬ Rose (O.faults output.old) (O.faults output.new)
        → ¬ Rose (E.faults diag.old) (E.faults diag.new)
        → result.status ≢ 7 → (HasLink words.now wires.items → result.status ≢ 5)
        → IfSome (I.left input.old) (λ bytes. (link : Option (List ℕ))
        → GetsLink (wire_seen W.links W.faults W.Rx.left W.Rx.faults W.Tx.held W.Tx.faults)
        words.now wires.items link
        → (answer : Answer) → IsDue words.now bytes link answer
        → IsGiven answer result.status
        (O.held output.old) (O.held output.new) (E.held diag.old) (E.held diag.new)) }

    // These follow from the clauses above, or from their proofs: what each status says, and what
    // stays if a command doesn't need it.
    ensures usage { result.status ≡ 1 → ¬ IsCommand words.now }
    ensures lacks { result.status ≡ 13 → AskAndLack words.now wires.items }
    ensures link_fault { result.status ≡ 5
        → AskAndFailed (wire_seen W.links W.faults W.Rx.left W.Rx.faults W.Tx.held W.Tx.faults)
        words.now wires.items result.wires.items }
    ensures store_fault { result.status ≡ 6 → HasWires words.now wires.items
        × (Rose (K.put_faults keeper) (K.put_faults result.keeper)
        ⊎ Rose (K.read_faults keeper) (K.read_faults result.keeper)) }
    ensures bad_row { result.status ≡ 14
        → HasWires words.now wires.items × HasBadRow (K.held keeper) }
    ensures untouched { ¬ AskForLocal words.now → ¬ HasLink words.now wires.items
        → Keeps (I.left input.old) (I.left input.new) × Keeps (O.held output.old)
        (O.held output.new) }
    ensures uncounted { ¬ AskForLocal words.now → ¬ HasLink words.now wires.items
        → (I.faults input.new ≡ I.faults input.old) × (O.faults output.new ≡ O.faults output.old) }
    ensures undrawn { ¬ AskForLocal words.now → ¬ HasLink words.now wires.items
        → (draws.new ≡ draws.old) × (tiles.new ≡ tiles.old) }
    ensures nothing_kept { ¬ HasWires words.now wires.items
        → KeepsNothing (kept result.journal result.shut result.reports) }
    ensures distinct { AreDistinct (reported result.reports) }

    // Of a connection that a report names the journal has the events that were kept of its link's
    // acts, in order and no others. If the keeper's rows aren't known, others may stand before
    // them.
    ensures connections { (report : LinkReport) (conn : ℕ) → IsIn report result.reports
        → report.conn ≡ Some conn
        → KeepsActs (link_seen W.Rx.left W.Rx.faults W.Tx.held W.Tx.faults) (K.held keeper)
        report conn result.journal result.shut }

    // Whatever happens, the keeper that comes back holds the rows of the events that were kept.
    // After a put has failed, it may hold that of one event more. If no session was resumed,
    // nothing was kept, and its rows stay.
    ensures rows_kept { HoldsKept
        (stores K.held K.put_faults K.read_faults keeper result.keeper)
        (kept result.journal result.shut result.reports) }
    ensures wires_stay { ¬ HasLinks words.now wires.items → result.wires.items ≡ wires.items }
    ensures keeper_stays { ¬ HasWires words.now wires.items → result.keeper ≡ keeper }
    ensures to_end { (command : CommandLine) → Asks words.now command → Reads command
        → (result.status ≡ 0) ⊎ (result.status ≡ 9)
        → IsAtEnd (I.left input.new) }
    ensures fault_told { IsCommand words.now → I.faults input.old < I.faults input.new
        → (result.status ≡ 3)
        ⊎ ((result.status ≡ 4) × Rose (E.faults diag.old) (E.faults diag.new)) }
    ensures unfailed { IsCommand words.now
        → (result.status ≡ 0) ⊎ (result.status ≡ 2) ⊎ (result.status ≡ 8) ⊎ (result.status ≡ 9)
        ⊎ (result.status ≡ 10) ⊎ (result.status ≡ 12)
        → (I.faults input.new ≡ I.faults input.old) × (O.faults output.new ≡ O.faults output.old) }
    ensures read_fault { result.status ≡ 3 → Rose (I.faults input.old) (I.faults input.new) }
    ensures write_fault { result.status ≡ 4
        → Rose (O.faults output.old) (O.faults output.new)
        ⊎ Rose (E.faults diag.old) (E.faults diag.new) }
    ensures input_later { I.faults input.old ≤ I.faults input.new }
    ensures output_later { O.faults output.old ≤ O.faults output.new }
    ensures diag_later { E.faults diag.old ≤ E.faults diag.new }
{
    one_command_line();
    local_commands_are_runs();
    one_outcome();
    each_outcome();
    headline();
    forks_of_lines_are_plain();
    reports_are_due();
    store_faults_are_counted::<W, W::Rx, W::Tx>();
    reports_name_distinct_connections::<W, W::Rx, W::Tx>();
    acts_of_connections::<W, W::Rx, W::Tx>();
    rows_are_kept::<W, W::Rx, W::Tx>();
    let Ran {
        ending,
        wires,
        keeper,
        journal,
        shut,
        reports,
    } = run_words(
        Host { rt, alloc, gate },
        words,
        input,
        output,
        Resources { wires, keeper },
        draws,
        tiles,
    );
    let status = say(diag, &ending);
    Outcome {
        status,
        wires,
        keeper,
        journal,
        shut,
        reports,
    }
}
