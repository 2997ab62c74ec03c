//! What holds of every schedule of single operations, whatever the number of nodes. Each function does nothing: its clauses say what holds.

ghost use Rattle.std.specs.Prelude.{ℕ, ◌≡◌, ◌≤◌, ◌<◌, ◌+◌, ◌-◌, ◌*◌, ◌^◌, List};
ghost use Rattle.nr_machine.specs.World.{Act, MayAct, Plays, World, opening, played};
ghost use Rattle.nr_machine.specs.World.Act.{Does};
ghost use Rattle.nr_machine.specs.Words.{told_by};
ghost use Rattle.nr_machine.specs.Bound.{Spends, left, price, total};
ghost use Rattle.nr_machine.specs.Calls.{IsNew, MayMoveAll, Move, at_start, moved_all, schedule_of, worker_of};
ghost use Rattle.nr_machine.specs.LagExamples.{lagging, new_machine, until_one_lags};
ghost use Rattle.nr_machine.specs.Machine.{IsFit, asked_by};
ghost use Rattle.nr_machine.specs.declared.asked.Asked.{Asked};
ghost use Rattle.nr_machine.specs.declared.node.Node.{Node};
ghost use Rattle.nr_machine.specs.declared.words.Operation.{Operation};
ghost use Rattle.nr_machine.specs.declared.words.Word.{Word};
ghost use Rattle.nr_machine.specs.Laws.{AllApplied, AreWritten, Everywhere, KeepsPrecedence, StandInOrder};
ghost use Rattle.nr_machine.specs.States.{AllRight, Kind, Nodes, StatesFollow, at_first, ends_among, ends_of, run};
ghost use Rattle.nr_machine.specs.Examples.{example, its_events};

/// One log: `head` is its tail, every node has taken, applied and flushed a beginning of it, in that order, no node is more than a ring
/// behind, and what it knows to be completed is. And each entry that some node hasn't taken yet lies where that node looks for it.
pub fn nodes_share_one_log()
    ensures order { (nodes : ℕ) (acts : List Act) → nodes ≤ 64 → Plays nodes (opening nodes) acts
        → StandInOrder nodes (played (opening nodes) acts) }
    ensures written { (nodes : ℕ) (acts : List Act) → nodes ≤ 64 → Plays nodes (opening nodes) acts
        → AreWritten nodes (played (opening nodes) acts) }
{}

/// Whatever the entries do to a state, each node keeps the state after its beginning of the one log. Each update that ended was given the
/// answers at its places, to its own updates and in their order. Each read saw the state after as many entries as it reports.
pub fn states_follow_the_log<State, Answer>()
    ensures world { (kind : Kind State Answer) (w : Nodes State Answer) (acts : List Act)
        → (run kind w acts).world ≡ played w.world acts }
    ensures states { (nodes : ℕ) (kind : Kind State Answer) (acts : List Act) → nodes ≤ 64
        → Plays nodes (opening nodes) acts
        → StatesFollow nodes kind (run kind (at_first nodes kind) acts) }
    ensures replies { (nodes : ℕ) (kind : Kind State Answer) (acts : List Act) → nodes ≤ 64
        → Plays nodes (opening nodes) acts → AllRight kind
        (run kind (at_first nodes kind) acts).world (run kind (at_first nodes kind) acts).replies }
    ensures ends { (nodes : ℕ) (kind : Kind State Answer) (acts : List Act)
        → ends_among (run kind (at_first nodes kind) acts).world.events
        ≡ ends_of (run kind (at_first nodes kind) acts).replies }
{}

/// The order of calls by their places keeps the order in which they happened: what ended before another call began comes before it, and a
/// read sees all of it.
pub fn calls_keep_precedence()
    ensures { (nodes : ℕ) (acts : List Act) → nodes ≤ 64 → Plays nodes (opening nodes) acts
        → KeepsPrecedence (played (opening nodes) acts).events }
{}

/// What is completed doesn't become less. So a read that loads it sees at least what was completed before.
pub fn completed_never_falls()
    ensures { (nodes : ℕ) (acts more : List Act) → nodes ≤ 64 → Plays nodes (opening nodes) acts
        → Plays nodes (played (opening nodes) acts) more
        → (played (opening nodes) acts).words.completed
        ≤ (played (played (opening nodes) acts) more).words.completed }
{}

/// What an operation gives is a value that a machine takes, as long as the log is far from 2^57 entries. So none breaks.
pub fn values_fit()
    ensures { (nodes : ℕ) (acts : List Act) (n : ℕ) (operation : Operation) → nodes ≤ 64
        → Plays nodes (opening nodes) acts
        → (played (opening nodes) acts).log.tail + 16 < 2 ^ 57
        → MayAct nodes (played (opening nodes) acts) (Does n operation)
        → IsFit nodes ((played (opening nodes) acts).actor n) operation
        (told_by (played (opening nodes) acts).words operation) }
{}

/// In so many steps of a call, one after another: each spends one of what is left (`Node::told`, `Node::applied`). So their number is
/// bounded by what was left as the call began, and the price of each entry that was seen meanwhile; and by how often a node lagged.
pub fn calls_are_bounded()
    ensures { (machine : ℕ → Node) (lagged : ℕ → ℕ) (count : ℕ)
        → ((i : ℕ) → i < count → Spends (lagged i) (machine i) (machine (i + 1)))
        → count + left (machine count) ≤ left (machine 0)
        + price (machine 0) * ((machine count).seen - (machine 0).seen)
        + ((machine 0).nodes + 2) * total lagged count }
{}

/// Machines make schedules. Callers may give new machines anything in any order, if each value is what the operation gave. Then the steps of
/// their calls are a schedule, its world is the one that their operations made, and who works at a node is its machine.
pub fn machines_make_schedules()
    ensures plays { (nodes : ℕ) (machine : ℕ → Node) (moves : List Move) → nodes ≤ 64
        → ((n : ℕ) → n < nodes → IsNew nodes n (machine n))
        → MayMoveAll nodes (at_start nodes machine) moves
        → Plays nodes (opening nodes) (schedule_of (at_start nodes machine) moves) }
    ensures world { (nodes : ℕ) (machine : ℕ → Node) (moves : List Move)
        → (moved_all (at_start nodes machine) moves).world
        ≡ played (opening nodes) (schedule_of (at_start nodes machine) moves) }
    ensures workers { (nodes : ℕ) (machine : ℕ → Node) (moves : List Move) (n : ℕ) → nodes ≤ 64
        → n < nodes → ((m : ℕ) → m < nodes → IsNew nodes m (machine m))
        → MayMoveAll nodes (at_start nodes machine) moves
        → (played (opening nodes) (schedule_of (at_start nodes machine) moves)).actor n
        ≡ worker_of ((moved_all (at_start nodes machine) moves).machine n) }
{}

/// How much a node has applied and flushed doesn't become less. So what every node has stays so, even where one loads the nodes' words one
/// after another, whatever happens meanwhile and next.
pub fn everywhere_stays()
    ensures grows { (nodes : ℕ) (acts more : List Act) → nodes ≤ 64
        → Plays nodes (opening nodes) acts → Plays nodes (played (opening nodes) acts) more
        → (n : ℕ) → (played (opening nodes) acts).words.done n
        ≤ (played (played (opening nodes) acts) more).words.done n }
    ensures stays { (nodes : ℕ) (acts more : List Act) (place : ℕ) → nodes ≤ 64
        → Plays nodes (opening nodes) acts → Plays nodes (played (opening nodes) acts) more
        → Everywhere nodes (played (opening nodes) acts) place
        → Everywhere nodes (played (played (opening nodes) acts) more) place }
    ensures applied { (nodes : ℕ) (acts : List Act) (place : ℕ) → nodes ≤ 64
        → Plays nodes (opening nodes) acts
        → Everywhere nodes (played (opening nodes) acts) place
        → AllApplied nodes (played (opening nodes) acts) place }
{}

/// What is asked of a schedule can be met, by each kind of step. Here a call of two updates is appended at one node while the exchange of
/// another fails. That one looks how many entries each node has taken, and appends its own. A read sees all three, and then both have
/// flushed them.
pub fn calls_can_end()
    ensures plays { Plays 2 (opening 2) example }
    ensures events { (played (opening 2) example).events ≡ its_events }
    ensures flushed { Everywhere 2 (played (opening 2) example) 2 }
{}

/// What is asked of callers can also be met where a node lags. An update is appended at node 1 and not taken there, so that node 0, which
/// has 16 updates to append, learns that node 1 lags. Once node 1 has taken its entry, node 0 is asked to store the first word of its
/// first update.
pub fn calls_can_wait()
    ensures new { (n : ℕ) → n < 2 → IsNew 2 n (new_machine n) }
    ensures may { MayMoveAll 2 (at_start 2 new_machine) lagging }
    ensures lags { asked_by ((moved_all (at_start 2 new_machine) until_one_lags).machine 0)
        ≡ Asked.Lags 1 }
    ensures stores { asked_by ((moved_all (at_start 2 new_machine) lagging).machine 0)
        ≡ Asked.Carry (Operation.Store (Word.First 0 1) 1) }
{}
