//! What the calls of a queue come to, however they follow one another; but a `next` that finds
//! nothing is no event of these.
ghost use Rattle.std.specs.Prelude.{◌≡◌, ℕ, ◌+◌, ◌-◌, ◌<◌, ◌≤◌, length};
ghost use Rattle.fair_queue.specs.Fair.{GivesInOrder, IsGivenAfterThoseAhead, MovesUp, WaitsForOneQuantumEach, WaitsForOneQuantumPerKey};
ghost use Rattle.fair_queue.specs.Turns.{Charges, FlowState, GivesFirst, IsFair, IsNextTurn, IsPushed, QueueState, TurnGoesOn, flow_at, renewed};

/// While something waits in a flow and the flow gives nothing, each other flow is charged at most a
/// quantum and what the dearest key costs, of those that are given meanwhile and the one that was
/// given just before, however many wait in it and whatever comes. It starts from any queue that is
/// fair, as `new`, `push` and `next` leave it.
pub fn a_flow_waits_for_one_quantum_of_each_other()
    ensures { WaitsForOneQuantumEach }
{}

/// While a key waits in a flow behind `ahead` others, each other flow is charged at most a quantum
/// and what the dearest key costs for each of these others, and once more for the key itself,
/// however many wait in it and whatever comes. The dearest is of those that are given meanwhile, in
/// whichever flow, and the one that was given just before. It starts from any queue that is fair,
/// as `new`, `push` and `next` leave it. With none ahead it says what
/// `a_flow_waits_for_one_quantum_of_each_other` does.
pub fn a_key_waits_for_one_quantum_of_each_other_flow_per_key_up_to_it()
    ensures { WaitsForOneQuantumPerKey }
{}

/// A flow gives its keys in the order in which they came, repeats none and loses none: those that
/// it gives, followed by those that wait in it then, are those that waited in it, followed by those
/// that come. So a key that waits behind `ahead` others of its flow waits behind one fewer for each
/// that the flow gives, whatever comes, and it is what the flow gives after these others. It starts
/// from any queue that is fair, as `new`, `push` and `next` leave it. Where `next` finds nothing it
/// starts anew: no key waits then, and the queue stays fair.
pub fn keys_are_given_in_their_order()
    ensures order { GivesInOrder }
    ensures place { MovesUp }
    ensures given { IsGivenAfterThoseAhead }
{}

/// A queue that is fair stays so as keys come, costs are charged and keys are given.
pub fn a_fair_queue_stays_fair()
    ensures comes { (flow key : ℕ) (old new : QueueState) → flow < length old.flows →
        IsPushed flow key old new → IsFair old → IsFair new }
    ensures charged { (spent : ℕ) (old new : QueueState) → Charges spent old new →
        IsFair old → IsFair new }
    ensures given { (flow key : ℕ) (old new : QueueState) → GivesFirst flow key old new →
        IsFair old → IsFair new }
{}

/// What a flow took beyond its quantum in one turn is taken off the next one's, of which at least 1
/// is left.
pub fn what_a_turn_took_too_much_is_taken_off()
    ensures kept { (quantum credit spent : ℕ) → spent ≤ credit →
        renewed quantum credit spent ≡ quantum }
    ensures taken_off { (quantum credit spent : ℕ) → credit ≤ spent → spent < credit + quantum →
        renewed quantum credit spent + (spent - credit) ≡ quantum }
    ensures least { (quantum credit spent : ℕ) → 0 < quantum → 0 < renewed quantum credit spent }
{}

/// A turn ends as soon as a flow has spent what is left of its quantum, and no sooner while
/// anything waits in it.
pub fn a_turn_ends_once_its_quantum_is_spent()
    ensures spent { (spent : ℕ) (flow : FlowState) → flow.credit ≤ spent →
        ¬ (TurnGoesOn spent flow) }
    ensures waits { (spent : ℕ) (flow : FlowState) → spent + 1 ≤ flow.credit →
        1 ≤ length flow.ready → TurnGoesOn spent flow }
{}

/// What is spent in a flow's turn is charged to it, once: while the turn goes on it is taken off
/// what is left of the quantum; and as the turn ends it is the next flow's, and this one has the
/// quantum of its next turn.
pub fn what_is_spent_is_charged()
    ensures goes_on { (spent : ℕ) (old new : QueueState) → IsFair old → Charges spent old new →
        TurnGoesOn spent (flow_at old old.turn) → (new.turn ≡ old.turn)
        × ((flow_at new old.turn).credit + spent ≡ (flow_at old old.turn).credit) }
    ensures ends { (spent : ℕ) (old new : QueueState) → IsFair old → Charges spent old new →
        ¬ (TurnGoesOn spent (flow_at old old.turn)) →
        IsNextTurn (length old.flows) old.turn new.turn
        × ((flow_at new old.turn).credit
        ≡ renewed old.quantum (flow_at old old.turn).credit spent) }
{}
