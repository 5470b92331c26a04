// Replaying a session's journal from the start table read off its record: one replay, which going and the journal's test share.
ghost use Rattle.std.specs.Prelude.{◌≡◌, ◌≤◌, ◌*◌, length};
ghost use Rattle.step.specs.Model.Moves.{run_of, counted_of};
ghost use Rattle.session.specs.Contract.{lent_refusal};
ghost use Rattle.session.specs.Model.Replay.{between, farther, counted_to, all_made, Reaches, Replays};

use state::{Session, State};
use step::moves::run;

// The state that the moves of a journal from step a to step b lead to from another, if all are accepted; where there are none, nothing is done.
#[tactic(auto, using(crate::proofs::Found::part_made, crate::proofs::Found::part_refused))]
fn part(state: State, journal: &[u8], a: usize, b: usize, calls: &mut [u16]) -> Option<State>
    requires { (a ≤ b) × (3 * b ≤ length journal.now) }
    ensures run { result ≡ all_made (run_of state (between a b journal.now)) }
    ensures calls { calls.new ≡ counted_of state (between a b journal.now) calls.old }
{
    if a == b {
        return Some(state);
    }
    let run = run(state, &journal[3 * a..3 * b], calls);
    match run.outcome {
        Ok(()) => Some(run.state),
        Err(_) => None,
    }
}

// The states after the first a and the first b of the kept moves.
#[derive(Clone, Copy)]
pub(crate) struct Stages {
    pub low: State,
    pub high: State,
}

// The first a of the journal's kept moves, those up to b, then the others, if all are accepted; each thread's calls among the first b, up to the first that is
// refused, are counted.
fn reached(
    session: Session,
    journal: &[u8],
    a: usize,
    b: usize,
    calls: &mut [u16],
) -> Option<Stages>
    requires { (lent_refusal session (length journal.now) ≡ 0) × (a ≤ b) × (b ≤ session.kept) }
    ensures states { Reaches session journal.now a b result }
    ensures calls { calls.new ≡ counted_to session b journal.now calls.old }
{
    let state = session.state;
    let first = State::start(state.p, state.t, state.m, session.initial, state.stealing);
    let low = part(first, journal, 0, a, calls)?;
    let high = part(low, journal, a, b, calls)?;
    part(high, journal, b, session.kept as usize, &mut [0; 1])?;
    Some(Stages { low, high })
}

// Replays the kept moves, those up to the nearer of k and the standing ones, to the farther, and the others: the state after the first k, if all are accepted and
// the standing ones give the record. Each thread's calls up to the farther are counted.
#[tactic(auto, using(crate::proofs::Found::found_none, crate::proofs::Found::high_found, crate::proofs::Found::low_found))]
pub(crate) fn replayed(
    session: Session,
    journal: &[u8],
    k: usize,
    calls: &mut [u16],
) -> Option<State>
    requires { (lent_refusal session (length journal.now) ≡ 0) × (k ≤ session.kept) }
    ensures state { Replays session journal.now k result }
    ensures calls { calls.new ≡ counted_to session (farther session k) journal.now calls.old }
{
    let given = session.state;
    let n = given.applied as usize;
    if k <= n {
        let found = reached(session, journal, k, n, calls)?;
        return (found.high == given).then_some(found.low);
    }
    let found = reached(session, journal, n, k, calls)?;
    (found.low == given).then_some(found.high)
}
