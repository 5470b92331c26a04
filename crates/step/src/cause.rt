// Why a move is refused before it is tried, by what it sees: the first of the causes 2, 3, 8, 4 or 5, 6 or 7 that is there.
// Here the thread owns no mutex: 21, the cause of an exit by one that does, is for `run` to ask.
ghost use Rattle.std.specs.Prelude.{◌≡◌, ◌*◌, get_or, true, false, ◌&&◌, ◌||◌, not, eqb, ltb};
ghost use Rattle.reference.specs.Refusal.{not_new, refuse};
ghost use Rattle.reference.specs.Cause.{first_cause};
ghost use Rattle.state.specs.Record.{thread_in};
ghost use Rattle.state.specs.Refusal.{outcome};
ghost use Rattle.step.specs.Model.Moves.{operand_fits, facts_of, cause_seen, owns_none};

use crate::{Sizes, View};
use state::access::at;
use state::range::in_range;
use state::refusal::Refusal;
use state::{Mutex, Position, Thread};

// The operand of a call on a mutex is a mutex, that of create a thread, that of the others 0.
pub(crate) fn operand_fits(z: Sizes, action: u8, operand: u8) -> bool
    ensures { result ≡ operand_fits z action operand }
{
    if in_range(1, 3, action) {
        return in_range(1, z.m, operand);
    }
    if action == 6 {
        return in_range(1, z.t, operand);
    }
    operand == 0
}

pub(crate) fn sizes(p: u8, t: u8, m: u8, applied: u16) -> Sizes
    ensures { result ≡ record { p = p; t = t; m = m; applied = applied } }
{
    Sizes { p, t, m, applied }
}

// A go of a processor that is there: its operand is 0, and at App there is no line.
#[tactic(auto, unfolding(state::specs::Refusal::outcome, state::specs::Refusal::number))]
pub(crate) fn go_refusal(z: Sizes, v: View, operand: u8) -> Result<(), Refusal>
    ensures { outcome result ≡ first_cause (facts_of true true z v true 0 0 operand) }
{
    let r = v.proc;
    if operand != 0 {
        return Err(Refusal::BadOperand);
    }
    if 4000 <= z.applied {
        return Err(Refusal::Full);
    }
    if r.position == Position::APP {
        return Err(Refusal::GoAtApp);
    }
    Ok(())
}

// A create is of a new thread, whose status is 0. Only a create reads a status.
#[tactic(auto, unfolding(state::specs::Refusal::outcome, state::specs::Refusal::number))]
pub(crate) fn create_refusal(threads: &[Thread], action: u8, operand: u8) -> Result<(), Refusal>
    ensures { outcome result ≡ refuse (eqb action 6 && not (eqb (thread_in threads.now operand).status 0)) not_new 0 }
{
    if (action == 6) && (at(threads, operand as usize).status != 0) {
        return Err(Refusal::NotNew);
    }
    Ok(())
}

// Mutex i, which is x, is none of the m that are there, or thread k does not own it.
fn unowned(x: Mutex, i: u8, m: u8, k: u8) -> bool
    ensures { result ≡ ltb m i || not (eqb x.owner k) }
{
    (m < i) | (x.owner != k)
}

// Thread k owns none of the mutexes 1 to m. Written out: a loop would count as the hot part of the moves' loop, which asks this at an exit only.
pub(crate) fn owns_none(mutexes: [Mutex; 9], m: u8, k: u8) -> bool
    ensures { result ≡ owns_none mutexes m k }
{
    unowned(mutexes[1], 1, m, k)
        & unowned(mutexes[2], 2, m, k)
        & unowned(mutexes[3], 3, m, k)
        & unowned(mutexes[4], 4, m, k)
        & unowned(mutexes[5], 5, m, k)
        & unowned(mutexes[6], 6, m, k)
        & unowned(mutexes[7], 7, m, k)
        & unowned(mutexes[8], 8, m, k)
}

// A call of a processor that is there: it is made at App only, and unlock by the owner.
#[tactic(auto, unfolding(state::specs::Refusal::outcome, state::specs::Refusal::number))]
pub(crate) fn call_refusal(
    threads: &[Thread],
    z: Sizes,
    v: View,
    action: u8,
    operand: u8,
) -> Result<(), Refusal>
    ensures { outcome result ≡ first_cause (facts_of true false z v false (thread_in threads.now operand).status action operand) }
{
    let r = v.proc;
    let x = v.mutex;
    let fits = operand_fits(z, action, operand);
    if !((action <= 6) & fits) {
        return Err(Refusal::BadOperand);
    }
    if 4000 <= z.applied {
        return Err(Refusal::Full);
    }
    if r.position != Position::APP {
        return Err(Refusal::CallAway);
    }
    if (action == 3) & (x.owner != r.current) {
        return Err(Refusal::NotOwner);
    }
    create_refusal(threads, action, operand)
}

// The operand names a thread.
#[tactic(auto, unfolding(state::specs::Refusal::outcome, state::specs::Refusal::number, crate::specs::Model::Moves::cause_seen))]
pub(crate) fn cause(
    threads: &[Thread],
    z: Sizes,
    v: View,
    action: u8,
    operand: u8,
) -> Result<(), Refusal>
    ensures { outcome result ≡ cause_seen z v false (thread_in threads.now operand).status action operand }
{
    if !in_range(1, z.p, v.number) {
        return Err(Refusal::NoProcessor);
    }
    if action == 0 {
        return go_refusal(z, v, operand);
    }
    call_refusal(threads, z, v, action, operand)
}
