// Moves: what a processor sees, what a move makes of it, and how that is put back in place.
ghost use Rattle.std.specs.Prelude.{◌≡◌};
ghost use Rattle.state.specs.Record.{processor_of};
ghost use Rattle.state.specs.Refusal as refusals;
ghost use Rattle.step.specs.Model.Moves.{target_of, probed, on_ring, index_of, unlooked, move_view, carried, run_shown, run_of, counted_of, moved_shown, moved_of};

use crate::calls::note_move;
use crate::cause::{owns_none, sizes};
use crate::deciding::decide;
use crate::registers::{by_fields, mutex_by_fields};
use crate::{Run, Status, Transfer, View};
use state::access::{Zero, at, put};
use state::queues::ready_queues;
use state::range::in_range;
use state::refusal::Refusal;
use state::{Chains, Mutex, Position, Processor, State, Thread};

// The mutex that a move works on: that of a call on one, else the processor's.
pub(crate) fn target(action: u8, mutex: u8, operand: u8) -> u8
    ensures { result ≡ target_of action mutex operand }
{
    if in_range(1, 3, action) {
        operand
    } else {
        mutex
    }
}

// The look number of a processor at CI2, which alone reads it; elsewhere 0.
fn probed(r: Processor) -> u8
    ensures { result ≡ probed r }
{
    if r.position == Position::CI2 {
        r.probe
    } else {
        0
    }
}

// The index of the ready queue that is l places after that of processor p of n, going round.
fn on_ring(n: u8, p: u8, l: u8) -> u8
    ensures { result ≡ on_ring n p l }
{
    let there = in_range(1, 8, n) & in_range(1, n, p) & (l < n);
    if there {
        let i = p + l;
        return if i <= n { 8 + i } else { 8 + (i - n) };
    }
    0
}

// The index of the ready queue that processor p of n, which is r, works on.
pub fn index_of(stealing: u8, n: u8, p: u8, r: Processor) -> u8
    ensures { result ≡ index_of stealing n p r }
{
    if stealing == 0 {
        return 0;
    }
    on_ring(n, p, probed(r))
}

// The registers of processor p, field by field.
fn registers(s: &State, p: u8) -> Processor
    ensures { result ≡ processor_of s.now p }
{
    let i = p as usize;
    let all: &[Processor] = &s.processors;
    if i < all.len() {
        by_fields(all[i])
    } else {
        Processor::zero()
    }
}

// The current thread of processor p.
fn current(s: &State, p: u8) -> u8
    ensures { result ≡ (processor_of s.now p).current }
{
    let i = p as usize;
    let all: &[Processor] = &s.processors;
    if i < all.len() { all[i].current } else { 0 }
}

// What processor p sees before it looks into the queues: its registers, the mutex of its move, and which ready queue it works on.
fn look(s: &State, p: u8, action: u8, operand: u8) -> View
    ensures { result ≡ unlooked (move_view s.now p action operand) }
{
    let proc = registers(s, p);
    let m = target(action, proc.mutex, operand);
    let index = index_of(s.stealing, s.p, p, proc);
    View {
        number: p,
        proc,
        mutex: mutex_by_fields(at(&s.mutexes, m as usize)),
        queue: None,
        ready: None,
        index,
        queues: ready_queues(s.stealing, s.p),
    }
}

// A transfer by processor p, carried out.
#[tactic(auto, unfolding(state::specs::Model::Access::removed, state::specs::Model::Access::placed))]
fn carry(chains: &mut Chains, p: u8, transfer: Transfer)
    ensures { chains.new ≡ carried chains.old p transfer }
{
    match transfer {
        Transfer::Stay => {}
        Transfer::Take(q, k, rest) => {
            let moving = Thread {
                status: Status::TRANSIT,
                holder: p,
                next: 0,
            };
            chains.remove(q, k, rest, moving);
        }
        Transfer::Join(q, k) => chains.join(q, k),
        Transfer::Mark(k, status, holder) => {
            let placed = Thread {
                status,
                holder,
                next: 0,
            };
            chains.place(k, placed);
        }
    }
}

// Moves processor p: a record is changed in place; refused, it stays.
pub fn make(s: &mut State, p: u8, action: u8, operand: u8) -> Result<(), Refusal>
    ensures { record { refusal = refusals.outcome result; state = s.new } ≡ moved_of s.old p action operand }
{
    let v = look(s, p, action, operand);
    let m = target(action, v.proc.mutex, operand);
    let z = sizes(s.p, s.t, s.m, s.applied);
    let done = decide(&s.chains, m, z, v, action, operand)?;
    if action == 5 && !owns_none(s.mutexes, s.m, v.proc.current) {
        return Err(Refusal::StillOwner);
    }
    let e = done.effect;
    carry(&mut s.chains, p, e.transfer);
    if done.writes {
        put(&mut s.mutexes, m as usize, mutex_by_fields(e.mutex));
    }
    put(&mut s.processors, p as usize, by_fields(e.proc));
    s.applied = s.applied.saturating_add(1);
    Ok(())
}

// Makes moves, three bytes each, in order, until one is refused. Bytes left over are no move.
// The calls among the moves made are counted for each thread. Who needs no counts lends a list of one: no thread has the number 0.
pub fn run(mut s: State, moves: &[u8], calls: &mut [u16]) -> Run
    ensures state { run_shown result ≡ run_of s moves.now }
    ensures calls { calls.new ≡ counted_of s moves.now calls.old }
{
    let n = moves.len() / 3;
    for made in 0..n {
        let p = moves[3 * made];
        let action = moves[3 * made + 1];
        let operand = moves[3 * made + 2];
        let caller = current(&s, p);
        if let Err(refusal) = make(&mut s, p, action, operand) {
            return Run {
                outcome: Err(refusal),
                made,
                state: s,
            };
        }
        note_move(calls, action, caller);
    }
    Run {
        outcome: Ok(()),
        made: n,
        state: s,
    }
}

// One move: a list of one, so that the moves of a list alone go through `make`, which a compiler then puts into their loop.
pub fn moved(s: State, p: u8, action: u8, operand: u8) -> Result<State, Refusal>
    ensures { moved_shown s result ≡ moved_of s p action operand }
{
    let done = run(s, &[p, action, operand], &mut [0u16; 1]);
    match done.outcome {
        Ok(()) => Ok(done.state),
        Err(refusal) => Err(refusal),
    }
}
