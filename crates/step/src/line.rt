// Go executes the line at which the processor stands; a move is a go or a call.
ghost use Rattle.std.specs.Prelude.{◌≡◌, true, false};
ghost use Rattle.step.specs.Model.Moves.{outcome, looking, line_outcome, act_outcome};

use crate::registers::stays;
use crate::{Effect, Outcome, View, call, lock, ready, trylock, unlock};
use state::{Chains, Position};

// No rule can be broken, and the mutex stays.
fn keeps(effect: Effect) -> Outcome
    ensures { result ≡ outcome false false effect }
{
    Outcome {
        broken: false,
        writes: false,
        effect,
    }
}

// The mutex may change.
fn writes(broken: bool, effect: Effect) -> Outcome
    ensures { result ≡ outcome broken true effect }
{
    Outcome {
        broken,
        writes: true,
        effect,
    }
}

// The view with what taking from queue m and from the ready queue finds. Few lines look there, so it is read for these alone.
fn looking(v: View, chains: &Chains, m: u8) -> View
    ensures { result ≡ looking chains.now m v }
{
    View {
        queue: chains.take(m),
        ready: chains.take(v.index),
        ..v
    }
}

// The line at which the processor stands, whose mutex's queue is queue m; at App, and at no line, nothing happens. With t threads a rule is broken where the count would leave 0 to t + 1,
// where the own sequence number would pass 4,000, and where L9 finds an empty queue.
// kept: one match, and no table of functions: a move jumps once by its line, and the table would be no plainer.
#[tactic(auto, unfolding(crate::specs::Model::Moves::line_outcome, crate::specs::Model::Moves::line_effect, crate::specs::Model::Moves::at_CI2, crate::specs::Model::Moves::at_CI3, crate::specs::Model::Moves::at_L1, crate::specs::Model::Moves::at_L3, crate::specs::Model::Moves::at_L4, crate::specs::Model::Moves::at_L6, crate::specs::Model::Moves::at_L7, crate::specs::Model::Moves::at_L8, crate::specs::Model::Moves::at_L9, crate::specs::Model::Moves::at_L10, crate::specs::Model::Moves::at_TL1, crate::specs::Model::Moves::at_GT1, crate::specs::Model::Moves::at_GT3, crate::specs::Model::Moves::at_TL3, crate::specs::Model::Moves::at_U1, crate::specs::Model::Moves::at_H2, crate::specs::Model::Moves::at_H3, crate::specs::Model::Moves::at_H5, crate::specs::Model::Moves::at_H6, crate::specs::Model::Moves::at_H8, crate::specs::Model::Moves::at_Y1, crate::specs::Model::Moves::at_Y2, crate::specs::Model::Moves::at_Y3, crate::specs::Model::Moves::at_C2))]
pub(crate) fn line(t: u8, v: View, chains: &Chains, m: u8) -> Outcome
    ensures { result ≡ line_outcome t (looking chains.now m v) }
{
    let r = v.proc;
    let x = v.mutex;
    // By a local: a match on the field itself costs every move 20 instructions more.
    let position = r.position;
    match position {
        Position::CI2 => keeps(ready::ci2(looking(v, chains, m))),
        Position::CI3 => keeps(ready::ci3(v)),
        Position::L1 => writes(t < x.count, lock::l1(v)),
        Position::L3 => keeps(lock::l3(v)),
        Position::L4 => keeps(lock::l4(v)),
        Position::L6 => keeps(lock::l6(v)),
        Position::L7 => keeps(lock::l7(looking(v, chains, m))),
        Position::L8 => writes(false, lock::l8(v)),
        Position::L9 => writes(chains.take(m).is_none(), lock::l9(looking(v, chains, m))),
        Position::L10 => keeps(lock::l10(v)),
        Position::TL1 => writes(false, trylock::tl1(v)),
        Position::GT1 => keeps(trylock::gt1(v)),
        Position::GT3 => writes(false, trylock::gt3(v)),
        Position::TL3 => writes(t < x.count, trylock::tl3(v)),
        Position::U1 => writes(x.count == 0, unlock::u1(v)),
        Position::H2 => writes(false, unlock::h2(looking(v, chains, m))),
        Position::H3 => keeps(unlock::h3(v)),
        Position::H5 => writes(4000 <= r.sequence, unlock::h5(v)),
        Position::H6 => keeps(unlock::h6(looking(v, chains, m))),
        Position::H8 => writes(false, unlock::h8(v)),
        Position::Y1 => keeps(ready::y1(looking(v, chains, m))),
        Position::Y2 => keeps(ready::y2(v)),
        Position::Y3 => keeps(ready::y3(v)),
        Position::C2 => keeps(ready::c2(v)),
        _ => keeps(stays(r, x)),
    }
}

// Action 0 is go, 1 to 6 are the calls.
// kept: a number, since any byte may be handed in as one; call_refusal answers those above 6.
#[tactic(auto, unfolding(crate::specs::Model::Moves::act_outcome, crate::specs::Model::Moves::act_effect, crate::specs::Model::Moves::line_outcome, crate::specs::Model::Moves::lock_call, crate::specs::Model::Moves::trylock_call, crate::specs::Model::Moves::unlock_call, crate::specs::Model::Moves::yield_call, crate::specs::Model::Moves::exit_call, crate::specs::Model::Moves::create_call))]
pub(crate) fn act(t: u8, action: u8, operand: u8, v: View, chains: &Chains, m: u8) -> Outcome
    ensures { result ≡ act_outcome t action operand (looking chains.now m v) }
{
    match action {
        1 => keeps(call::lock(v, operand)),
        2 => keeps(call::trylock(v, operand)),
        3 => keeps(call::unlock(v, operand)),
        4 => keeps(call::yield_now(v)),
        5 => keeps(call::exit(v)),
        6 => keeps(call::create(v, operand)),
        _ => line(t, v, chains, m),
    }
}
