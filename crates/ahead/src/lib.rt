// Turns ahead of a thread, and whether it may be overtaken.
#![tactic(auto)]

ghost use Rattle.std.specs.Prelude.{◌≡◌};
ghost use Rattle.ahead.specs.Turns.{meaning, ahead, ahead_shown, answer};

mod waiting;

use state::State;
use state::range::in_range;
use state::refusal::Refusal;

// A waiting thread's turns, and the mark 'may be overtaken'.
#[derive(Clone, Copy, Debug, PartialEq, Eq)]
pub struct Place {
    pub turns: u8,
    pub overtakable: bool,
}

// How many threads get a thread's mutex before it: those in front of it in the queue, and the owner; and whether others may overtake it. None where it does not wait. 15, then 3.
#[tactic(auto, unfolding(state::specs::Refusal::number, crate::specs::Turns::ahead, crate::specs::Turns::ahead_shown, crate::specs::Turns::answer))]
pub fn ahead(s: State, thread: u8) -> Result<Option<Place>, Refusal>
    ensures shown { ahead_shown result ≡ ahead s thread }
    ensures means { meaning (ahead_shown result) ≡ answer s thread }
{
    if !rules::state_ok(s) {
        return Err(Refusal::BadRecord);
    }
    if !in_range(1, s.t, thread) {
        return Err(Refusal::BadOperand);
    }
    Ok(waiting::turns_ahead(&s, thread))
}
