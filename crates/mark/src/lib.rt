// Marks for a handed-in picture: each record that agrees with the machine's earns its points.
#![tactic(auto)]

ghost use Rattle.std.specs.Prelude.{◌≡◌};
ghost use Rattle.mark.specs.Mark.{marked, marked_of, state_marked};

mod points;

use state::State;
use state::layout::{Width, picture_bytes};
use state::refusal::Refusal;

// The mark of the candidate's picture, in hundredths. The machine's has to read, 11 to 14; then the candidate's has to have its length, 11.
#[tactic(auto, unfolding(state::specs::Refusal::number, crate::specs::Mark::marked, crate::specs::Mark::marked_of, crate::specs::Mark::mark_refusal))]
pub fn mark(machine: &[u8], candidate: &[u8]) -> Result<u16, Refusal>
    ensures { marked_of result ≡ marked machine.now candidate.now }
{
    picture::read(machine)?;
    if candidate.len() != machine.len() {
        return Err(Refusal::BadLength);
    }
    Ok(points::mark_of(machine, candidate))
}

// The mark against the picture of a state: 15, then 11.
#[tactic(auto, unfolding(state::specs::Refusal::outcome, crate::specs::Mark::marked_of, crate::specs::Mark::state_marked))]
pub fn mark_state(s: State, candidate: &[u8]) -> Result<u16, Refusal>
    ensures { marked_of result ≡ state_marked s candidate.now }
{
    let n = picture_bytes(s.p, s.t, s.m);
    let mut bytes = [0u8; Width::PICTURE];
    picture::write(s, &mut bytes)?;
    mark(&bytes[..n], candidate)
}
