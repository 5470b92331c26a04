// Replaying moves from a start table, with the place of the first that is refused.
ghost use Rattle.std.specs.Prelude.{◌≡◌};
ghost use Rattle.session.specs.Contract.{table};
ghost use Rattle.exports.specs.Replay.{replay_place};
ghost use Rattle.exports.specs.Model.Replayed.{Replays};

use state::State;
use state::refusal::Refusal;
use step::moves::run;

// The state that the moves lead to: 1, then the number of the first refused move. Its place is counted from 1; where none is refused, it is 0.
pub(crate) fn replay(
    p: u8,
    t: u8,
    m: u8,
    b: u8,
    stealing: u8,
    moves: &[u8],
    place: &mut u32,
) -> Result<State, Refusal>
    ensures state { Replays (table p t m b stealing) moves.now result }
    ensures place { place.new ≡ replay_place (table p t m b stealing) moves.now }
{
    *place = 0;
    let begun = session::start(p, t, m, b, stealing)?;
    let mut none = [0u16; 1];
    let done = run(begun.state, moves, &mut none);
    *place = (done.made as u32) + 1;
    done.outcome?;
    if moves.len() % 3 != 0 {
        return Err(Refusal::BadOperand);
    }
    *place = 0;
    Ok(done.state)
}
