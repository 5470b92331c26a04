// Whether two neighbouring moves may change places.
ghost use Rattle.std.specs.Prelude.{◌≡◌, ◌+◌, ◌≤◌, length};
ghost use Rattle.session.specs.Contract.{table};
ghost use Rattle.exports.specs.Replay.{replay_place};
ghost use Rattle.exports.specs.Independent.{independent_answer};
ghost use Rattle.exports.specs.Model.Answers.{small_number};
ghost use Rattle.exports.specs.Model.Made.{move_from, made_independent};

use crate::replay::replay;
use crate::words::make_in;
use state::State;
use state::refusal::Refusal;
use step::moves::run;
use touch::apart;

// The two moves from byte `at` on, made from a state one after the other, are of different processors, and neither writes a word that the other touches.
fn independent(s: State, moves: &[u8], at: usize) -> bool
    requires { at + 6 ≤ length moves.now }
    ensures { result ≡ made_independent s (move_from moves.now at) (move_from moves.now (at + 3)) }
{
    let mut state = s;
    let next = at + 3;
    let one = make_in(&mut state, moves, at);
    let two = make_in(&mut state, moves, next);
    let separate = apart(one, two);
    (moves[at] != moves[next]) & separate
}

// 1 where the moves at the places `first` and `first` + 1, counted from 1, may change places, and 0 where not.
pub(crate) fn may_exchange(
    p: u8,
    t: u8,
    m: u8,
    b: u8,
    stealing: u8,
    moves: &[u8],
    first: u32,
    place: &mut u32,
) -> Result<u8, Refusal>
    ensures answer { small_number result ≡ independent_answer (table p t m b stealing) moves.now first }
    ensures place { place.new ≡ replay_place (table p t m b stealing) moves.now }
{
    replay(p, t, m, b, stealing, moves, place)?;
    let k = first as usize;
    if k == 0 || moves.len() / 3 <= k {
        return Err(Refusal::BadOperand);
    }
    let from = 3 * (k - 1);
    let mut none = [0u16; 1];
    let before = run(
        State::start(p, t, m, b, stealing),
        &moves[..from],
        &mut none,
    );
    Ok(u8::from(independent(before.state, moves, from)))
}
