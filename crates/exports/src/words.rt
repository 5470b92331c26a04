// Writing the words that moves touch, four bytes for each move.
ghost use Rattle.std.specs.Prelude.{◌≡◌, ◌++◌, ◌+◌, ◌*◌, ◌/◌, ◌≤◌, length, take, drop};
ghost use Rattle.reference.specs.Lists.{with_front};
ghost use Rattle.touch.specs.Association.{touch_shown, touch_bytes};
ghost use Rattle.exports.specs.Words.{moves_in};
ghost use Rattle.exports.specs.Model.Made.{made_by, move_from, made_words};

use state::State;
use touch::{Touch, make};

// One move, three bytes from `at` on, made in place: what it touched. Refused, the state stays and nothing is touched.
#[tactic(auto, unfolding(touch::specs::Model::Made::made_shown))]
pub(crate) fn make_in(state: &mut State, moves: &[u8], at: usize) -> Touch
    requires { at + 3 ≤ length moves.now }
    ensures state { state.new ≡ (made_by state.old (move_from moves.now at)).state }
    ensures touch { result ≡ (made_by state.old (move_from moves.now at)).touch }
{
    match make(*state, moves[at], moves[at + 1], moves[at + 2]) {
        Ok(made) => {
            *state = made.state;
            made.touch
        }
        Err(_) => Touch::nothing(),
    }
}

// The kind and the number of the word read, then of the word written, from byte `at` on.
fn put_touch(words: &mut [u8], at: usize, touch: Touch)
    requires { at + 4 ≤ length words.old }
    ensures { words.new ≡ take at words.old ++ touch_bytes (touch_shown touch) ++ drop (at + 4) words.old }
{
    words[at] = touch.reads.kind();
    words[at + 1] = touch.reads.number();
    words[at + 2] = touch.writes.kind();
    words[at + 3] = touch.writes.number();
}

// The words of each move, made from a state one after the other.
pub(crate) fn put_words(s: State, moves: &[u8], words: &mut [u8])
    requires { 4 * (length moves.now / 3) ≤ length words.old }
    ensures { words.new ≡ with_front words.old (made_words s (moves_in moves.now)) }
{
    let mut state = s;
    for i in 0..moves.len() / 3 {
        let touch = make_in(&mut state, moves, 3 * i);
        put_touch(words, 4 * i, touch);
    }
}
