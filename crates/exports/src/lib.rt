// Functions that C, Rust and Python programs call: numbers and byte slices in, a number out. include/humdayeg.h documents each.
#![tactic(auto)]

ghost use Rattle.std.specs.Prelude.{◌≡◌, length};
ghost use Rattle.session.specs.Contract.{table};
ghost use Rattle.picture.specs.Picture.{read_refusal};
ghost use Rattle.mark.specs.Mark.{answer};
ghost use Rattle.exports.specs.Replay.{replay_refusal, replay_place, replay_buffer};
ghost use Rattle.exports.specs.Words.{words_number, words_written};
ghost use Rattle.exports.specs.Independent.{independent_answer};
ghost use Rattle.exports.specs.Turns.{ahead_answer};
ghost use Rattle.exports.specs.Model.Answers.{small_number};
ghost use Rattle.exports.specs.Class.{class_number, class_answered, class_pictured};

mod neighbours;
mod numbers;
mod replay;
mod sessions;
mod words;

use crate::neighbours::may_exchange;
use crate::numbers::{small, wide};
use crate::replay::replay;
use crate::words::put_words;
use state::State;
use state::refusal::{Refusal, outcome};

// Turns ahead: a thread that does not wait.
const NOT_WAITING: u8 = 100;

// Replays moves, three bytes each, from a start table and writes the picture of the state that they lead to: 1, the number of the first refused move
// with its place, counted from 1, or 10, else 0. Refused, no byte of the picture is written. Where no move is refused the place is 0.
// The table has a single ready queue.
#[unsafe(no_mangle)]
pub extern "C" fn humdayeg_replay(
    p: u8,
    t: u8,
    m: u8,
    b: u8,
    moves: &[u8],
    picture: &mut [u8],
    place: &mut u32,
) -> u8
    ensures number { result ≡ replay_refusal (table p t m b 0) moves.now (length picture.old) }
    ensures written { picture.new ≡ replay_buffer (table p t m b 0) moves.now picture.old }
    ensures place { place.new ≡ replay_place (table p t m b 0) moves.now }
{
    humdayeg_replay_with(p, t, m, b, 0, moves, picture, place)
}

// The same of a table with a fifth number: 0 for a single ready queue, 1 for one for each processor.
#[unsafe(no_mangle)]
pub extern "C" fn humdayeg_replay_with(
    p: u8,
    t: u8,
    m: u8,
    b: u8,
    stealing: u8,
    moves: &[u8],
    picture: &mut [u8],
    place: &mut u32,
) -> u8
    ensures number { result ≡ replay_refusal (table p t m b stealing) moves.now (length picture.old) }
    ensures written { picture.new ≡ replay_buffer (table p t m b stealing) moves.now picture.old }
    ensures place { place.new ≡ replay_place (table p t m b stealing) moves.now }
{
    match replay(p, t, m, b, stealing, moves, place) {
        Ok(state) => outcome(picture::write(state, picture)),
        Err(refusal) => refusal.number(),
    }
}

// Replays moves as humdayeg_replay_with does, with the same places, and writes four bytes for each: kind and number of the word that it read, then of the
// one that it wrote: 1, the number of the first refused move, or 10, else 0. Refused, no byte of the words is written.
#[unsafe(no_mangle)]
pub extern "C" fn humdayeg_words(
    p: u8,
    t: u8,
    m: u8,
    b: u8,
    stealing: u8,
    moves: &[u8],
    words: &mut [u8],
    place: &mut u32,
) -> u8
    ensures number { result ≡ words_number (table p t m b stealing) moves.now (length words.old) }
    ensures written { words.new ≡ words_written (table p t m b stealing) moves.now words.old }
    ensures place { place.new ≡ replay_place (table p t m b stealing) moves.now }
{
    match replay(p, t, m, b, stealing, moves, place) {
        Err(refusal) => refusal.number(),
        Ok(_) if words.len() / 4 < moves.len() / 3 => Refusal::TooShort.number(),
        Ok(_) => {
            put_words(State::start(p, t, m, b, stealing), moves, words);
            0
        }
    }
}

// Replays moves as humdayeg_replay_with does, with the same places, and says whether the moves at places `first` and `first` + 1, counted from 1, may change
// places: 1 or 0; 200 plus 1, the number of the first refused move, or 3 where there are no two moves at these places.
#[unsafe(no_mangle)]
pub extern "C" fn humdayeg_independent(
    p: u8,
    t: u8,
    m: u8,
    b: u8,
    stealing: u8,
    moves: &[u8],
    first: u32,
    place: &mut u32,
) -> u8
    ensures answer { result ≡ independent_answer (table p t m b stealing) moves.now first }
    ensures place { place.new ≡ replay_place (table p t m b stealing) moves.now }
{
    small(may_exchange(p, t, m, b, stealing, moves, first, place))
}

// The number that reading a picture gets: 11, 12, 13 or 14, or 0.
#[unsafe(no_mangle)]
pub extern "C" fn humdayeg_read(picture: &[u8]) -> u8
    ensures { result ≡ read_refusal picture.now }
{
    outcome(picture::read(picture))
}

// How many threads get a thread's mutex before it, in the state that a picture shows; 100 where it is not waiting.
fn turns_ahead(picture: &[u8], thread: u8) -> Result<u8, Refusal>
    ensures { small_number result ≡ ahead_answer picture.now thread }
{
    let state = picture::read(picture)?;
    let turns = picture::ahead(state, thread)?;
    Ok(turns.unwrap_or(NOT_WAITING))
}

// Turns ahead of a thread in a picture: 0 to 32; 100 where it is not waiting; 200 plus the number of a refusal, the picture's or 3.
#[unsafe(no_mangle)]
pub extern "C" fn humdayeg_ahead(picture: &[u8], thread: u8) -> u8
    ensures { result ≡ ahead_answer picture.now thread }
{
    small(turns_ahead(picture, thread))
}

// A class from a start table, scripts and turns (a byte each, the processor): each turn's answer and the picture after it, accepted or not, written
// behind one another: 1, 19, 10, else 0. Refused, no byte of either buffer is written. The table has a single ready queue.
#[unsafe(no_mangle)]
pub extern "C" fn humdayeg_class(
    p: u8,
    t: u8,
    m: u8,
    b: u8,
    scripts: &[u8],
    turns: &[u8],
    answers: &mut [u8],
    pictures: &mut [u8],
) -> u8
    ensures number { result ≡ class_number (table p t m b 0) scripts.now turns.now answers.old pictures.old }
    ensures answers { answers.new ≡ class_answered (table p t m b 0) scripts.now turns.now answers.old pictures.old }
    ensures pictures { pictures.new ≡ class_pictured (table p t m b 0) scripts.now turns.now answers.old pictures.old }
{
    humdayeg_class_with(p, t, m, b, 0, scripts, turns, answers, pictures)
}

// The same of a table with a fifth number.
#[unsafe(no_mangle)]
pub extern "C" fn humdayeg_class_with(
    p: u8,
    t: u8,
    m: u8,
    b: u8,
    stealing: u8,
    scripts: &[u8],
    turns: &[u8],
    answers: &mut [u8],
    pictures: &mut [u8],
) -> u8
    ensures number { result ≡ class_number (table p t m b stealing) scripts.now turns.now answers.old pictures.old }
    ensures answers { answers.new ≡ class_answered (table p t m b stealing) scripts.now turns.now answers.old pictures.old }
    ensures pictures { pictures.new ≡ class_pictured (table p t m b stealing) scripts.now turns.now answers.old pictures.old }
{
    match turns::start(p, t, m, b, stealing, scripts) {
        Ok(session) => {
            let mut journal = [0u8; 12000];
            let done = turns::class(session, &mut journal, scripts, turns, answers, pictures);
            outcome(done)
        }
        Err(refusal) => refusal.number(),
    }
}

// The mark of a candidate's picture against the machine's: 0 to 10,000 in hundredths, or 20,000 plus the number of a refusal.
#[unsafe(no_mangle)]
pub extern "C" fn humdayeg_mark(machine: &[u8], candidate: &[u8]) -> u16
    ensures { result ≡ answer machine.now candidate.now }
{
    wide(mark::mark(machine, candidate))
}
