// The words that a line or a call touches, from what its processor sees before it.
ghost use Rattle.std.specs.Prelude.{◌≡◌, true, false};
ghost use Rattle.step.specs.Model.Moves.{token, same_tokens};
ghost use Rattle.touch.specs.declared.Word.TheVariants as case;
ghost use Rattle.touch.specs.Association.{touch_record};
ghost use Rattle.touch.specs.Model.Made.{touching, ready_number, line_seen, act_seen};

use crate::{Sight, Touch, Word};
use state::{Position, Token};

// The word is read, and written where the test holds.
fn touching(test: bool, w: Word) -> Touch
    ensures { result ≡ touching test w }
{
    Touch {
        reads: w,
        writes: if test { w } else { Word::None },
    }
}

fn looks_at(w: Word) -> Touch
    ensures { result ≡ touching false w }
{
    touching(false, w)
}

fn changes(w: Word) -> Touch
    ensures { result ≡ touching true w }
{
    touching(true, w)
}

fn overwrites(w: Word) -> Touch
    ensures { result ≡ record { reads = case.None; writes = w } }
{
    Touch {
        reads: Word::None,
        writes: w,
    }
}

// The single ready queue, whose index is 0, is 1; that of processor p has index 8 + p.
fn ready_number(index: u8) -> u8
    ensures { result ≡ ready_number index }
{
    if index == 0 {
        return 1;
    }
    if 8 < index { index - 8 } else { 0 }
}

// The token is cleared where it is the one that was observed.
fn claims(v: Sight) -> Touch
    ensures { result ≡ touching (same_tokens v.mutex.token v.proc.observed) (case.Token v.proc.mutex) }
{
    touching(v.mutex.token == v.proc.observed, Word::Token(v.proc.mutex))
}

// The token is cleared where it is the one that this processor made.
fn takes_back(v: Sight) -> Touch
    ensures { result ≡ touching (same_tokens v.mutex.token (token v.number v.proc.sequence)) (case.Token v.proc.mutex) }
{
    let own = Token {
        processor: v.number,
        sequence: v.proc.sequence,
    };
    touching(v.mutex.token == own, Word::Token(v.proc.mutex))
}

// The line at which the processor stands.
#[tactic(auto, unfolding(crate::specs::Model::Made::line_seen, reference::specs::State::line_of, reference::specs::Touch::line_touch))]
fn line(v: Sight) -> Touch
    ensures { result ≡ touch_record (line_seen v) }
{
    let m = v.proc.mutex;
    let q = ready_number(v.index);
    match v.proc.position {
        Position::CI2 => touching(v.ready, Word::Ready(q)),
        Position::CI3 => Touch::nothing(),
        Position::L1 => changes(Word::Count(m)),
        Position::L3 => Touch::nothing(),
        Position::L4 => changes(Word::Queue(m)),
        Position::L6 => looks_at(Word::Token(m)),
        Position::L7 => looks_at(Word::Queue(m)),
        Position::L8 => claims(v),
        Position::L9 => touching(v.waiting, Word::Queue(m)),
        Position::L10 => Touch::nothing(),
        Position::TL1 => touching(v.mutex.count == 0, Word::Count(m)),
        Position::GT1 => looks_at(Word::Token(m)),
        Position::GT3 => claims(v),
        Position::TL3 => changes(Word::Count(m)),
        Position::U1 => changes(Word::Count(m)),
        Position::H2 => touching(v.waiting, Word::Queue(m)),
        Position::H3 => changes(Word::Ready(q)),
        Position::H5 => overwrites(Word::Token(m)),
        Position::H6 => looks_at(Word::Queue(m)),
        Position::H8 => takes_back(v),
        Position::Y1 => looks_at(Word::Ready(q)),
        Position::Y2 => Touch::nothing(),
        Position::Y3 => changes(Word::Ready(q)),
        Position::C2 => changes(Word::Ready(q)),
        _ => Touch::nothing(),
    }
}

// Of the calls a create touches its thread's birth; the others touch nothing.
#[tactic(auto, unfolding(crate::specs::Model::Made::line_seen, crate::specs::Model::Made::act_seen, reference::specs::Step::action_of, reference::specs::Touch::act_touch))]
pub(crate) fn act(v: Sight, action: u8, operand: u8) -> Touch
    ensures { result ≡ touch_record (act_seen action operand v) }
{
    match action {
        1 | 2 | 3 | 4 | 5 => Touch::nothing(),
        6 => changes(Word::Birth(operand)),
        _ => line(v),
    }
}
