// One move that also says which shared word it read and which it wrote.
#![tactic(auto)]

mod words;

ghost use Rattle.std.specs.Prelude.{◌≡◌};
ghost use Rattle.state.specs.Record.{processor_of};
ghost use Rattle.step.specs.Model.Moves.{view_of};
ghost use Rattle.touch.specs.Association.{touch_record, touch_shown, word_shown};
ghost use Rattle.reference.specs.Touch.{nothing, kind, number, same_word, touches_word, apart};
ghost use Rattle.touch.specs.Model.Made.{sight_of, touch_of, made_shown, made_of};

use state::access::at;
use state::refusal::Refusal;
use state::{Mutex, Processor, State};
use step::moves::{index_of, moved};

// A shared word: the count, the token or the queue of a mutex, a ready queue (the single one is 1), the birth of a thread, or none. The owner is no word.
#[derive(Clone, Copy, Debug, PartialEq, Eq)]
pub enum Word {
    None,
    Count(u8),
    Token(u8),
    Queue(u8),
    Ready(u8),
    Birth(u8),
}

// The word that a move read and the one that it wrote.
#[derive(Clone, Copy, Debug, PartialEq, Eq)]
pub struct Touch {
    pub reads: Word,
    pub writes: Word,
}

// A move that is not refused: the state after it, and what it touched.
#[derive(Clone, Copy, Debug, PartialEq, Eq)]
pub struct Made {
    pub state: State,
    pub touch: Touch,
}

impl Touch {
    pub fn nothing() -> Touch
        ensures { result ≡ touch_record nothing }
    {
        Touch {
            reads: Word::None,
            writes: Word::None,
        }
    }
}

impl Word {
    // 0 none, 1 count, 2 token, 3 queue, 4 ready queue, 5 birth.
    pub fn kind(self) -> u8
        ensures { result ≡ kind (word_shown self) }
    {
        match self {
            Word::None => 0,
            Word::Count(_) => 1,
            Word::Token(_) => 2,
            Word::Queue(_) => 3,
            Word::Ready(_) => 4,
            Word::Birth(_) => 5,
        }
    }

    // Of its mutex, ready queue or thread; 0 for none.
    pub fn number(self) -> u8
        ensures { result ≡ number (word_shown self) }
    {
        match self {
            Word::None => 0,
            Word::Count(m) => m,
            Word::Token(m) => m,
            Word::Queue(m) => m,
            Word::Ready(q) => q,
            Word::Birth(k) => k,
        }
    }
}

// The two are one word.
pub fn same_word(v: Word, w: Word) -> bool
    ensures { result ≡ same_word (word_shown v) (word_shown w) }
{
    v == w
}

// The word is read or written; none is no word.
fn touches_word(t: Touch, w: Word) -> bool
    ensures { result ≡ touches_word (touch_shown t) (word_shown w) }
{
    !same_word(w, Word::None) && (same_word(t.reads, w) || same_word(t.writes, w))
}

// Neither writes a word that the other touches.
#[tactic(auto, unfolding(reference::specs::Touch::apart))]
pub fn apart(t: Touch, u: Touch) -> bool
    ensures { result ≡ apart (touch_shown t) (touch_shown u) }
{
    !touches_word(u, t.writes) && !touches_word(t, u.writes)
}

// What a processor sees of the shared words: its number, its registers, its mutex, whether a thread is in that mutex's queue and in the ready queue that it works
// on, and that ready queue's index.
#[derive(Clone, Copy)]
pub(crate) struct Sight {
    pub number: u8,
    pub proc: Processor,
    pub mutex: Mutex,
    pub waiting: bool,
    pub ready: bool,
    pub index: u8,
}

// What processor p sees where it stands.
#[tactic(auto, unfolding(state::specs::Model::Access::taken))]
fn seen(s: State, p: u8) -> Sight
    ensures { result ≡ sight_of (view_of s p (processor_of s p).mutex) }
{
    let r = s.processor(p);
    let index = index_of(s.stealing, s.p, p, r);
    Sight {
        number: p,
        proc: r,
        mutex: at(&s.mutexes, r.mutex as usize),
        waiting: at(&s.chains.firsts, r.mutex as usize) != 0,
        ready: at(&s.chains.firsts, index as usize) != 0,
        index,
    }
}

// What a move made from s touches.
pub fn touched(s: State, p: u8, action: u8, operand: u8) -> Touch
    ensures { result ≡ touch_record (touch_of s p action operand) }
{
    words::act(seen(s, p), action, operand)
}

// One move. Refused, nothing is touched.
#[tactic(auto, using(state::proofs::Refused::numbered), unfolding(step::specs::Model::Moves::moved_shown, crate::specs::Model::Made::made_shown, crate::specs::Model::Made::made_of))]
pub fn make(s: State, p: u8, action: u8, operand: u8) -> Result<Made, Refusal>
    ensures { made_shown s result ≡ made_of s p action operand }
{
    let state = moved(s, p, action, operand)?;
    let touch = touched(s, p, action, operand);
    Ok(Made { state, touch })
}
