// The machine's lines and calls as small functions, the causes for refusing a move, and one function for a whole move.
#![tactic(auto)]

pub mod call;
pub mod calls;
pub mod cause;
pub mod deciding;
pub mod line;
pub mod lock;
pub mod moves;
pub mod ready;
pub mod registers;
pub mod trylock;
pub mod unlock;

use state::queues::Front;
use state::refusal::Refusal;
use state::{Mutex, Processor, State};

// What a processor sees: its number, its registers, its mutex, what taking from that mutex's queue and from the ready queue that it works on finds,
// that ready queue's index, and how many ready queues there are.
#[derive(Clone, Copy)]
pub struct View {
    pub number: u8,
    pub proc: Processor,
    pub mutex: Mutex,
    pub queue: Option<Front>,
    pub ready: Option<Front>,
    pub index: u8,
    pub queues: u8,
}

// How a move changes the queues. Take(q, k, rest): the front thread k of queue q goes to the transit register, and rest is the first of what remains.
// Join(q, k): thread k joins queue q. Mark(k, status, holder): thread k is in no queue, with that status and holder.
#[derive(Clone, Copy)]
pub enum Transfer {
    Stay,
    Take(u8, u8, u8),
    Join(u8, u8),
    Mark(u8, u8, u8),
}

// What a line or a call makes of a view.
#[derive(Clone, Copy)]
pub struct Effect {
    pub proc: Processor,
    pub mutex: Mutex,
    pub transfer: Transfer,
}

// What comes of a line or a call: whether it would break a rule, whether it may change its mutex, and its effect.
// kept: a flag for the rule, since with a refusal in its place every move takes more instructions (docs/PERFORMANCE.md).
#[derive(Clone, Copy)]
pub struct Outcome {
    pub broken: bool,
    pub writes: bool,
    pub effect: Effect,
}

// What a move that is not refused makes: whether it may change its mutex, and its effect.
#[derive(Clone, Copy)]
pub struct Decision {
    pub writes: bool,
    pub effect: Effect,
}

// The statuses of a thread that is in no queue. No enum: a record may be handed in with any number, and rules::field::fields_ok answers those above 5.
#[derive(Clone, Copy)]
pub struct Status {}

impl Status {
    pub const CURRENT: u8 = 3;

    pub const TRANSIT: u8 = 4;

    pub const TERMINATED: u8 = 5;
}

// What a move's refusal needs of a record: its processors, threads, mutexes, and the moves applied.
#[derive(Clone, Copy)]
pub struct Sizes {
    pub p: u8,
    pub t: u8,
    pub m: u8,
    pub applied: u16,
}

// Where a list of moves leads: why a move is refused, if one is, how many moves were made before that, and the state after them.
#[derive(Clone, Copy)]
pub struct Run {
    pub outcome: Result<(), Refusal>,
    pub made: usize,
    pub state: State,
}
