// The machine's record as structs by value, with its queues as chains of threads.
#![tactic(auto)]

pub mod access;
pub mod layout;
pub mod queues;
pub mod range;
pub mod refusal;
pub mod start;

#[derive(Clone, Copy, Debug, PartialEq, Eq)]
pub struct Position {}

// The lines at which a processor can stand, by their numbers. No enum: a record may be handed in with any number, and rules::field::fields_ok answers those above 24.
impl Position {
    pub const APP: u8 = 0;

    pub const CI2: u8 = 1;

    pub const CI3: u8 = 2;

    pub const L1: u8 = 3;

    pub const L3: u8 = 4;

    pub const L4: u8 = 5;

    pub const L6: u8 = 6;

    pub const L7: u8 = 7;

    pub const L8: u8 = 8;

    pub const L9: u8 = 9;

    pub const L10: u8 = 10;

    pub const TL1: u8 = 11;

    pub const GT1: u8 = 12;

    pub const GT3: u8 = 13;

    pub const TL3: u8 = 14;

    pub const U1: u8 = 15;

    pub const H2: u8 = 16;

    pub const H3: u8 = 17;

    pub const H5: u8 = 18;

    pub const H6: u8 = 19;

    pub const H8: u8 = 20;

    pub const Y1: u8 = 21;

    pub const Y2: u8 = 22;

    pub const Y3: u8 = 23;

    pub const C2: u8 = 24;
}

// A processor and a sequence number (rank); (0, 0) is none.
#[derive(Clone, Copy, Debug, PartialEq, Eq)]
pub struct Token {
    pub processor: u8,
    pub sequence: u16,
}

// current: the thread that it runs; transit: one on its way; observed: the token that it has seen; sequence: that of its last token; probe: which ready queue it looks at, at CI2.
#[derive(Clone, Copy, Debug, PartialEq, Eq)]
pub struct Processor {
    pub position: u8,
    pub current: u8,
    pub transit: u8,
    pub mutex: u8,
    pub observed: Token,
    pub sequence: u16,
    pub answer: u8,
    pub probe: u8,
}

#[derive(Clone, Copy, Debug, PartialEq, Eq)]
pub struct Mutex {
    pub count: u8,
    pub owner: u8,
    pub token: Token,
}

// status: the place, 0 new, 1 ready, 2 waiting, 3 current, 4 transit, 5 terminated; holder: its mutex (2) or processor (3, 4, and 1 where each has its queue); next: the next in its queue.
#[derive(Clone, Copy, Debug, PartialEq, Eq)]
pub struct Thread {
    pub status: u8,
    pub holder: u8,
    pub next: u8,
}

// The queues as chains: the first of queue q, and each thread with its next. Queue 0 is the single ready queue, m that of mutex m, 8 + p the ready queue of processor p.
#[derive(Clone, Copy, Debug, PartialEq, Eq)]
pub struct Chains {
    pub firsts: [u8; 17],
    pub threads: [Thread; 33],
}

// Index 0 of each array stands for no processor, mutex or thread and stays zero, as does what lies past P, M and T.
// stealing: 0 for a single ready queue, 1 for one for each processor.
#[derive(Clone, Copy, Debug, PartialEq, Eq)]
pub struct State {
    pub p: u8,
    pub t: u8,
    pub m: u8,
    pub stealing: u8,
    pub applied: u16,
    pub chains: Chains,
    pub processors: [Processor; 9],
    pub mutexes: [Mutex; 9],
}

// A session's record: its state, B (the threads created at first), and how many moves are kept: those that stand, and those behind them that were gone back over.
#[derive(Clone, Copy, Debug, PartialEq, Eq)]
pub struct Session {
    pub state: State,
    pub initial: u8,
    pub kept: u16,
}
