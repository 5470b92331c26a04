// The fields of a session's record by their numbers: 0 to 4 are P, T, M, the moves applied and B, 5 to 13 the firsts of queues 0 to 8, 14 to 85 the processors (8 each), 86 to 121 the mutexes (4 each), 122 to 220 the threads (3 each), 221 the choice of ready queues, 222 to 229 the firsts of those of the processors, 230 to 238 the processors' look numbers, 239 the number kept. Each table begins with its unused row 0.
use crate::line::low;
use state::{Mutex, Processor, Session, State, Thread};

fn set_in_processor(r: &mut Processor, f: u16, v: u16) {
    let b = low(v);
    match f {
        0 => r.position = b,
        1 => r.current = b,
        2 => r.transit = b,
        3 => r.mutex = b,
        4 => r.observed.processor = b,
        5 => r.observed.sequence = v,
        6 => r.sequence = v,
        _ => r.answer = b,
    }
}

fn set_in_mutex(r: &mut Mutex, f: u16, v: u16) {
    let b = low(v);
    match f {
        0 => r.count = b,
        1 => r.owner = b,
        2 => r.token.processor = b,
        _ => r.token.sequence = v,
    }
}

fn set_in_thread(r: &mut Thread, f: u16, b: u8) {
    match f {
        0 => r.status = b,
        1 => r.holder = b,
        _ => r.next = b,
    }
}

// Field i of the state, if it is one.
fn set_in_state(state: &mut State, i: u16, v: u16) {
    let b = low(v);
    let k = i as usize;
    match i {
        0 => state.p = b,
        1 => state.t = b,
        2 => state.m = b,
        3 => state.applied = v,
        5..=13 => state.chains.firsts[k - 5] = b,
        14..=85 => set_in_processor(&mut state.processors[(k - 14) / 8], (i - 14) % 8, v),
        86..=121 => set_in_mutex(&mut state.mutexes[(k - 86) / 4], (i - 86) % 4, v),
        122..=220 => set_in_thread(&mut state.chains.threads[(k - 122) / 3], (i - 122) % 3, b),
        221 => state.stealing = b,
        222..=229 => state.chains.firsts[k - 213] = b,
        230.. => {
            let p = low(i - 230) as usize;
            if p < 9 {
                state.processors[p].probe = b;
            }
        }
        _ => {}
    }
}

// Sets field i to v.
pub(crate) fn set_field(session: &mut Session, i: u16, v: u16) {
    match i {
        4 => session.initial = low(v),
        239 => session.kept = v,
        _ => set_in_state(&mut session.state, i, v),
    }
}
