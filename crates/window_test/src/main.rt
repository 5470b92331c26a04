// Lends one record to the calls of a script: prints what each answers, and at the end the session's picture, B and the number kept.
// A call is three characters and a line feed: a move's digits, or g and two digits of the step to go to.
#![tactic(auto)]

use state::Session;
use state::layout::{Width, picture_bytes};
use state::refusal::outcome;
use touch::Touch;

const STDIN: i32 = 0;

const STDOUT: i32 = 1;

fn number(n: u64, after: &[u8]) {
    io::print_decimal(STDOUT, n);
    io::write_all(STDOUT, after);
}

fn print_move(session: &mut Session, journal: &mut [u8], p: u8, a: u8, o: u8) {
    let answer = window::make_move(session, journal, p, a, o);
    let touch = answer.unwrap_or(Touch::nothing());
    number(outcome(answer) as u64, b" ");
    number(touch.reads.kind() as u64, b" ");
    number(touch.reads.number() as u64, b" ");
    number(touch.writes.kind() as u64, b" ");
    number(touch.writes.number() as u64, b"\n");
}

fn print_goto(session: &mut Session, journal: &[u8], k: usize) {
    let answer = window::goto(session, journal, k);
    number(outcome(answer) as u64, b"\n");
}

fn digit(b: u8) -> u8 {
    b.saturating_sub(b'0')
}

fn call(session: &mut Session, journal: &mut [u8], p: u8, a: u8, o: u8) {
    if p == b'g' {
        print_goto(
            session,
            journal,
            10 * (digit(a) as usize) + (digit(o) as usize),
        );
    } else {
        print_move(session, journal, digit(p), digit(a), digit(o));
    }
}

fn hex(bytes: &[u8]) {
    for b in bytes {
        io::print_hex(STDOUT, *b as u64, 2);
    }
}

fn show(session: Session) {
    let state = session.state;
    let mut bytes = [0u8; Width::PICTURE];
    let answer = picture::write(state, &mut bytes);
    let n = io::count(picture_bytes(state.p, state.t, state.m) as isize, &bytes);
    number(outcome(answer) as u64, b" ");
    hex(&bytes[..n]);
    io::write_all(STDOUT, b" ");
    number(session.initial as u64, b" ");
    number(session.kept as u64, b"\n");
}

fn run(script: &[u8], journal: &mut [u8]) {
    if let Ok(mut session) = session::start(2, 2, 1, 2, 0) {
        for line in script.chunks_exact(4) {
            call(&mut session, journal, line[0], line[1], line[2]);
        }
        show(session);
    }
}

fn main() {
    let mut script = io::buffer();
    let mut journal = [0u8; 12000];
    let n = io::read_full(STDIN, &mut script);
    run(&script[..n], &mut journal);
}
