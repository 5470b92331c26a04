// The commands of the script, over the session's entry points.
use crate::bench::{Bench, nothing};
use crate::bytes::{hash, hex, mixed, number, text};
use crate::line::Line;
use session::Moved;
use state::Session;
use state::access::{at, put};
use state::layout::{Width, picture_bytes};
use state::refusal::{Refusal, outcome};
use touch::Touch;

// Prints the kind and the number of the word read, and of the word written.
fn touched(touch: Touch) {
    number(touch.reads.kind() as u64, b" ");
    number(touch.reads.number() as u64, b" ");
    number(touch.writes.kind() as u64, b" ");
    number(touch.writes.number() as u64, b"\n");
}

impl Bench {
    // Prints the refusal, whether a field of the record changed, whether a byte of the journal did, and what stands after them. `other` is the record of a refusal.
    pub(crate) fn report(
        &mut self,
        answer: Result<Session, Refusal>,
        other: Session,
        alike: bool,
        after: &[u8],
    ) {
        let next = answer.unwrap_or(other);
        number(outcome(answer) as u64, b" ");
        number((self.session != next) as u64, b" ");
        number(!alike as u64, after);
        self.session = next;
    }

    // What a move or a turn answers: as others, then the words that it touched.
    pub(crate) fn report_move(&mut self, answer: Result<Moved, Refusal>, alike: bool) {
        let touch = answer.map(|made| made.touch).unwrap_or(Touch::nothing());
        let session = answer.map(|made| made.session);
        self.report(session, self.session, alike, b" ");
        touched(touch);
    }

    pub(crate) fn last_touch(&self) {
        let n = io::count(self.journal_lent, &self.journal);
        touched(session::last_touch(self.session, &self.journal[..n]));
    }

    pub(crate) fn start(&mut self, line: Line) {
        let answer = session::start(
            line.byte(1),
            line.byte(2),
            line.byte(3),
            line.byte(4),
            line.byte(5),
        );
        self.report(answer, nothing(), true, b"\n");
    }

    pub(crate) fn make_move(&mut self, line: Line) {
        let before = self.journal;
        let n = io::count(self.journal_lent, &self.journal);
        let (p, a, o) = (line.byte(1), line.byte(2), line.byte(3));
        let answer = session::make_move(self.session, &mut self.journal[..n], p, a, o);
        let alike = self.journal == before;
        self.report_move(answer, alike);
    }

    // The move's refusal where byte i of the journal is raised for it, round from 255 to 0.
    fn edited(&mut self, line: Line, i: usize) -> u8 {
        let b = at(&self.journal, i);
        put(&mut self.journal, i, b.wrapping_add(line.byte(1)));
        let n = io::count(self.journal_lent, &self.journal);
        let (p, a, o) = (line.byte(2), line.byte(3), line.byte(4));
        let answer = session::make_move(self.session, &mut self.journal[..n], p, a, o);
        put(&mut self.journal, i, b);
        outcome(answer)
    }

    // A number that stands for the refusals where each byte of the kept moves is raised in turn.
    pub(crate) fn sweep(&mut self, line: Line) {
        let mut x = 0;
        for i in 0..3 * (self.session.kept as usize) {
            x = mixed(x, self.edited(line, i));
        }
        number(x, b"\n");
    }

    pub(crate) fn goto(&mut self, k: usize) {
        let before = hash(&self.journal);
        let n = io::count(self.journal_lent, &self.journal);
        let answer = session::goto(self.session, &self.journal[..n], k);
        let alike = before == hash(&self.journal);
        self.report(answer, self.session, alike, b"\n");
    }

    // Prints the refusal, the front's length and its bytes.
    pub(crate) fn front(&self) {
        let n = io::count(self.journal_lent, &self.journal);
        let answer = session::front(self.session, &self.journal[..n]);
        let bytes = answer.unwrap_or(b"");
        number(outcome(answer) as u64, b" ");
        number(bytes.len() as u64, b" ");
        hex(bytes);
        text(b"\n");
    }

    // The turns ahead of a thread: a number, - where it does not wait, r before a refusal.
    pub(crate) fn ahead(&self, thread: u8) {
        match picture::ahead(self.session.state, thread) {
            Ok(Some(n)) => number(n as u64, b"\n"),
            Ok(None) => text(b"-\n"),
            Err(refusal) => {
                text(b"r");
                number(refusal.number() as u64, b"\n")
            }
        }
    }

    // The picture, written into as many bytes as the line says, else the longest picture's 296, or the number that refuses it; B and the number kept.
    pub(crate) fn picture(&self, line: Line) {
        let state = self.session.state;
        let mut bytes = [0u8; Width::PICTURE];
        let room = if line.at == 0 {
            296
        } else {
            line.number(1) as isize
        };
        let n = io::count(room, &bytes);
        match picture::write(state, &mut bytes[..n]) {
            Ok(()) => {
                let long = picture_bytes(state.p, state.t, state.m).min(bytes.len());
                hex(&bytes[..long]);
                text(b" ");
            }
            Err(refusal) => number(refusal.number() as u64, b" "),
        }
        number(self.session.initial as u64, b" ");
        number(self.session.kept as u64, b"\n");
    }
}
