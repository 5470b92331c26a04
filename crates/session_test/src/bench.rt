// What a script works on, and the script's commands.
use crate::bytes::{hash, noise, number, text};
use crate::fields::set_field;
use crate::line::Line;
use state::access::put;
use state::{Session, State};

// The record, the one kept, the buffers, and how many bytes of the journal and of the scripts are lent. Both journals have a byte more than is needed.
#[derive(Drop)]
pub struct Bench {
    pub session: Session,
    pub stored: Session,
    pub journal: [u8; 12001],
    pub kept: [u8; 12001],
    pub scripts: [u8; 420],
    pub list: [u8; 128],
    pub answers: [u8; 130],
    pub pictures: [u8; 20000],
    pub journal_lent: isize,
    pub scripts_lent: isize,
}

// The record that stands for no session.
pub(crate) fn nothing() -> Session {
    Session {
        state: State::zero(),
        initial: 0,
        kept: 0,
    }
}

impl Bench {
    pub(crate) fn new() -> Bench {
        Bench {
            session: nothing(),
            stored: nothing(),
            journal: [0; 12001],
            kept: [0; 12001],
            scripts: [0; 420],
            list: [0; 128],
            answers: [0; 130],
            pictures: [0; 20000],
            journal_lent: 12001,
            scripts_lent: 420,
        }
    }

    // Keeps the record and the journal.
    fn keep(&mut self) {
        self.stored = self.session;
        self.kept = self.journal;
    }

    // The record and the journal that were kept.
    fn restore(&mut self) {
        self.session = self.stored;
        self.journal = self.kept;
    }

    // Executes a line, whose word's first letter names the command.
    pub(crate) fn execute(&mut self, line: Line) {
        let n = line.number(1);
        match line.word {
            b's' => self.start(line),
            b'm' => self.make_move(line),
            b'g' => self.goto(n as usize),
            b'i' => self.init(line),
            b't' => self.turn(line.byte(1)),
            b'd' => self.class(line),
            b'f' => self.front(),
            b'p' => self.picture(line),
            b'q' => self.ahead(line.byte(1)),
            b'x' => self.last_touch(),
            b'h' => number(hash(&self.journal), b"\n"),
            b'j' => self.sweep(line),
            b'c' => set_field(&mut self.session, n, line.number(2)),
            b'w' => put(&mut self.journal, n as usize, line.byte(2)),
            b'n' => noise(n, &mut self.journal),
            b'k' => self.keep(),
            b'r' => self.session = self.stored,
            b'a' => self.restore(),
            b'l' => self.journal_lent = n as isize,
            b'u' => self.scripts_lent = n as isize,
            b'e' | b'o' | b'b' | b'v' => self.fill(line),
            b'#' => {}
            _ => text(b"?\n"),
        }
    }
}
