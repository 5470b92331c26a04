// The commands of scripted threads: a scripted start, turns, classes, and the buffers that these are lent.
use crate::bench::{Bench, nothing};
use crate::bytes::{hash, noise, number};
use crate::line::{Line, low};
use state::access::put;

// Bytes i to i + 2 become the numbers after the first.
fn edit(bytes: &mut [u8], line: Line) {
    let i = line.number(1) as usize;
    put(bytes, i, line.byte(2));
    put(bytes, i + 1, line.byte(3));
    put(bytes, i + 2, line.byte(4));
}

fn up_to(b: u8, most: u8) -> u8 {
    low((b as u16) % (most as u16 + 1))
}

// Numbers from 0 to the most, from a seed.
fn build(seed: u16, most: u8, list: &mut [u8]) {
    noise(seed, list);
    for b in list.iter_mut() {
        *b = up_to(*b, most);
    }
}

impl Bench {
    pub(crate) fn init(&mut self, line: Line) {
        let n = io::count(self.scripts_lent, &self.scripts);
        let answer = turns::start(
            line.byte(1),
            line.byte(2),
            line.byte(3),
            line.byte(4),
            line.byte(5),
            &self.scripts[..n],
        );
        self.report(answer, nothing(), true, b"\n");
    }

    pub(crate) fn turn(&mut self, p: u8) {
        let before = self.journal;
        let n = io::count(self.journal_lent, &self.journal);
        let scripts = self.scripts;
        let k = io::count(self.scripts_lent, &scripts);
        let answer = turns::turn(self.session, &mut self.journal[..n], &scripts[..k], p);
        let alike = self.journal == before;
        self.report_move(answer, alike);
    }

    // Prints also numbers that stand for all answers and pictures.
    pub(crate) fn class(&mut self, line: Line) {
        let before = hash(&self.journal);
        let n = io::count(self.journal_lent, &self.journal);
        let scripts = self.scripts;
        let k = io::count(self.scripts_lent, &scripts);
        let list = self.list;
        let c = io::count(line.number(1) as isize, &list);
        let mut answers = self.answers;
        let a = io::count(line.number(2) as isize, &answers);
        let mut pictures = self.pictures;
        let q = io::count(line.number(3) as isize, &pictures);
        let answer = turns::class(
            self.session,
            &mut self.journal[..n],
            &scripts[..k],
            &list[..c],
            &mut answers[..a],
            &mut pictures[..q],
        );
        self.answers = answers;
        self.pictures = pictures;
        let alike = before == hash(&self.journal);
        self.report(answer, self.session, alike, b" ");
        number(hash(&self.answers), b" ");
        number(hash(&self.pictures), b"\n");
    }

    // The commands that fill a buffer.
    pub(crate) fn fill(&mut self, line: Line) {
        match line.word {
            b'e' => edit(&mut self.scripts, line),
            b'o' => edit(&mut self.list, line),
            b'b' => build(line.number(1), line.byte(2), &mut self.list),
            _ => {
                noise(line.number(1), &mut self.answers);
                noise(line.number(1), &mut self.pictures);
            }
        }
    }
}
