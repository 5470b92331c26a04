// Reads lines from standard input to its end and responds to each.
#![tactic(auto)]

mod answers;
mod class;
mod help;

ghost use Rattle.std.specs.Prelude.{◌≤◌, length};
ghost use Rattle.command.specs.Transcript.{Run};
ghost use Rattle.course.specs.Program.{context_of, started_with, course};

use crate::answers::{Base, Course};
use command::printing::Page;
use command::program::Answering;
use command::request::request_of;
use shell::Shell;
use std::io::Stdin;

// The numbers in a line are put into `numbers`.
impl Answering for Course<'_> {
    ghost program = { course };

    ghost context = { context_of };

    fn respond(&mut self, line: &[u8], page: &mut Page) {
        let mut numbers = [0u8; 1024];
        let request = request_of(line, &mut numbers);
        self.answer(request, &numbers, page);
    }
}

// A line of more than 2,048 bytes shows by its first 2,049. No response has more than 700,000 bytes.
fn run(
    stdin: Stdin,
    journal: &mut [u8],
    scripts: &mut [u8],
    chunk: &mut [u8],
    bytes: &mut [u8],
    out: &mut [u8],
)
    requires { (2049 ≤ length bytes.old) × (700000 ≤ length out.old) }
    ensures { Run course (started_with journal.old scripts.old) }
{
    let mut program = Course {
        base: Base {
            shell: Shell::new(),
            journal,
        },
        scripts,
    };
    command::program::run(stdin, &mut program, chunk, bytes, out);
}

// Scripts of 32 threads, all empty, take 416 bytes.
fn main(rt: HostRuntime) {
    let mut journal = [0u8; 12000];
    let mut scripts = [0u8; 416];
    let mut chunk = [0u8; 512];
    let mut bytes = [0u8; 2049];
    let mut out = [0u8; 700000];
    run(
        rt.stdin(),
        &mut journal,
        &mut scripts,
        &mut chunk,
        &mut bytes,
        &mut out,
    );
}
