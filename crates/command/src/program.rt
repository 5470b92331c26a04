// A program that answers lines, and its run: line after line, each response handed to write before more is read.
ghost use Rattle.std.specs.Prelude.{◌≡◌, ◌≤◌, List, ℕ, length, take};
ghost use Rattle.command.specs.Printing.{buffer_of, add, written};
ghost use Rattle.command.specs.Transcript.{Program, Turn, Run};

use crate::input::{Input, next_line, unread};
use crate::printing::Page;
use std::io::Stdin;

const STDOUT: i32 = 1;

// What answers lines. program: the text for a line, and what the line leaves; context: what is held.
pub trait Answering {
    ghost program: { Program };

    ghost context: { Self → program.Context };

    fn respond(&mut self, line: &[u8], page: &mut Page)
        ensures page_after { page.new ≡ written page.old (program.response line.now (context self.old)) }
        ensures self_after { context self.new ≡ program.after line.now (context self.old) };
}

// What a turn leaves, beside what is held. written: the bytes of the output that were handed to write; ok: they were written; ended: the input ended with it.
#[derive(Clone, Copy)]
struct Progress {
    input: Input,
    written: usize,
    ok: bool,
    ended: bool,
}

// The response to a line, put at the front of the output: how many bytes it has.
#[tactic(auto, unfolding(crate::specs::Printing::written))]
fn answered<A: Answering>(program: &mut A, line: &[u8], out: &mut [u8]) -> usize
    ensures text { buffer_of out.new result ≡ add (buffer_of out.old 0) (A.program.response line.now (A.context program.old)) }
    ensures left { A.context program.new ≡ A.program.after line.now (A.context program.old) }
{
    let mut page = Page { bytes: out, len: 0 };
    program.respond(line, &mut page);
    page.len
}

// The next line.
fn turn<A: Answering>(
    stdin: Stdin,
    program: &mut A,
    input: Input,
    chunk: &mut [u8],
    bytes: &mut [u8],
    out: &mut [u8],
) -> Progress
    requires fits { (l : List ℕ) (k : A.program.Context) → length (A.program.response l k) ≤ length out.old }
    requires seen { (l : List ℕ) (k : A.program.Context) → (A.program.response (take (length bytes.old) l) k ≡ A.program.response l k) × (A.program.after (take (length bytes.old) l) k ≡ A.program.after l k) }
    ensures { Turn A.program input chunk.old (A.context program.old) result.input chunk.new (A.context program.new) (take result.written out.new) result.ended }
{
    let next = next_line(stdin, input, chunk, bytes);
    if next.counts {
        let written = answered(program, &bytes[..next.line.len], out);
        return Progress {
            input: next.input,
            written,
            ok: io::write_all(STDOUT, &out[..written]),
            ended: next.ended,
        };
    }
    Progress {
        input: next.input,
        written: 0,
        ok: true,
        ended: next.ended,
    }
}

// The whole run, where the output has room for any response and a line is answered as its front that the buffer holds: until the input has ended or a write has failed.
// A proved loop has to end, so the lines are counted up to a number that no run reaches.
pub fn run<A: Answering>(
    stdin: Stdin,
    program: &mut A,
    chunk: &mut [u8],
    bytes: &mut [u8],
    out: &mut [u8],
)
    requires fits { (l : List ℕ) (k : A.program.Context) → length (A.program.response l k) ≤ length out.old }
    requires seen { (l : List ℕ) (k : A.program.Context) → (A.program.response (take (length bytes.old) l) k ≡ A.program.response l k) × (A.program.after (take (length bytes.old) l) k ≡ A.program.after l k) }
    ensures { Run A.program (A.context program.old) }
{
    let mut input = unread();
    for _ in 0..u64::MAX {
        let s = turn(stdin, program, input, chunk, bytes, out);
        input = s.input;
        if s.ended || !s.ok {
            break;
        }
    }
}
