// Reads lines from standard input to its end and responds to each with a line.
#![tactic(auto)]

ghost use Rattle.std.specs.Prelude.{◌≤◌, length};
ghost use Rattle.command.specs.Transcript.{Run};
ghost use Rattle.shell.specs.Answers.{context_of, initial};
ghost use Rattle.stepper.specs.Program.{stepper};

use command::printing::Page;
use command::program::Answering;
use command::reading::command_of;
use shell::Shell;
use std::io::Stdin;

#[derive(Drop)]
struct Stepper<'a> {
    shell: Shell,
    journal: &'a mut [u8],
}

impl Answering for Stepper<'_> {
    ghost program = { stepper };

    ghost context = { λ s. context_of s.shell s.journal.now };

    fn respond(&mut self, line: &[u8], page: &mut Page) {
        self.shell.respond(self.journal, command_of(line), page);
    }
}

// A line of more than 64 bytes is no command. No response has more than 593 bytes.
fn run(stdin: Stdin, journal: &mut [u8], chunk: &mut [u8], bytes: &mut [u8], out: &mut [u8])
    requires { (64 ≤ length bytes.old) × (593 ≤ length out.old) }
    ensures { Run stepper (initial journal.old) }
{
    let mut program = Stepper {
        shell: Shell::new(),
        journal,
    };
    command::program::run(stdin, &mut program, chunk, bytes, out);
}

fn main(rt: HostRuntime) {
    let mut journal = [0u8; 12000];
    let mut chunk = [0u8; 512];
    let mut bytes = [0u8; 64];
    let mut out = [0u8; 593];
    run(rt.stdin(), &mut journal, &mut chunk, &mut bytes, &mut out);
}
