// The response to one line: the session and the scripts that the program holds, and the text put on a page.
ghost use Rattle.std.specs.Prelude.{◌≡◌, true, Some, ◌≤◌, length};
ghost use Rattle.command.specs.Printing.{written};
ghost use Rattle.command.specs.Request.{plain, asked, count_in};
ghost use Rattle.state.specs.declared.Session as record_of;
ghost use Rattle.touch.specs.Association.{touch_shown};
ghost use Rattle.reference.specs.Step.{move_of};
ghost use Rattle.session.specs.Contract.{move_answer_of, moved, journal_after, last_touched};
ghost use Rattle.turns.specs.Contract.{turned, turn_journal, classed, class_journal};
ghost use Rattle.view.specs.Table.{view_text};
ghost use Rattle.chart.specs.Chart.{chart_text};
ghost use Rattle.mark.specs.Mark.{marked_of};
ghost use Rattle.shell.specs.Answers as stepper;
ghost use Rattle.course.specs.Answers.{move_text, zeros, class_text, mark_text};
ghost use Rattle.course.specs.Program.{base_of, context_of, starts, response, after};

use crate::class::class;
use crate::help::put_help;
use command::Command;
use command::printing::Page;
use command::request::Request;
use session::Moved;
use shell::Shell;
use state::Session;
use state::refusal::{Refusal, outcome};
use view::words::put_touch;

// The session and the journal, as the stepper has them.
#[derive(Drop)]
pub struct Base<'a> {
    pub shell: Shell,
    pub journal: &'a mut [u8],
}

#[derive(Drop)]
pub struct Course<'a> {
    pub base: Base<'a>,
    pub scripts: &'a mut [u8],
}

// Whether a command is a start that is accepted.
#[tactic(auto, unfolding(crate::specs::Program::starts))]
fn begins(command: Command) -> bool
    ensures { result ≡ starts command }
{
    match command {
        Command::Start(p, t, m, b) => session::start(p, t, m, b, 0).is_ok(),
        Command::StartWith(p, t, m, b, stealing) => session::start(p, t, m, b, stealing).is_ok(),
        Command::Move(_, _, _) => false,
        Command::Goto(_) => false,
        Command::Show => false,
        Command::Unknown => false,
    }
}

// The number of a move or a turn, with the words that it touched where it is accepted.
#[tactic(auto, using(command::proofs::Put::page_steps, crate::proofs::Lines::for_refusal), unfolding(session::specs::Contract::move_answer_of, crate::specs::Answers::move_text))]
fn put_moved(page: &mut Page, answer: Result<Moved, Refusal>)
    ensures by_index { (r : record_of.Session) → page.new ≡ written page.old (move_text (move_answer_of r answer).refusal (touch_shown (move_answer_of r answer).touch)) }
{
    match answer {
        Ok(made) => {
            page.number(0);
            put_touch(page, made.touch);
            page.push(b'\n');
        }
        Err(refusal) => page.number_line(refusal.number()),
    }
}

// A mark on a line of its own, or the refusal.
#[tactic(auto, using(command::proofs::Put::page_steps, crate::proofs::Lines::for_refusal), unfolding(mark::specs::Mark::marked_of, crate::specs::Answers::mark_text))]
fn put_mark(page: &mut Page, answer: Result<u16, Refusal>)
    ensures { page.new ≡ written page.old (mark_text (marked_of answer)) }
{
    match answer {
        Ok(mark) => {
            page.hundredths(mark);
            page.push(b'\n');
        }
        Err(refused) => page.number_line(refused.number()),
    }
}

// A turn of processor p.
#[tactic(auto, unfolding(session::specs::Contract::move_answer_of))]
fn turn_line(base: &mut Base, scripts: &mut [u8], session: Session, p: u8, page: &mut Page)
    ensures base_after { base_of base.new ≡ stepper.holding true (turned session base.old.journal.now scripts.old p).session (turn_journal session base.old.journal.now scripts.old p) }
    ensures scripts_after { scripts.new ≡ scripts.old }
    ensures page_after { page.new ≡ written page.old (move_text (turned session base.old.journal.now scripts.old p).refusal (touch_shown (turned session base.old.journal.now scripts.old p).touch)) }
{
    let answer = turns::turn(session, base.journal, scripts, p);
    put_moved(page, answer);
    let left = match answer {
        Ok(made) => made.session,
        Err(_) => session,
    };
    base.shell.session = Some(left);
}

fn turns_line(
    base: &mut Base,
    scripts: &mut [u8],
    session: Session,
    processors: &[u8],
    page: &mut Page,
)
    ensures base_after { base_of base.new ≡ stepper.holding true (classed session base.old.journal.now scripts.old processors.now (zeros 1024) (zeros 303104)).session (class_journal session base.old.journal.now scripts.old processors.now (zeros 1024) (zeros 303104)) }
    ensures scripts_after { scripts.new ≡ scripts.old }
    ensures page_after { page.new ≡ written page.old (class_text session base.old.journal.now scripts.old processors.now) }
{
    let left = class(page, session, base.journal, scripts, processors);
    base.shell.session = Some(left);
}

impl Base<'_> {
    fn respond(&mut self, command: Command, page: &mut Page)
        ensures self_after { base_of self.new ≡ stepper.after command (base_of self.old) }
        ensures page_after { page.new ≡ written page.old (stepper.response command (base_of self.old)) }
    {
        self.shell.respond(self.journal, command, page);
    }

    fn make_move(&mut self, session: Session, p: u8, a: u8, o: u8) -> Result<Moved, Refusal>
        ensures answer { move_answer_of session result ≡ moved session self.old.journal.now (move_of p a o) }
        ensures self_after { base_of self.new ≡ stepper.holding true (moved session self.old.journal.now (move_of p a o)).session (journal_after session self.old.journal.now (move_of p a o)) }
    {
        self.shell.make_move(self.journal, session, p, a, o)
    }
}

impl Course<'_> {
    // A line as the stepper answers it; an accepted start empties the scripts.
    #[tactic(auto, unfolding(crate::specs::Answers::zeros, crate::specs::Program::after))]
    fn stepper_line(&mut self, command: Command, page: &mut Page)
        ensures self_after { context_of self.new ≡ after (context_of self.old) (plain command) }
        ensures page_after { page.new ≡ written page.old (stepper.response command (base_of self.old.base)) }
    {
        if begins(command) {
            self.scripts.fill(0);
        }
        self.base.respond(command, page);
    }

    // A line of the stepper: a move also names its words.
    #[tactic(auto, unfolding(shell::specs::Answers::response, shell::specs::Answers::after, crate::specs::Program::starts, crate::specs::Program::plain_response, crate::specs::Program::response, crate::specs::Program::after))]
    fn plain_line(&mut self, command: Command, page: &mut Page)
        ensures self_after { context_of self.new ≡ after (context_of self.old) (plain command) }
        ensures page_after { page.new ≡ written page.old (response (context_of self.old) (plain command)) }
    {
        match (command, self.base.shell.session) {
            (Command::Move(p, a, o), Some(session)) => put_moved(
                page,
                self.base.make_move(session, p, a, o),
            ),
            _ => self.stepper_line(command, page),
        }
    }

    // The words that are marked are those of the last standing move.
    fn view_line(&self, session: Session, page: &mut Page)
        ensures { page.new ≡ written page.old (view_text session.state (touch_shown (last_touched session self.now.base.journal.now))) }
    {
        let touch = session::last_touch(session, self.base.journal);
        view::view(page, session.state, touch);
    }

    fn chart_line(&self, session: Session, page: &mut Page)
        ensures { page.new ≡ written page.old (chart_text session self.now.base.journal.now) }
    {
        chart::chart(page, session, self.base.journal);
    }

    // One ask, whose numbers stand in `numbers`: a mark's two pictures one behind the other. Before a start has been accepted, what is about a session is answered
    // with a question mark.
    #[tactic(auto, unfolding(state::specs::Refusal::outcome, crate::specs::Program::response, crate::specs::Program::after))]
    pub fn answer(&mut self, request: Request, numbers: &[u8], page: &mut Page)
        requires { count_in request ≤ length numbers.now }
        ensures self_after { context_of self.new ≡ after (context_of self.old) (asked request numbers.now) }
        ensures page_after { page.new ≡ written page.old (response (context_of self.old) (asked request numbers.now)) }
    {
        match (request, self.base.shell.session) {
            (Request::Plain(command), _) => self.plain_line(command, page),
            (Request::Mark(n, m), _) => {
                let (machine, behind) = numbers.split_at(n as usize);
                put_mark(page, mark::mark(machine, &behind[..m as usize]));
            }
            (Request::Help, _) => put_help(page),
            (_, None) => page.put(b"?\n"),
            (Request::Script(k, n), Some(session)) => {
                let set = script::set_script(
                    session.state.t,
                    self.scripts,
                    k,
                    &numbers[..n as usize],
                );
                page.number_line(outcome(set));
            }
            (Request::Turn(p), Some(session)) => {
                turn_line(&mut self.base, self.scripts, session, p, page);
            }
            (Request::Turns(n), Some(session)) => {
                let processors = &numbers[..n as usize];
                turns_line(&mut self.base, self.scripts, session, processors, page);
            }
            (Request::View, Some(session)) => self.view_line(session, page),
            (Request::Chart, Some(session)) => self.chart_line(session, page),
            (Request::MarkOwn(n), Some(session)) => {
                put_mark(
                    page,
                    mark::mark_state(session.state, &numbers[..n as usize]),
                );
            }
        }
    }
}
