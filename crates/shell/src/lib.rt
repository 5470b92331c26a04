// The session that a program holds, and its answers to the lines of the stepper, put on a page.
#![tactic(auto)]

ghost use Rattle.std.specs.Prelude.{◌≡◌, true, Some, List, ℕ};
ghost use Rattle.command.specs.Printing.{written};
ghost use Rattle.reference.specs.Step.{move_of};
ghost use Rattle.session.specs.Contract.{table, answer_of, started, move_answer_of, moved, journal_after, went};
ghost use Rattle.shell.specs.Answers.{number, context_of, initial, picture_text, begun_by, holding, response, after};

use command::Command;
use command::printing::Page;
use session::Moved;
use state::layout::{Width, picture_bytes};
use state::refusal::{Refusal, outcome};
use state::{Session, State};

// session: there once a start has been accepted.
#[derive(Clone, Copy)]
pub struct Shell {
    pub session: Option<Session>,
}

// The picture of a state on a line of its own.
fn picture_line(state: State, page: &mut Page)
    ensures { page.new ≡ written page.old (picture_text state) }
{
    let mut bytes = [0u8; Width::PICTURE];
    match picture::write(state, &mut bytes) {
        Ok(()) => page.hex_line(&bytes[..picture_bytes(state.p, state.t, state.m)]),
        Err(refusal) => page.number_line(refusal.number()),
    }
}

impl Shell {
    pub fn new() -> Shell
        ensures by_index { (j : List ℕ) → context_of result j ≡ initial j }
    {
        Shell { session: None }
    }

    // A refused start keeps the old session.
    #[tactic(auto, using(state::proofs::Refused::numbered), unfolding(state::specs::Refusal::outcome, session::specs::Contract::answer_of))]
    fn start(&mut self, p: u8, t: u8, m: u8, b: u8, stealing: u8, page: &mut Page)
        ensures by_index { (j : List ℕ) → context_of self.new j ≡ begun_by (started (table p t m b stealing)) (context_of self.old j) }
        ensures page_after { page.new ≡ written page.old (number (started (table p t m b stealing)).refusal) }
    {
        let answer = session::start(p, t, m, b, stealing);
        page.number_line(outcome(answer));
        if let Ok(session) = answer {
            self.session = Some(session);
        }
    }

    // A move in a session, which is held from then on: refused, as it was handed in.
    #[tactic(auto, unfolding(session::specs::Contract::move_answer_of))]
    pub fn make_move(
        &mut self,
        journal: &mut [u8],
        session: Session,
        p: u8,
        a: u8,
        o: u8,
    ) -> Result<Moved, Refusal>
        ensures answer { move_answer_of session result ≡ moved session journal.old (move_of p a o) }
        ensures self_after { context_of self.new journal.new ≡ holding true (moved session journal.old (move_of p a o)).session (journal_after session journal.old (move_of p a o)) }
    {
        let answer = session::make_move(session, journal, p, a, o);
        let left = match answer {
            Ok(made) => made.session,
            Err(_) => session,
        };
        self.session = Some(left);
        answer
    }

    #[tactic(auto, unfolding(state::specs::Refusal::outcome, session::specs::Contract::move_answer_of))]
    fn step(&mut self, journal: &mut [u8], session: Session, p: u8, a: u8, o: u8, page: &mut Page)
        ensures self_after { context_of self.new journal.new ≡ holding true (moved session journal.old (move_of p a o)).session (journal_after session journal.old (move_of p a o)) }
        ensures page_after { page.new ≡ written page.old (number (moved session journal.old (move_of p a o)).refusal) }
    {
        page.number_line(outcome(self.make_move(journal, session, p, a, o)));
    }

    #[tactic(auto, unfolding(state::specs::Refusal::outcome, session::specs::Contract::answer_of))]
    fn goto(&mut self, journal: &[u8], session: Session, k: u16, page: &mut Page)
        requires { self.old.session ≡ Some session }
        ensures self_after { context_of self.new journal.now ≡ holding true (went session journal.now k).session journal.now }
        ensures page_after { page.new ≡ written page.old (number (went session journal.now k).refusal) }
    {
        let answer = session::goto(session, journal, k as usize);
        page.number_line(outcome(answer));
        if let Ok(session) = answer {
            self.session = Some(session);
        }
    }

    // One line of the stepper; before a start, one about the session is answered with a question mark.
    #[tactic(auto, unfolding(crate::specs::Answers::response, crate::specs::Answers::after))]
    pub fn respond(&mut self, journal: &mut [u8], command: Command, page: &mut Page)
        ensures self_after { context_of self.new journal.new ≡ after command (context_of self.old journal.old) }
        ensures page_after { page.new ≡ written page.old (response command (context_of self.old journal.old)) }
    {
        match (command, self.session) {
            (Command::Start(p, t, m, b), _) => self.start(p, t, m, b, 0, page),
            (Command::StartWith(p, t, m, b, stealing), _) => self.start(p, t, m, b, stealing, page),
            (Command::Move(p, a, o), Some(session)) => self.step(journal, session, p, a, o, page),
            (Command::Goto(k), Some(session)) => self.goto(journal, session, k, page),
            (Command::Show, Some(session)) => picture_line(session.state, page),
            _ => page.put(b"?\n"),
        }
    }
}
