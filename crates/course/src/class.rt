// A class: the turns of a list of processors, with each turn's answer and picture printed.
ghost use Rattle.std.specs.Prelude.{◌≡◌, ◌*◌, ◌≤◌, length};
ghost use Rattle.command.specs.Printing.{written};
ghost use Rattle.turns.specs.Contract.{classed, class_journal};
ghost use Rattle.course.specs.Answers.{zeros, class_text};
ghost use Rattle.course.specs.Model.TurnLines.{turn_lines};

use command::printing::Page;
use state::Session;
use state::layout::picture_bytes;

// The lines of n turns, whose pictures have `size` bytes each.
fn turn_lines(page: &mut Page, size: usize, answers: &[u8], pictures: &[u8])
    requires { length answers.now * size ≤ length pictures.now }
    ensures { page.new ≡ written page.old (turn_lines size answers.now pictures.now) }
{
    for (i, &answer) in answers.iter().enumerate() {
        let from = i * size;
        page.number_line(answer);
        page.hex_line(&pictures[from..from + size]);
    }
}

// A class: each turn's answer and picture on lines of their own, and the record that it leaves. Refused as a whole, its number.
pub fn class(
    page: &mut Page,
    session: Session,
    journal: &mut [u8],
    scripts: &[u8],
    turns: &[u8],
) -> Session
    ensures session_value { result ≡ (classed session journal.old scripts.now turns.now (zeros 1024) (zeros 303104)).session }
    ensures journal_after { journal.new ≡ class_journal session journal.old scripts.now turns.now (zeros 1024) (zeros 303104) }
    ensures page_after { page.new ≡ written page.old (class_text session journal.old scripts.now turns.now) }
{
    let mut answers = [0u8; 1024];
    let mut pictures = [0u8; 303104];
    let state = session.state;
    let size = picture_bytes(state.p, state.t, state.m);
    match turns::class(
        session,
        journal,
        scripts,
        turns,
        &mut answers,
        &mut pictures,
    ) {
        Ok(left) => {
            turn_lines(page, size, &answers[..turns.len()], &pictures);
            left
        }
        Err(refusal) => {
            page.number_line(refusal.number());
            session
        }
    }
}
