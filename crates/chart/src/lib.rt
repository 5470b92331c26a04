// The moves of a session as a chart that a person reads: a column for each processor, a row for each move that stands.
#![tactic(auto)]

mod row;

ghost use Rattle.std.specs.Prelude.{◌≡◌};
ghost use Rattle.command.specs.Printing.{written};
ghost use Rattle.view.specs.Words.{rows};
ghost use Rattle.reference.specs.Session.{moves};
ghost use Rattle.chart.specs.Chart.{column_head, heading, chart_text};
ghost use Rattle.chart.specs.Model.Made.{made_chart};

use crate::row::Row;
use command::printing::Page;
use session::test_journal;
use state::access::at;
use state::{Session, State};
use step::moves::moved;

// The numbers of the processors above their columns.
#[tactic(auto, using(command::proofs::Put::page_steps, view::proofs::Rows::rows_begun, view::proofs::Rows::rows_more))]
fn put_columns(page: &mut Page, count: u8)
    ensures { page.new ≡ written page.old (rows column_head 1 count) }
{
    // kept: counted from 0: over 1..=count the proof did not close.
    for i in 0..count {
        page.column(11, |page| page.number(1 + i));
    }
}

#[tactic(auto, using(command::proofs::Put::page_steps), unfolding(command::specs::Printing::text, crate::specs::Chart::heading))]
fn put_heading(page: &mut Page, count: u8)
    ensures { page.new ≡ written page.old (heading count) }
{
    page.column(6, |page| page.put(b"move"));
    put_columns(page, count);
    page.put(b"changes\n");
}

// A row for each of the journal's first n moves, made again from a state.
// kept: reads at any index, since chunks of the journal would need a bound of its length that chart does not ask for.
#[tactic(auto, using(command::proofs::Put::page_steps, crate::proofs::Loops::moves_steps))]
fn put_moves(page: &mut Page, count: u8, first: State, journal: &[u8], n: u16)
    ensures { page.new ≡ written page.old (made_chart count first (moves n journal.now)) }
{
    let mut before = first;
    for i in 0..n {
        let from = 3 * (i as usize);
        let p = at(journal, from);
        let a = at(journal, from + 1);
        let o = at(journal, from + 2);
        let after = moved(before, p, a, o).unwrap_or(before);
        let row = Row {
            count,
            before,
            p,
            a,
            o,
            after,
        };
        row.put(page);
        before = after;
    }
}

// Puts the chart of a session's standing moves on a page, as much of it as fits.
#[tactic(auto, using(command::proofs::Put::page_steps, crate::proofs::Loops::chart_steps))]
pub fn chart(page: &mut Page, session: Session, journal: &[u8])
    ensures { page.new ≡ written page.old (chart_text session journal.now) }
{
    if let Err(refusal) = test_journal(session, journal) {
        return page.number_line(refusal.number());
    }
    let state = session.state;
    let first = State::start(state.p, state.t, state.m, session.initial, state.stealing);
    put_heading(page, state.p);
    put_moves(page, state.p, first, journal, state.applied);
    page.push(b'\n');
}
