// The table of a state, with a mark behind each word that a move touched.
ghost use Rattle.std.specs.Prelude.{◌≡◌, ◌+◌};
ghost use Rattle.command.specs.Printing.{text, decimal, written};
ghost use Rattle.state.specs.Record.{processor_of, mutex_of, first_of};
ghost use Rattle.state.specs.Association.{queue_shown};
ghost use Rattle.touch.specs.Association.{word_shown, touch_shown};
ghost use Rattle.view.specs.Words.{listed, mark, rows};
ghost use Rattle.view.specs.Table.{processor_row, mutex_row, ready_row, ready_rows, status_row, table};

use crate::each::put_each;
use crate::lists::{put_queue, put_threads};
use crate::words::{put_answer, put_line_name, put_mark, put_or_dash, put_status, put_token};
use command::printing::Page;
use state::access::at;
use state::{Processor, State};
use touch::{Touch, Word};

#[derive(Clone, Copy)]
pub(crate) struct Table {
    pub state: State,
    pub touch: Touch,
}

#[tactic(auto, using(command::proofs::Put::page_parts), unfolding(crate::specs::Table::processor_row))]
fn processor_row(page: &mut Page, p: u8, x: Processor)
    ensures { page.new ≡ written page.old (processor_row p x) }
{
    page.column(11, |page| page.number(p));
    page.column(6, |page| put_line_name(page, x.position));
    page.column(9, |page| put_or_dash(page, x.current));
    page.column(9, |page| put_or_dash(page, x.transit));
    page.column(7, |page| put_or_dash(page, x.mutex));
    page.column(10, |page| put_token(page, x.observed));
    page.column(10, |page| page.wide(x.sequence));
    page.column(8, |page| put_answer(page, x.answer));
    page.number_line(x.probe);
}

impl Table {
    fn processors(&self, page: &mut Page)
        ensures { page.new ≡ written page.old (rows (λ p. processor_row p (processor_of self.now.state p)) 1 self.now.state.p) }
    {
        put_each(
            page,
            1,
            self.state.p,
            |page, p| processor_row(page, p, self.state.processor(p)),
        );
    }

    // Queue q of the record.
    fn queue(&self, page: &mut Page, q: usize)
        ensures { page.new ≡ written page.old (listed (queue_shown self.now.state q)) }
    {
        put_queue(
            page,
            &self.state.chains.threads,
            at(&self.state.chains.firsts, q),
        );
    }

    fn mark(&self, page: &mut Page, word: Word)
        ensures { page.new ≡ written page.old (mark (touch_shown self.now.touch) (word_shown word)) }
    {
        put_mark(page, self.touch, word);
    }

    #[tactic(auto, using(command::proofs::Put::page_parts), unfolding(crate::specs::Table::mutex_row))]
    fn mutex(&self, page: &mut Page, m: u8)
        ensures { page.new ≡ written page.old (mutex_row (touch_shown self.now.touch) m (mutex_of self.now.state m) (queue_shown self.now.state m)) }
    {
        let x = at(&self.state.mutexes, m as usize);
        page.column(7, |page| page.number(m));
        page.column(7, |page| {
            page.number(x.count);
            self.mark(page, Word::Count(m));
        });
        page.column(7, |page| put_or_dash(page, x.owner));
        page.column(11, |page| {
            put_token(page, x.token);
            self.mark(page, Word::Token(m));
        });
        self.queue(page, m as usize);
        self.mark(page, Word::Queue(m));
        page.push(b'\n');
    }

    fn mutexes(&self, page: &mut Page)
        ensures { page.new ≡ written page.old (rows (λ m. mutex_row (touch_shown self.now.touch) m (mutex_of self.now.state m) (queue_shown self.now.state m)) 1 self.now.state.m) }
    {
        put_each(page, 1, self.state.m, |page, m| self.mutex(page, m));
    }

    // The ready queue of processor p.
    #[tactic(auto, using(command::proofs::Put::page_parts), unfolding(crate::specs::Table::ready_row))]
    fn ready(&self, page: &mut Page, p: u8)
        ensures { page.new ≡ written page.old (ready_row (touch_shown self.now.touch) p (decimal p) (queue_shown self.now.state (8 + p))) }
    {
        page.column(12, |page| page.number(p));
        self.queue(page, 8 + p as usize);
        self.mark(page, Word::Ready(p));
        page.push(b'\n');
    }

    // The single ready queue, or one for each processor.
    #[tactic(auto, using(command::proofs::Put::page_parts), unfolding(command::specs::Printing::text, crate::specs::Table::ready_row, crate::specs::Table::ready_rows))]
    fn ready_queues(&self, page: &mut Page)
        ensures { page.new ≡ written page.old (ready_rows self.now.state (touch_shown self.now.touch)) }
    {
        if self.state.stealing == 0 {
            page.column(12, |page| page.put(b"single"));
            self.queue(page, 0);
            self.mark(page, Word::Ready(1));
            page.push(b'\n');
        } else {
            put_each(page, 1, self.state.p, |page, p| self.ready(page, p));
        }
    }

    #[tactic(auto, using(command::proofs::Put::page_parts), unfolding(crate::specs::Table::status_row))]
    fn status(&self, page: &mut Page, status: u8)
        ensures { page.new ≡ written page.old (status_row self.now.state (touch_shown self.now.touch) status) }
    {
        page.column(11, |page| put_status(page, status));
        put_threads(
            page,
            &self.state.chains.threads,
            self.state.t,
            self.touch,
            status,
        );
        page.push(b'\n');
    }

    fn statuses(&self, page: &mut Page)
        ensures { page.new ≡ written page.old (rows (status_row self.now.state (touch_shown self.now.touch)) 0 6) }
    {
        put_each(page, 0, 6, |page, status| self.status(page, status));
    }

    pub(crate) fn put(&self, page: &mut Page)
        ensures { page.new ≡ written page.old (table self.now.state (touch_shown self.now.touch)) }
    {
        page.put(b"moves ");
        page.wide(self.state.applied);
        page.push(b'\n');
        page.put(b"processor  line  current  transit  mutex  observed  sequence  answer  probe\n");
        self.processors(page);
        page.put(b"mutex  count  owner  token       queue\n");
        self.mutexes(page);
        page.put(b"ready queue  threads\n");
        self.ready_queues(page);
        page.put(b"status      threads\n");
        self.statuses(page);
        page.push(b'\n');
    }
}
