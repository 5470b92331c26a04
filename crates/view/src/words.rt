// Names, numbers, tokens and shared words put on a page.
ghost use Rattle.std.specs.Prelude.{◌≡◌, ◌++◌};
ghost use Rattle.command.specs.Command.{field};
ghost use Rattle.command.specs.Printing.{written};
ghost use Rattle.touch.specs.Association.{word_shown, touch_shown};
ghost use Rattle.view.specs.Words.{word_at, line_name, answer_word, status_word, action_word, or_dash, token_text, word_text, touch_text, mark};

use command::printing::Page;
use state::Token;
use touch::{Touch, Word};

// Word n of a table in which each takes `width` bytes: those before the first space.
pub fn put_word(page: &mut Page, table: &[u8], width: u8, n: u8)
    ensures { page.new ≡ written page.old (word_at width table.now n) }
{
    let begin = width as usize * n as usize;
    let from = begin.min(table.len());
    let upto = (begin + width as usize).min(table.len());
    for &b in &table[from..upto] {
        if b == b' ' {
            break;
        }
        page.push(b);
    }
}

#[tactic(auto, unfolding(command::specs::Printing::text))]
pub fn put_line_name(page: &mut Page, n: u8)
    ensures { page.new ≡ written page.old (line_name n) }
{
    put_word(
        page,
        b"AppCI2CI3L1 L3 L4 L6 L7 L8 L9 L10TL1GT1GT3TL3U1 H2 H3 H5 H6 H8 Y1 Y2 Y3 C2 ",
        3,
        n,
    );
}

#[tactic(auto, unfolding(command::specs::Printing::text))]
pub fn put_answer(page: &mut Page, n: u8)
    ensures { page.new ≡ written page.old (answer_word n) }
{
    put_word(page, b"none true false", 5, n);
}

#[tactic(auto, unfolding(command::specs::Printing::text))]
pub fn put_status(page: &mut Page, n: u8)
    ensures { page.new ≡ written page.old (status_word n) }
{
    put_word(
        page,
        b"new       ready     waiting   current   transit   terminated",
        10,
        n,
    );
}

#[tactic(auto, unfolding(command::specs::Printing::text))]
pub fn put_action(page: &mut Page, n: u8)
    ensures { page.new ≡ written page.old (action_word n) }
{
    put_word(
        page,
        b"go     lock   trylockunlock yield  exit   create ",
        7,
        n,
    );
}

// A space and a number.
#[tactic(auto, using(command::proofs::Put::page_steps), unfolding(command::specs::Command::field))]
pub fn put_field(page: &mut Page, n: u8)
    ensures { page.new ≡ written page.old (field n) }
{
    page.push(b' ');
    page.number(n);
}

// A number, a dash for 0.
#[tactic(auto, unfolding(command::specs::Printing::text))]
pub fn put_or_dash(page: &mut Page, n: u8)
    ensures { page.new ≡ written page.old (or_dash n) }
{
    if n == 0 {
        page.push(b'-');
    } else {
        page.number(n);
    }
}

// A token, a dash for none.
#[tactic(auto, using(command::proofs::Put::page_steps), unfolding(command::specs::Printing::text))]
pub fn put_token(page: &mut Page, t: Token)
    ensures { page.new ≡ written page.old (token_text t) }
{
    if t.processor == 0 {
        page.push(b'-');
    } else {
        page.push(b'(');
        page.number(t.processor);
        page.push(b',');
        page.wide(t.sequence);
        page.push(b')');
    }
}

#[tactic(auto, using(command::proofs::Put::page_parts))]
fn put_named(page: &mut Page, name: &[u8], n: u8)
    ensures { page.new ≡ written page.old (name.now ++ field n) }
{
    page.put(name);
    put_field(page, n);
}

// A shared word: its kind and, but for none, its number.
#[tactic(auto, unfolding(command::specs::Printing::text, crate::specs::Words::word_text, crate::specs::Words::word_at, crate::specs::Words::trimmed))]
fn put_shared(page: &mut Page, w: Word)
    ensures { page.new ≡ written page.old (word_text (word_shown w)) }
{
    match w {
        Word::None => page.put(b"none"),
        Word::Count(m) => put_named(page, b"count", m),
        Word::Token(m) => put_named(page, b"token", m),
        Word::Queue(m) => put_named(page, b"queue", m),
        Word::Ready(q) => put_named(page, b"ready", q),
        Word::Birth(k) => put_named(page, b"birth", k),
    }
}

// The word that a move read and the one that it wrote.
#[tactic(auto, using(command::proofs::Put::page_steps), unfolding(command::specs::Printing::text, crate::specs::Words::touch_text))]
pub fn put_touch(page: &mut Page, t: Touch)
    ensures { page.new ≡ written page.old (touch_text (touch_shown t)) }
{
    page.put(b" reads ");
    put_shared(page, t.reads);
    page.put(b" writes ");
    put_shared(page, t.writes);
}

// Behind a word that was touched: read, written, or both.
#[tactic(auto, using(command::proofs::Put::written_none), unfolding(command::specs::Printing::text, crate::specs::Words::mark))]
pub(crate) fn put_mark(page: &mut Page, t: Touch, w: Word)
    ensures { page.new ≡ written page.old (mark (touch_shown t) (word_shown w)) }
{
    match (t.reads == w, t.writes == w) {
        (true, true) => page.put(b" rw"),
        (true, false) => page.put(b" r"),
        (false, true) => page.put(b" w"),
        (false, false) => {}
    }
}
