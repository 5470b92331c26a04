// A state as a table that a person reads, with what a move touched.
#![tactic(auto)]

ghost use Rattle.std.specs.Prelude.{◌≡◌};
ghost use Rattle.command.specs.Printing.{written};
ghost use Rattle.touch.specs.Association.{touch_shown};
ghost use Rattle.view.specs.Table.{view_text};

mod each;
mod lists;
mod table;
pub mod words;

use crate::table::Table;
use command::printing::Page;
use state::State;
use state::refusal::Refusal;
use touch::Touch;

// The table put on a page, with a mark behind each word that was touched; of a record that breaks a rule, 15.
#[tactic(auto, unfolding(crate::specs::Table::view_text, state::specs::Refusal::number))]
pub fn view(page: &mut Page, state: State, touch: Touch)
    ensures { page.new ≡ written page.old (view_text state (touch_shown touch)) }
{
    if rules::state_ok(state) {
        Table { state, touch }.put(page);
    } else {
        page.number_line(Refusal::BadRecord.number());
    }
}
