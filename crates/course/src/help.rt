// The commands, a line each.
ghost use Rattle.std.specs.Prelude.{◌≡◌};
ghost use Rattle.command.specs.Printing.{written};
ghost use Rattle.course.specs.Answers.{help_text};

use command::printing::Page;

#[tactic(auto, unfolding(command::specs::Printing::text))]
pub fn put_help(page: &mut Page)
    ensures { page.new ≡ written page.old help_text }
{
    page.put(
        b"start P T M B    begin a session: processors, threads, mutexes, threads created at first\nstart P T M B S  the same with the choice of ready queues: 0 a single one, 1 one for each processor\nmove p a o       processor p: 0 go, 1 lock, 2 trylock, 3 unlock mutex o, 4 yield, 5 exit, 6 create thread o\n                 accepted, a move or a turn names the words that it read and wrote\ngoto k           go to step k, back or forward: so many of the moves kept stand then\nshow             the picture in hexadecimal\nscript k a o ..  the script of thread k: up to 6 calls, each an action and an operand\nturn p           a turn of processor p, by its thread's script\nturns p p ..     turns one after the other: for each its number, then the picture\nview             the state as a table, r and w behind the words that the last move read and wrote\nchart            the moves that stand, a column for each processor\nmark HEX HEX     the mark of a picture: the machine's, then the candidate's\nmark HEX         the mark of a candidate's picture against the session's\nhelp             these lines\n\n",
    );
}
