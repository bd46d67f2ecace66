// The lines of a run: document 01, the end of "Cases".
ghost use Rattle.std.specs.Prelude.{[], ◌∷◌, ◌++◌, ◌+◌, ◌*◌, ◌≤◌, ◌≡◌, length};
ghost use Rattle.text.specs.Put.{Puts, digits_of, spaced};
ghost use Rattle.text.specs.Lines.{word_line, accept_line, row_line, who_of, mark_of, mark_and_ignored, refuse_line, answer_text, tick_line, task_line};

use super::Text;
use machine::{Mark, Ran, Taken};
use refusals::Refusal;

fn mark_byte(mark: Mark) -> u8
    ensures { result ≡ mark_of mark }
{
    match mark {
        Mark::Nothing => b'-',
        Mark::Output => b'O',
        Mark::BudgetUsedUp => b'S',
    }
}

impl Text<'_> {
    // What ends a line: numbers each after a space, and the newline.
    fn end_line(&mut self, numbers: &[u64])
        ensures puts { Puts self.old (spaced numbers.now ++ (10 ∷ [])) self.new }
        ensures short { self.new.at ≤ self.old.at + (21 * length numbers.now + 1) }
    {
        self.put_spaced(numbers);
        self.put_byte(b'\n');
    }

    fn put_line(&mut self, word: &[u8], numbers: &[u64])
        ensures puts { Puts self.old (word_line word.now numbers.now) self.new }
        ensures short { self.new.at ≤ self.old.at + (length word.now + 21 * length numbers.now + 1) }
    {
        self.put_bytes(word);
        self.end_line(numbers);
    }

    pub fn put_accept(&mut self, tasks: u64)
        ensures puts { Puts self.old (accept_line tasks) self.new }
        ensures short { self.new.at ≤ self.old.at + 28 }
    {
        self.put_line(b"ACCEPT", &[tasks]);
    }

    // A row's line: the task, and T, D, C, K, R, E, G.
    pub fn put_row(&mut self, task: u64, numbers: [u64; 7])
        ensures puts { Puts self.old (row_line task numbers) self.new }
        ensures short { self.new.at ≤ self.old.at + 168 }
    {
        self.put_number(task);
        self.end_line(&numbers);
    }

    pub fn put_refusal(&mut self, refusal: Refusal)
        ensures puts { Puts self.old (refuse_line refusal) self.new }
        ensures short { self.new.at ≤ self.old.at + 49 }
    {
        let number = u64::from(refusal.number());
        let place = refusal.place() as u64;
        self.put_line(b"REFUSE", &[number, place]);
    }

    // A letter and the task.
    fn put_runner(&mut self, letter: u8, task: usize)
        ensures puts { Puts self.old (letter ∷ digits_of task) self.new }
        ensures short { self.new.at ≤ self.old.at + 21 }
    {
        self.put_byte(letter);
        self.put_number(task as u64);
    }

    fn put_who(&mut self, ran: Ran)
        ensures puts { Puts self.old (who_of ran) self.new }
        ensures short { self.new.at ≤ self.old.at + 21 }
    {
        match ran {
            Ran::Nobody => self.put_byte(b'I'),
            Ran::Guest(task) => self.put_runner(b'G', task),
            Ran::Hypertask(task) => self.put_runner(b'H', task),
        }
    }

    // The mark, 1 if a signal was ignored, and the newline.
    fn put_mark(&mut self, mark: Mark, ignored: bool)
        ensures { Puts self.old (mark_and_ignored mark ignored) self.new }
    {
        let ignored = b'0' + u8::from(ignored);
        self.put_bytes(&[b' ', mark_byte(mark), b' ', ignored, b'\n']);
    }

    fn put_answer(&mut self, answer: Result<Taken, Refusal>)
        ensures puts { Puts self.old (answer_text answer) self.new }
        ensures short { self.new.at ≤ self.old.at + 49 }
    {
        match answer {
            Ok(taken) => {
                self.put_who(taken.ran);
                self.put_mark(taken.mark, taken.ignored);
            }
            Err(refusal) => self.put_refusal(refusal),
        }
    }

    // A tick's line: the clock at which it was asked for, and its answer.
    pub fn put_tick(&mut self, clock: u64, answer: Result<Taken, Refusal>)
        ensures puts { Puts self.old (tick_line clock answer) self.new }
        ensures short { self.new.at ≤ self.old.at + 70 }
    {
        self.put_number(clock);
        self.put_byte(b' ');
        self.put_answer(answer);
    }

    // A task's totals: jobs arrived, outputs of the guest and of the hypertask, jobs still open.
    pub fn put_task(&mut self, task: u64, arrived: u64, guest: u64, hypertask: u64, remaining: u64)
        ensures puts { Puts self.old (task_line task arrived guest hypertask remaining) self.new }
        ensures short { self.new.at ≤ self.old.at + 110 }
    {
        let numbers = [task, arrived, guest, hypertask, remaining];
        self.put_line(b"TASK", &numbers);
    }
}
