// The counts of each task, kept tick by tick: demand 3's, which are defined from the ticks taken.
ghost use Rattle.std.specs.Prelude.{◌≡◌, [], ◌+◌, ◌-◌, ◌*◌, ◌≤◌};
ghost use Rattle.least.specs.Lists.{flat};
ghost use Rattle.text.specs.Put.{Puts};
ghost use Rattle.report.specs.Inside.{Below, Becomes, Totals, with_arrival, with_output, with_answer, total_line};

use machine::{Mark, Ran, Taken};
use refusals::Refusal;
use text::Text;

// A task's counts: jobs arrived, and outputs of its guest and of its hypertask.
#[derive(Clone, Copy, Debug, Default, PartialEq, Eq)]
struct Count {
    arrived: u64,
    guest: u64,
    hypertask: u64,
}

impl Count {
    // Jobs still open: what has arrived and got no output.
    fn still_open(&self) -> u64
        ensures { result ≡ self.now.arrived - self.now.guest - self.now.hypertask }
    {
        self.arrived
            .saturating_sub(self.guest)
            .saturating_sub(self.hypertask)
    }
}

// Those of each place of a machine, from 0.
#[derive(Drop)]
pub(crate) struct Counts {
    tasks: [Count; 32],
}

impl Counts {
    pub(crate) fn new() -> Counts
        ensures { Totals [] result }
    {
        Counts {
            tasks: [Count::default(); 32],
        }
    }

    // One job more for each task in the mask; most ticks bring none.
    fn add_arrivals(&mut self, mask: u32)
        requires { Below u64.MAX self.old }
        ensures { Becomes (with_arrival mask) self.old self.new }
    {
        if mask == 0 {
            return;
        }
        for (i, count) in self.tasks.iter_mut().enumerate() {
            count.arrived += u64::from((mask >> i) % 2 == 1);
        }
    }

    // One output more where the tick gave one.
    fn add_output(&mut self, taken: Taken)
        requires { Below u64.MAX self.old }
        ensures { Becomes (with_output taken) self.old self.new }
    {
        match (taken.mark, taken.ran) {
            (Mark::Output, Ran::Guest(task @ 1..=32)) => self.tasks[task - 1].guest += 1,
            (Mark::Output, Ran::Hypertask(task @ 1..=32)) => self.tasks[task - 1].hypertask += 1,
            _ => {}
        }
    }

    // A tick's answer; a refused tick brings and gives nothing.
    pub(crate) fn count(&mut self, mask: u32, answer: Result<Taken, Refusal>)
        requires { Below 65537 self.old }
        ensures { Becomes (with_answer mask answer) self.old self.new }
    {
        let Ok(taken) = answer else { return };
        self.add_output(taken);
        self.add_arrivals(mask);
    }

    // The TASK lines of the first n rows.
    pub(crate) fn put_totals(&self, text: &mut Text, n: usize)
        requires { n ≤ 32 }
        ensures puts { Puts text.old (flat (total_line self.now) n) text.new }
        ensures short { text.new.at ≤ text.old.at + 110 * n }
    {
        for (i, count) in self.tasks[..n].iter().enumerate() {
            let task = i as u64 + 1;
            text.put_task(
                task,
                count.arrived,
                count.guest,
                count.hypertask,
                count.still_open(),
            );
        }
    }
}
