// The machine that runs an accepted table tick by tick: document 01, "The tick rule". Its rule is specs/TickRule.antt.
#![tactic(auto)]

ghost use Rattle.std.specs.Prelude.{◌≡◌, Ok, Err, Bool, true, not, cond, ◌&&◌, ◌||◌, ◌+◌, ◌^◌, ◌<◌, ◌≤◌, ◌++◌, get_or, take, drop, OnOk, OnSome, IfSome};
ghost use Rattle.machine.specs.Rows.{no_row, age, in_mask, first, with_stage, is_hyper, has_begun, has_budget};
ghost use Rattle.machine.specs.WellFormed.{in_limits, fields_fit, stage_fits, row_fits, is_blank};
ghost use Rattle.machine.specs.TickRule.{younger_than, past_last, hypertask_ran, guest_ran, nobody_ran, ran_from, ran_on, step_of};
ghost use Rattle.machine.specs.OnePass.{turned_by, arrival_seen, turned_seen, second_begun, row_seen, chosen_by, seen_in, judged_by};
ghost use Rattle.machine.specs.OnePass.{place, found, MayRun, may_arrive, passed_rows, answer_if, places_fit, stepped_to};

use refusals::Refusal;

// The places for rows, the largest T, D, C and K, and the clock's end, 2^40.
const PLACES: usize = 32;

const LARGEST_FIELD: u32 = 1_000_000;

const LAST_CLOCK: u64 = 1 << 40;

// A task's stage, with its own data.
#[derive(Clone, Copy, Debug, PartialEq, Eq)]
pub enum Stage {
    Never,
    // arrival, used
    Guest(u64, u64),
    // arrival, left
    Hyper(u64, u64),
    // arrival
    Closed(u64),
}

// A row: T, D, C, K, the enforcement offset E, and the task's stage.
#[derive(Clone, Copy, Debug, PartialEq, Eq)]
pub struct Row {
    pub t: u32,
    pub d: u32,
    pub c: u32,
    pub k: u32,
    pub e: u32,
    pub stage: Stage,
}

// The rows, how many there are, and the clock; places past the last row are zero and Never.
#[derive(Clone, Copy, Debug, PartialEq, Eq)]
pub struct Machine {
    pub rows: [Row; PLACES],
    pub count: usize,
    pub clock: u64,
}

// Who ran in a tick: a task, from 1.
#[derive(Clone, Copy, Debug, PartialEq, Eq)]
pub enum Ran {
    Nobody,
    Guest(usize),
    Hypertask(usize),
}

// What the tick gave: an output, or the last tick of a guest's budget without one.
#[derive(Clone, Copy, Debug, PartialEq, Eq)]
pub enum Mark {
    Nothing,
    Output,
    BudgetUsedUp,
}

// What a tick that was taken says; ignored: a signal was.
#[derive(Clone, Copy, Debug, PartialEq, Eq)]
pub struct Taken {
    pub ran: Ran,
    pub mark: Mark,
    pub ignored: bool,
}

// The next machine, and what is said of the tick.
#[derive(Clone, Copy, Debug, PartialEq, Eq)]
pub struct Stepped {
    pub machine: Machine,
    pub answer: Result<Taken, Refusal>,
}

// The next stage of the task that ran, and what the tick says of it.
#[derive(Clone, Copy)]
struct Outcome {
    stage: Stage,
    taken: Taken,
}

// The first place that each search comes to: of the tasks in the mask, one that comes too soon and one that is Hyper; a
// hypertask that has begun; and after steps 1 and 2, one that waits and a guest that is ready.
#[derive(Clone, Copy, Default)]
struct Seen {
    soon: Option<usize>,
    hyper: Option<usize>,
    begun: Option<usize>,
    waiting: Option<usize>,
    ready: Option<usize>,
}

#[tactic(auto, unfolding(crate::specs::Rows::age))]
fn age_of(clock: u64, arrival: u64) -> u64
    ensures { result ≡ age clock arrival }
{
    clock.saturating_sub(arrival)
}

fn named(mask: u32, i: usize) -> bool
    requires { i < PLACES }
    ensures { result ≡ in_mask mask i }
{
    (mask >> i) % 2 == 1
}

fn within(x: u32) -> bool
    ensures { result ≡ in_limits x }
{
    (1..=LARGEST_FIELD).contains(&x)
}

impl Stage {
    fn is_hyper(self) -> bool
        ensures { result ≡ is_hyper self }
    {
        matches!(self, Stage::Hyper(_, _))
    }

    // The task came less than t ago.
    fn is_younger(self, clock: u64, t: u32) -> bool
        ensures { result ≡ younger_than clock t self }
    {
        match self {
            Stage::Never => false,
            Stage::Guest(arrival, _) | Stage::Hyper(arrival, _) | Stage::Closed(arrival) => {
                age_of(clock, arrival) < u64::from(t)
            }
        }
    }
}

impl Row {
    // D at most T and E below D settle the other bounds of T and D.
    #[tactic(auto, unfolding(crate::specs::WellFormed::fields_fit))]
    fn fields_fit(self) -> bool
        ensures { result ≡ fields_fit self }
    {
        self.t <= LARGEST_FIELD
            && self.d <= self.t
            && self.e < self.d
            && 1 <= self.e
            && within(self.c)
            && within(self.k)
    }

    #[tactic(auto, unfolding(crate::specs::WellFormed::stage_fits))]
    fn stage_fits(self, clock: u64) -> bool
        ensures { result ≡ stage_fits clock self.c self.k self.e self.stage }
    {
        match self.stage {
            Stage::Never => true,
            Stage::Guest(arrival, used) => {
                arrival <= clock
                    && used <= u64::from(self.c)
                    && age_of(clock, arrival) <= u64::from(self.e)
            }
            Stage::Hyper(arrival, left) => {
                arrival <= clock
                    && 1 <= left
                    && left <= u64::from(self.k)
                    && u64::from(self.e) < age_of(clock, arrival)
            }
            Stage::Closed(arrival) => arrival <= clock,
        }
    }

    fn fits(self, clock: u64) -> bool
        ensures { result ≡ row_fits clock self }
    {
        self.fields_fit() && self.stage_fits(clock)
    }

    fn has_begun(self) -> bool
        ensures { result ≡ has_begun self.k self.stage }
    {
        matches!(self.stage, Stage::Hyper(_, left) if left < u64::from(self.k))
    }

    fn has_budget(self) -> bool
        ensures { result ≡ has_budget self.c self.stage }
    {
        matches!(self.stage, Stage::Guest(_, used) if used < u64::from(self.c))
    }

    // As a pattern, since `==` on the whole row costs a fifth of a tick of few rows.
    #[tactic(auto, unfolding(crate::specs::WellFormed::is_blank))]
    fn is_blank(self) -> bool
        ensures { result ≡ is_blank self }
    {
        matches!(
            self,
            Row {
                t: 0,
                d: 0,
                c: 0,
                k: 0,
                e: 0,
                stage: Stage::Never
            }
        )
    }

    // Steps 1 and 2.
    fn turn(&mut self, clock: u64, arrives: bool)
        ensures { self.new ≡ turned_by clock arrives self.old }
    {
        if arrives {
            self.stage = Stage::Guest(clock, 0);
        } else if let Stage::Guest(arrival, _) = self.stage
            && age_of(clock, arrival) == u64::from(self.e)
        {
            self.stage = Stage::Hyper(arrival, u64::from(self.k));
        }
    }

    // Step 4, for the task that was chosen.
    fn run(self, task: usize, signal: u8, early: bool) -> Outcome
        requires { MayRun self }
        ensures { result ≡ ran_from task signal early self.c self.stage }
    {
        match self.stage {
            Stage::Guest(arrival, used) => run_guest(task, signal, self.c, arrival, used + 1),
            Stage::Hyper(arrival, left) => run_hypertask(
                task,
                signal,
                early,
                arrival,
                left.saturating_sub(1),
            ),
            stage => Outcome {
                stage,
                taken: Taken::nobody(signal),
            },
        }
    }
}

impl Taken {
    fn nobody(signal: u8) -> Taken
        ensures { result ≡ nobody_ran signal }
    {
        Taken {
            ran: Ran::Nobody,
            mark: Mark::Nothing,
            ignored: signal != 0,
        }
    }
}

// left: after this tick.
fn run_hypertask(task: usize, signal: u8, early: bool, arrival: u64, left: u64) -> Outcome
    ensures { result ≡ hypertask_ran task signal early arrival left }
{
    let (stage, mark) = if early || left == 0 {
        (Stage::Closed(arrival), Mark::Output)
    } else {
        (Stage::Hyper(arrival, left), Mark::Nothing)
    };
    Outcome {
        stage,
        taken: Taken {
            ran: Ran::Hypertask(task),
            mark,
            ignored: signal != 0,
        },
    }
}

// used: after this tick.
fn run_guest(task: usize, signal: u8, c: u32, arrival: u64, used: u64) -> Outcome
    ensures { result ≡ guest_ran task signal c arrival used }
{
    let own = usize::from(signal) == task;
    let (stage, mark) = if own {
        (Stage::Closed(arrival), Mark::Output)
    } else if used == u64::from(c) {
        (Stage::Guest(arrival, used), Mark::BudgetUsedUp)
    } else {
        (Stage::Guest(arrival, used), Mark::Nothing)
    };
    Outcome {
        stage,
        taken: Taken {
            ran: Ran::Guest(task),
            mark,
            ignored: signal != 0 && !own,
        },
    }
}

impl Seen {
    // What the rows of the table show, which are turned on the way; 8 where some place isn't well formed by itself. It is one
    // pass: one that checks and one that turns took 1.15 of the time.
    fn over(rows: &mut [Row; PLACES], count: usize, clock: u64, mask: u32) -> Result<Seen, Refusal>
        ensures answer { result ≡ answer_if (places_fit clock count rows.old) (seen_in clock mask (take count rows.old)) }
        ensures turned { OnOk result (rows.new ≡ passed_rows clock mask (take count rows.old) ++ drop count rows.old) }
    {
        if PLACES < count {
            return Err(Refusal::NotWellFormed(0));
        }
        let (table, rest) = rows.split_at_mut(count);
        let mut seen = Seen::default();
        for (i, row) in table.iter_mut().enumerate() {
            seen.see(i, row, clock, named(mask, i))?;
        }
        if rest.iter().all(|row| row.is_blank()) {
            Ok(seen)
        } else {
            Err(Refusal::NotWellFormed(0))
        }
    }

    // One row further, which is turned on the way. 8 refuses one that isn't well formed, and a second hypertask that has begun.
    #[tactic(auto, unfolding(crate::specs::OnePass::row_seen))]
    fn see(&mut self, i: usize, row: &mut Row, clock: u64, named: bool) -> Result<(), Refusal>
        ensures answer { result ≡ answer_if (row_fits clock row.old && not (second_begun row.old self.old)) tt }
        ensures turned { OnOk result (row.new ≡ turned_by clock (named && may_arrive clock row.old) row.old) }
        ensures seen { OnOk result (self.new ≡ row_seen clock named i row.old self.old) }
    {
        if !row.fits(clock) || row.has_begun() && self.begun.replace(i).is_some() {
            return Err(Refusal::NotWellFormed(0));
        }
        let arrives = named && self.see_arrival(i, *row, clock);
        row.turn(clock, arrives);
        self.see_turned(i, *row);
        Ok(())
    }

    // A task in the mask, and whether it may arrive.
    fn see_arrival(&mut self, i: usize, row: Row, clock: u64) -> bool
        ensures seen { self.new ≡ arrival_seen clock i row self.old }
        ensures may { result ≡ may_arrive clock row }
    {
        let soon = row.stage.is_younger(clock, row.t);
        if soon {
            self.soon = self.soon.or(Some(i));
        }
        let hyper = row.stage.is_hyper();
        if hyper {
            self.hyper = self.hyper.or(Some(i));
        }
        !soon && !hyper
    }

    // A row after steps 1 and 2.
    fn see_turned(&mut self, i: usize, row: Row)
        ensures { self.new ≡ turned_seen i row self.old }
    {
        if row.stage.is_hyper() {
            self.waiting = self.waiting.or(Some(i));
        }
        if row.has_budget() {
            self.ready = self.ready.or(Some(i));
        }
    }

    // The place of the task that runs.
    fn chosen(self) -> Option<usize>
        ensures { result ≡ chosen_by self }
    {
        self.begun.or(self.waiting).or(self.ready)
    }
}

impl Machine {
    // One tick: the next machine and the answer; a refused tick returns the machine it was given. Each arm returns by itself,
    // since a machine is copied where arms join.
    pub fn step(self, mask: u32, signal: u8, early: bool) -> Stepped
        ensures { result ≡ step_of self mask signal early }
    {
        let mut next = self;
        match next.tick(mask, signal, early) {
            Ok(taken) => {
                return Stepped {
                    machine: next,
                    answer: Ok(taken),
                };
            }
            Err(refusal) => {
                return Stepped {
                    machine: self,
                    answer: Err(refusal),
                };
            }
        }
    }

    // The tick in place. One that is refused may leave rows turned.
    fn tick(&mut self, mask: u32, signal: u8, early: bool) -> Result<Taken, Refusal>
        ensures { step_of self.old mask signal early ≡ stepped_to self.old self.new result }
    {
        let seen = Seen::over(&mut self.rows, self.count, self.clock, mask)?;
        let place = self.judge(mask, seen)?;
        Ok(self.advance(place, signal, early))
    }

    // Steps 4 and 5, for the place that was chosen.
    fn advance(&mut self, place: Option<usize>, signal: u8, early: bool) -> Taken
        requires room { self.old.clock < 2 ^ 40 }
        requires runs { IfSome place (λ i. (i < PLACES) × MayRun (get_or self.old.rows i no_row)) }
        ensures { ran_on self.old.count self.old.clock self.old.rows signal early (found place) ≡ record { machine = self.new; answer = Ok result } }
    {
        self.clock += 1;
        match place {
            Some(i) => {
                let outcome = self.rows[i].run(i + 1, signal, early);
                self.rows[i].stage = outcome.stage;
                outcome.taken
            }
            None => Taken::nobody(signal),
        }
    }

    // The place of the lowest task in the mask past the last row.
    fn lowest_past(&self, mask: u32) -> Option<usize>
        requires { self.now.count ≤ PLACES }
        ensures { result ≡ place (first (past_last mask self.now.count) self.now.rows) }
    {
        if u64::from(mask) >> self.count == 0 {
            return None;
        }
        (self.count..PLACES).find(|&i| named(mask, i))
    }

    // Refusals 8 to 12, in their order, where every place is well formed by itself; else the place of the task that runs.
    #[tactic(auto, unfolding(crate::specs::OnePass::judged_by))]
    fn judge(&self, mask: u32, seen: Seen) -> Result<Option<usize>, Refusal>
        requires few { self.now.count ≤ PLACES }
        requires soon { IfSome seen.soon (λ i. i < PLACES) }
        requires hyper { IfSome seen.hyper (λ i. i < PLACES) }
        ensures { result ≡ judged_by self.now mask seen }
    {
        if self.count < 1 || LAST_CLOCK < self.clock {
            return Err(Refusal::NotWellFormed(0));
        }
        if self.clock == LAST_CLOCK {
            return Err(Refusal::ClockAtEnd(0));
        }
        if let Some(i) = self.lowest_past(mask) {
            return Err(Refusal::NoSuchTask(i + 1));
        }
        if let Some(i) = seen.soon {
            return Err(Refusal::ArrivalTooSoon(i + 1));
        }
        if let Some(i) = seen.hyper {
            return Err(Refusal::ArrivalWhileHyper(i + 1));
        }
        Ok(seen.chosen())
    }
}
