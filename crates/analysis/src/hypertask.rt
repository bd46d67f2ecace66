// R of a task: active period, starts of its jobs, the largest response.
#![tactic(auto, using(crate::proofs::Limits::limits))]

ghost use Rattle.std.specs.Prelude.{◌≡◌, suc, ◌+◌, ◌-◌, ◌*◌, ◌<◌, ◌≤◌, Option};
ghost use Rattle.least.specs.Sums.{sum};
ghost use Rattle.equations.specs.Table.{T};
ghost use Rattle.equations.specs.Hypertask.{B, demand, active_side, active_period, start_demand, start, job_response, worst, response};
ghost use Rattle.equations.specs.Hypertask.{releases as releasesOf};
ghost use Rattle.equations.proofs.Bounds.{active_never_falls, starts_never_fall};

use crate::search::{Equation, least};
use crate::table::Task;
use refusals::Refusal;

const LONGEST_ACTIVE_PERIOD: u32 = 4_000_000;

// A task's hypertask, with B(i) as it was found.
#[derive(Drop)]
struct Hypertask<'a> {
    task: Task<'a>,
    b: u32,
    ghost blocking: { b ≡ B task.table.now task.row },
}

// The active period's equation.
impl Equation for Hypertask<'_> {
    ghost side = { λ e. active_side e.task.table.now e.task.row };

    #[tactic(auto, using(crate::proofs::Limits::limits), unfolding(equations::specs::Hypertask::active_side))]
    fn side(&self, t: u32) -> u64 {
        u64::from(self.b) + self.task.demand(t) + self.task.demand_above(t)
    }

    ghost never_falls = { λ e. active_never_falls e.task.table.now e.task.row };
}

// A start's equation: the task's own part is B + (q − 1)·K.
#[derive(Drop)]
struct Start<'a> {
    task: Task<'a>,
    own: u64,
    ghost small: { own ≤ 6000000000000 },
}

impl Equation for Start<'_> {
    ghost side = { λ e w. e.own + sum (start_demand e.task.table.now w) e.task.row };

    fn side(&self, w: u32) -> u64 {
        self.own + self.task.start_demand_above(w)
    }

    ghost never_falls = { λ e. starts_never_fall e.task.table.now e.task.row e.own };
}

impl<'a> Hypertask<'a> {
    // t(i)
    #[tactic(auto, using(crate::proofs::Limits::limits), unfolding(equations::specs::Hypertask::active_period))]
    fn active_period(&self) -> Option<u32>
        ensures { result ≡ active_period self.now.task.table.now self.now.task.row }
    {
        least(self, 1, LONGEST_ACTIVE_PERIOD + 1)
    }

    // w(i,q) of the job with so many jobs before it: q is one more.
    fn start(&self, before: u32) -> Option<u32>
        requires { before * T self.now.task.table.now self.now.task.row ≤ 4000000 }
        ensures { result ≡ start self.now.task.table.now self.now.task.row (suc before) }
    {
        let equation = Start {
            task: self.task,
            own: u64::from(self.b) + u64::from(before) * u64::from(self.task.k()),
        };
        let room = self.task.d() + before * self.task.t() + 1;
        least(&equation, 0, room.saturating_sub(self.task.k()))
    }

    // Its response, w(i,q) + K − (q − 1)·T.
    #[tactic(auto, using(crate::proofs::Limits::jobs))]
    fn job_response(&self, before: u32) -> Option<u32>
        requires { before * T self.now.task.table.now self.now.task.row ≤ 4000000 }
        ensures { result ≡ job_response self.now.task.table.now self.now.task.row (suc before) }
    {
        let w = self.start(before)?;
        Some((w + self.task.k()).saturating_sub(before * self.task.t()))
    }

    // The largest response of the first n jobs.
    #[tactic(auto, using(crate::proofs::Limits::jobs), unfolding(equations::specs::Hypertask::worst))]
    fn worst(&self, n: u32) -> Option<u32>
        requires { n * T self.now.task.table.now self.now.task.row ≤ 4000000 + T self.now.task.table.now self.now.task.row }
        ensures { result ≡ worst self.now.task.table.now self.now.task.row n }
    {
        let mut most = 0;
        for before in 0..n {
            most = most.max(self.job_response(before)?);
        }
        Some(most)
    }
}

impl<'a> Task<'a> {
    // The sum of up(t/T)·K over the rows above.
    fn demand_above(&self, t: u32) -> u64
        ensures { result ≡ sum (demand self.now.table.now t) self.now.row }
    {
        (0..self.row).map(|j| self.at(j).demand(t)).sum()
    }

    // B(i), the largest K among the rows below.
    fn blocking(&self) -> u32
        ensures { result ≡ B self.now.table.now self.now.row }
    {
        (self.row + 1..self.rows())
            .map(|j| self.at(j).k())
            .max()
            .unwrap_or(0)
    }

    // Its releases that equation 2 counts within w.
    #[tactic(auto, using(crate::proofs::Limits::limits), unfolding(equations::specs::Hypertask::releases))]
    fn releases(&self, w: u32) -> u64
        ensures { result ≡ releasesOf self.now.table.now w self.now.row }
    {
        u64::from(w.div_ceil(self.t())) + 1
    }

    // Their hypertasks' ticks.
    #[tactic(auto, using(crate::proofs::Limits::limits), unfolding(equations::specs::Hypertask::start_demand))]
    fn start_demand(&self, w: u32) -> u64
        ensures { result ≡ start_demand self.now.table.now w self.now.row }
    {
        self.releases(w) * u64::from(self.k())
    }

    // The sum of these over the rows above.
    fn start_demand_above(&self, w: u32) -> u64
        ensures { result ≡ sum (start_demand self.now.table.now w) self.now.row }
    {
        (0..self.row).map(|j| self.at(j).start_demand(w)).sum()
    }

    // R(i), or refusal 5 or 6 at its task.
    #[tactic(auto, using(crate::proofs::Limits::responses))]
    pub(crate) fn response(&self) -> Result<u32, Refusal>
        ensures { result ≡ response self.now.table.now self.now.row }
    {
        let hypertask = Hypertask {
            task: *self,
            b: self.blocking(),
        };
        let t = hypertask
            .active_period()
            .ok_or(Refusal::NoActivePeriod(self.row + 1))?;
        let jobs = t.div_ceil(self.t());
        hypertask
            .worst(jobs)
            .ok_or(Refusal::StartTooLate(self.row + 1))
    }
}
