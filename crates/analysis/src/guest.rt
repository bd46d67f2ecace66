// G of a task: the two windows over the request bounds.
#![tactic(auto, using(crate::proofs::Limits::windows))]

ghost use Rattle.std.specs.Prelude.{◌≡◌, ◌+◌, ◌-◌, ◌*◌, ◌<◌, Option};
ghost use Rattle.least.specs.Sums.{sum};
ghost use Rattle.equations.specs.Table.{rows, T, C, K};
ghost use Rattle.equations.specs.Guest.{begun_by_hypertask, begun_by_guest, bound, below, window_side, WA, WE, guest};
ghost use Rattle.equations.proofs.Bounds.{window_never_falls};
ghost use Rattle.analysis.specs.Inside.{offset_in, Offsets};

use crate::results::Responses;
use crate::search::{Equation, least};
use crate::table::Task;
use refusals::Refusal;

// A task's guest, where E of each row has been found.
#[derive(Clone, Copy)]
pub(crate) struct Guest<'a> {
    pub(crate) task: Task<'a>,
    pub(crate) found: &'a [Responses],
    pub ghost offsets: { Offsets task.table.now found.now },
}

// A window's equation: the task's own part is C, or C + K.
#[derive(Drop)]
struct Window<'a> {
    guest: Guest<'a>,
    own: u32,
}

impl Equation for Window<'_> {
    ghost side = { λ e. window_side e.guest.task.table.now (offset_in e.guest.found.now) e.guest.task.row e.own };

    #[tactic(auto, using(crate::proofs::Limits::windows), unfolding(equations::specs::Guest::window_side, equations::specs::Guest::F))]
    fn side(&self, w: u32) -> u64 {
        u64::from(self.own) + (self.guest.task.demand_below(w) + self.guest.bounds_above(w))
    }

    ghost never_falls = { λ e. window_never_falls e.guest.task.table.now (offset_in e.guest.found.now) e.guest.task.row e.own };
}

impl<'a> Guest<'a> {
    // The guest of row j.
    fn at(&self, j: usize) -> Guest<'a>
        requires { j < rows self.now.task.table.now }
        ensures table { result.task.table.now ≡ self.now.task.table.now }
        ensures row { result.task.row ≡ j }
        ensures found { result.found.now ≡ self.now.found.now }
    {
        Guest {
            task: self.task.at(j),
            found: self.found,
        }
    }

    // Its E.
    fn e(&self) -> u32
        ensures { result ≡ offset_in self.now.found.now self.now.task.row }
    {
        self.found[self.task.row].e
    }

    // The request bound that a hypertask begins.
    #[tactic(auto, using(crate::proofs::Limits::windows), unfolding(equations::specs::Guest::begun_by_hypertask))]
    fn begun_by_hypertask(&self, w: u32) -> u64
        ensures { let s = self.now.task.table.now in let i = self.now.task.row in
            result ≡ begun_by_hypertask (T s i) (C s i) (K s i) (offset_in self.now.found.now i) w }
    {
        let task = &self.task;
        let after = task.t().saturating_sub(self.e());
        task.load(w.saturating_sub(after), task.c()) + task.load(w, task.k())
    }

    // The request bound that a guest begins.
    #[tactic(auto, using(crate::proofs::Limits::windows), unfolding(equations::specs::Guest::begun_by_guest))]
    fn begun_by_guest(&self, w: u32) -> u64
        ensures { let s = self.now.task.table.now in let i = self.now.task.row in
            result ≡ begun_by_guest (T s i) (C s i) (K s i) (offset_in self.now.found.now i) w }
    {
        let task = &self.task;
        task.load(w, task.c()) + task.load(w.saturating_sub(self.e()), task.k())
    }

    // The larger of the two.
    #[tactic(auto, using(crate::proofs::Limits::windows), unfolding(equations::specs::Guest::bound))]
    fn bound(&self, w: u32) -> u64
        ensures { result ≡ bound self.now.task.table.now (offset_in self.now.found.now) w self.now.task.row }
    {
        self.begun_by_hypertask(w).max(self.begun_by_guest(w))
    }

    // The sum of the request bounds of the rows above.
    fn bounds_above(&self, w: u32) -> u64
        ensures { result ≡ sum (bound self.now.task.table.now (offset_in self.now.found.now) w) self.now.task.row }
    {
        (0..self.task.row).map(|j| self.at(j).bound(w)).sum()
    }

    // WA(i)
    fn window_begun_by_guest(&self) -> Option<u32>
        ensures { result ≡ WA self.now.task.table.now self.now.task.row }
    {
        let window = Window {
            guest: *self,
            own: self.task.c(),
        };
        least(&window, 1, self.e() + 1)
    }

    // WE(i)
    fn window_begun_by_hypertask(&self) -> Option<u32>
        ensures { result ≡ WE self.now.task.table.now self.now.task.row }
    {
        let window = Window {
            guest: *self,
            own: self.task.c() + self.task.k(),
        };
        least(&window, 1, self.task.t() + 1)
    }

    // G(i), or refusal 7 or 19 at its task.
    pub(crate) fn response(&self) -> Result<u32, Refusal>
        ensures { result ≡ guest self.now.task.table.now self.now.task.row }
    {
        let wa = self
            .window_begun_by_guest()
            .ok_or(Refusal::NoGuestWindow(self.task.row + 1))?;
        let we = self
            .window_begun_by_hypertask()
            .ok_or(Refusal::NoHypertaskWindow(self.task.row + 1))?;
        let before = self.task.t().saturating_sub(self.e());
        Ok(wa.max(we.saturating_sub(before)))
    }
}

impl<'a> Task<'a> {
    // The sum of up(w/T)·K over the rows below.
    fn demand_below(&self, w: u32) -> u64
        ensures { result ≡ below self.now.table.now self.now.row w }
    {
        (self.row + 1..self.rows())
            .map(|j| self.at(j).demand(w))
            .sum()
    }
}
