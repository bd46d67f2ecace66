// A sound table and its rows, and what a row asks for within some ticks.
ghost use Rattle.std.specs.Prelude.{◌≡◌, ◌*◌, ◌<◌, ◌≤◌};
ghost use Rattle.least.specs.Sums.{up};
ghost use Rattle.equations.specs.Table.{rows, T, D, C, K, Sound};
ghost use Rattle.equations.specs.Hypertask.{demand};

use std::marker::Model;

// A table that passes refusals 1, 2 and 3.
#[derive(Drop)]
pub(crate) struct Table<'a> {
    numbers: &'a [u32],
}

impl<'a> Model for Table<'a> {
    ghost use Rattle.std.specs.Prelude.{ℕ, List};
    ghost use Rattle.equations.specs.Table.{Sound};

    ghost Value = { List ℕ };

    ghost view = { λ a. a.numbers.now };

    ghost invariant = { λ a. Sound a.numbers.now };
}

impl<'a> Table<'a> {
    // The table of these numbers, which pass.
    pub(crate) fn new(numbers: &'a [u32]) -> Self
        requires { Sound numbers.now }
        ensures { result ≡ numbers.now }
    {
        Table { numbers }
    }

    // How many rows it has.
    pub(crate) fn rows(&self) -> usize
        ensures value { result ≡ rows self.now }
        ensures few { result ≤ 32 }
    {
        self.numbers.len() / 4
    }

    // The task of a row. Rows are counted from 0.
    pub(crate) fn task(&self, row: usize) -> Task<'a>
        requires { row < rows self.now }
        ensures { (result.table.now ≡ self.now) × (result.row ≡ row) }
    {
        Task {
            table: self.numbers,
            row,
        }
    }
}

// A task: a row of a sound table.
#[derive(Clone, Copy)]
pub(crate) struct Task<'a> {
    table: &'a [u32],
    pub(crate) row: usize,
    pub ghost sound: { Sound table.now },
    pub ghost in_table: { row < rows table.now },
}

impl<'a> Task<'a> {
    // Another row of its table.
    pub(crate) fn at(&self, row: usize) -> Task<'a>
        requires { row < rows self.now.table.now }
        ensures { (result.table.now ≡ self.now.table.now) × (result.row ≡ row) }
    {
        Task {
            table: self.table,
            row,
        }
    }

    // How many rows its table has.
    pub(crate) fn rows(&self) -> usize
        ensures { result ≡ rows self.now.table.now }
    {
        self.table.len() / 4
    }

    // T, its period.
    pub(crate) fn t(&self) -> u32
        ensures { result ≡ T self.now.table.now self.now.row }
    {
        self.table[4 * self.row]
    }

    // D, its deadline.
    pub(crate) fn d(&self) -> u32
        ensures { result ≡ D self.now.table.now self.now.row }
    {
        self.table[4 * self.row + 1]
    }

    // C, the ticks of its guest part at most.
    pub(crate) fn c(&self) -> u32
        ensures { result ≡ C self.now.table.now self.now.row }
    {
        self.table[4 * self.row + 2]
    }

    // K, the ticks of its hypertask at most.
    pub(crate) fn k(&self) -> u32
        ensures { result ≡ K self.now.table.now self.now.row }
    {
        self.table[4 * self.row + 3]
    }

    // So many ticks for each period begun within w.
    #[tactic(auto, using(crate::proofs::Limits::limits))]
    pub(crate) fn load(&self, w: u32, ticks: u32) -> u64
        ensures { result ≡ up w (T self.now.table.now self.now.row) * ticks }
    {
        u64::from(w.div_ceil(self.t())) * u64::from(ticks)
    }

    // up(w/T)·K
    #[tactic(auto, using(crate::proofs::Limits::limits), unfolding(equations::specs::Hypertask::demand))]
    pub(crate) fn demand(&self, w: u32) -> u64
        ensures { result ≡ demand self.now.table.now w self.now.row }
    {
        self.load(w, self.k())
    }
}
