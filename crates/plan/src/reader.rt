// The reader: the checks by number over all entries, and the parts of the caller's bytes.
ghost use Rattle.std.specs.Prelude.{◌≡◌, ◌+◌, ◌<◌, None};
ghost use Rattle.plan.specs.Refuse.{answer_of};
ghost use Rattle.plan.specs.PlanFile.{count, entry_at, sections_of, body_of, rows_kind, script_kind, wrong_count, wrong_size};
ghost use Rattle.plan.specs.PlanFile.{start_at, asked, WrongPlace, entries_refusal, read_refusal, part_of};
ghost use Rattle.plan.specs.Inside.{number_of, bodies_refusal, Listed, Step};

use super::bodies::first_wrong_record;
use super::{Kind, number, wrong_length};
use refusals::Refusal;
use std::marker::Model;

const MOST_SECTIONS: u32 = 2;

// An entry of the contents.
#[derive(Clone, Copy, Debug, PartialEq, Eq)]
struct Entry {
    kind: u32,
    offset: u32,
    length: u32,
}

impl Entry {
    // Where the body ends.
    fn end(self) -> usize
        ensures { result ≡ self.offset + self.length }
    {
        self.offset as usize + self.length as usize
    }

    // 16
    fn wrong_size(self) -> bool
        ensures { result ≡ wrong_size self.kind self.length }
    {
        if self.kind == Kind::Script.number() {
            self.length == 0 || !self.length.is_multiple_of(8)
        } else {
            !(16..=512).contains(&self.length) || !self.length.is_multiple_of(16)
        }
    }
}

// 14, place 0
fn wrong_count(n: u32, len: usize) -> bool
    ensures { result ≡ wrong_count n len }
{
    !(1..=MOST_SECTIONS).contains(&n) || len < 4 + 12 * n as usize
}

// A file with its contents in it.
#[derive(Drop)]
struct Contents<'a> {
    file: &'a [u8],
}

impl<'a> Model for Contents<'a> {
    ghost use Rattle.std.specs.Prelude.{List, ℕ};
    ghost use Rattle.plan.specs.Inside.{Listed};

    ghost Value = { List ℕ };

    ghost view = { λ c. c.file.now };

    ghost invariant = { λ c. Listed c.file.now };
}

impl<'a> Contents<'a> {
    // 13, and 14 at place 0.
    #[tactic(auto, unfolding(crate::specs::PlanFile::read_refusal))]
    fn read(file: &'a [u8]) -> Result<Contents<'a>, Refusal>
        ensures { Step (read_refusal file.now) (entries_refusal file.now) file.now result }
    {
        let len = file.len();
        if wrong_length(len) {
            return Err(Refusal::FileLength(len));
        }
        if wrong_count(number(file, 0), len) {
            return Err(Refusal::Contents(0));
        }
        Ok(Contents { file })
    }

    fn count(&self) -> usize
        ensures value { result ≡ count self.now }
        ensures listed { Listed self.now }
    {
        number(self.file, 0) as usize
    }

    // Entry i, from 0.
    fn entry(&self, i: usize) -> Entry
        requires { i < count self.now }
        ensures { result ≡ entry_at self.now i }
    {
        Entry {
            kind: number(self.file, 4 + 12 * i),
            offset: number(self.file, 8 + 12 * i),
            length: number(self.file, 12 + 12 * i),
        }
    }

    // Where the body of entry i has to begin.
    #[tactic(auto, using(crate::proofs::Tests::start_first, crate::proofs::Tests::start_next))]
    fn start_at(&self, i: usize) -> usize
        requires { i < count self.now }
        ensures { result ≡ start_at self.now i }
    {
        if i == 0 {
            4 + 12 * self.count()
        } else {
            self.entry(i - 1).end()
        }
    }

    // 15
    #[tactic(auto, unfolding(crate::specs::PlanFile::asked))]
    fn wrong_place(&self, i: usize) -> bool
        requires { i < count self.now }
        ensures { result ≡ asked WrongPlace self.now i }
    {
        let len = self.file.len();
        let e = self.entry(i);
        let last = i + 1 == self.count();
        e.offset as usize != self.start_at(i) || len < e.end() || last && e.end() != len
    }

    // 14 by entry and 15, each over all entries.
    fn placed(self) -> Result<Plan<'a>, Refusal>
        ensures { Step (entries_refusal self.entry) (bodies_refusal self.entry) self.entry result }
    {
        let n = self.count();
        if let Some(i) = (0..n).find(|&i| self.entry(i).kind as usize != i + 1) {
            return Err(Refusal::Contents(i + 1));
        }
        if let Some(i) = (0..n).find(|&i| self.wrong_place(i)) {
            return Err(Refusal::BodyPlace(i + 1));
        }
        Ok(Plan { contents: self })
    }
}

// A file with each body in its place.
#[derive(Drop)]
struct Plan<'a> {
    contents: Contents<'a>,
}

impl<'a> Model for Plan<'a> {
    ghost use Rattle.std.specs.Prelude.{List, ℕ};
    ghost use Rattle.plan.specs.Inside.{Placed};

    ghost Value = { List ℕ };

    ghost view = { λ p. p.contents };

    ghost invariant = { λ p. Placed p.contents };
}

impl<'a> Plan<'a> {
    // The plan in a file, or the first refusal by number.
    fn read(file: &'a [u8]) -> Result<Plan<'a>, Refusal>
        ensures { Step (read_refusal file.now) None file.now result }
    {
        let plan = Contents::read(file)?.placed()?;
        plan.check_bodies()?;
        Ok(plan)
    }

    // 16 and 17.
    fn check_bodies(&self) -> Result<(), Refusal>
        ensures { result ≡ answer_of (bodies_refusal self.now) }
    {
        let contents = &self.contents;
        if let Some(i) = (0..contents.count()).find(|&i| contents.entry(i).wrong_size()) {
            return Err(Refusal::BodySize(i + 1));
        }
        match first_wrong_record(self.body(Kind::Script)) {
            Some(r) => Err(Refusal::RecordBytes(r)),
            None => Ok(()),
        }
    }

    // The body of the first entry of a kind, empty where there is none.
    fn body(&self, kind: Kind) -> &'a [u8]
        ensures { result.now ≡ body_of (number_of kind) (sections_of self.now) }
    {
        let contents = &self.contents;
        let Some(i) = (0..contents.count()).find(|&i| contents.entry(i).kind == kind.number())
        else {
            return &[];
        };
        let e = contents.entry(i);
        &contents.file[e.offset as usize..e.end()]
    }
}

// Whether a file is a plan, and if not, the first refusal by number.
pub fn check(file: &[u8]) -> Result<(), Refusal>
    ensures { result ≡ answer_of (read_refusal file.now) }
{
    Plan::read(file)?;
    Ok(())
}

// The body of a kind in a plan, empty where the file is refused.
#[tactic(auto, unfolding(crate::specs::PlanFile::part_of))]
fn part_of(file: &[u8], kind: Kind) -> &[u8]
    ensures { result.now ≡ part_of (number_of kind) file.now }
{
    match Plan::read(file) {
        Ok(plan) => plan.body(kind),
        Err(_) => &[],
    }
}

// The rows of a plan, as a part of the caller's bytes: empty where the file is refused.
pub fn rows_of(file: &[u8]) -> &[u8]
    ensures { result.now ≡ part_of rows_kind file.now }
{
    part_of(file, Kind::Rows)
}

// The script of a plan, as a part of the caller's bytes: empty where the file is refused or has none.
pub fn script_of(file: &[u8]) -> &[u8]
    ensures { result.now ≡ part_of script_kind file.now }
{
    part_of(file, Kind::Script)
}
