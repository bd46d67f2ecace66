// The plan file: document 01, "The plan file". Reader, bodies as values, writer.
#![tactic(auto)]

pub mod bodies;
pub mod reader;
pub mod writer;

ghost use Rattle.std.specs.Prelude.{◌≡◌, ◌+◌, ◌≤◌, length};
ghost use Rattle.plan.specs.Numbers.{number_at};
ghost use Rattle.plan.specs.PlanFile.{wrong_length};
ghost use Rattle.plan.specs.Inside.{number_of};

// The kinds of sections, by their numbers.
#[derive(Clone, Copy, Debug, PartialEq, Eq)]
enum Kind {
    Rows = 1,
    Script = 2,
}

impl Kind {
    // An entry may say any number, so kinds are compared by theirs.
    fn number(self) -> u32
        ensures { result ≡ number_of self }
    {
        self as u32
    }
}

// One tick record of a script.
#[derive(Clone, Copy, Debug, PartialEq, Eq)]
pub struct Tick {
    pub mask: u32,
    pub signal: u8,
    pub early: bool,
}

// Why rows weren't taken into lent numbers.
#[derive(Clone, Copy, Debug, PartialEq, Eq)]
pub enum RowsError {
    // bytes that aren't in fours; how many they are
    NotInFours(usize),
    // lent numbers too few; how many are needed
    TooShort(usize),
}

// The number in the four bytes from k on.
#[tactic(auto, using(crate::proofs::Bytes::number_part))]
fn number(bytes: &[u8], k: usize) -> u32
    requires { k + 4 ≤ length bytes.now }
    ensures { result ≡ number_at bytes.now k }
{
    u32::from_le_bytes(bytes[k..k + 4].try_into().unwrap())
}

// 13
fn wrong_length(len: usize) -> bool
    ensures { result ≡ wrong_length len }
{
    !(4..=65536).contains(&len)
}
