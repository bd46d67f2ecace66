// The writer: the checks in its order, then the contents and the bodies from front to end.
ghost use Rattle.std.specs.Prelude.{◌≡◌, ◌+◌, ◌*◌, ◌<◌, ◌≤◌, length};
ghost use Rattle.std.proofs.lemmas.List.Edits.{sets};
ghost use Rattle.plan.specs.Numbers.{bytes_of, table_bytes};
ghost use Rattle.plan.specs.Refuse.{answer_of};
ghost use Rattle.plan.specs.PlanFile.{entry_bytes};
ghost use Rattle.plan.specs.Writer.{plan_file, wrong_table, write_refusal, Writes};
ghost use Rattle.plan.specs.Inside.{number_of, section_count, bodies_at, file_length, head_bytes, HasRoom, Puts};

use super::bodies::first_wrong_record;
use super::{Kind, wrong_length};
use refusals::Refusal;

// 1
fn wrong_table(n: usize) -> bool
    ensures { result ≡ wrong_table n }
{
    !(4..=128).contains(&n) || !n.is_multiple_of(4)
}

// How many sections a plan has: the rows, and a script of n bytes where there is one.
#[tactic(auto, unfolding(crate::specs::Inside::optional_count))]
fn section_count(n: usize) -> usize
    ensures value { result ≡ section_count n }
    ensures few { result ≤ 2 }
{
    if n == 0 { 1 } else { 2 }
}

// The length of the file of a table of m numbers and a script of n bytes.
fn file_length(m: usize, n: usize) -> usize
    requires rows { m ≤ 128 }
    requires bytes { n < 9223372036854775808 }
    ensures { result ≡ file_length m n }
{
    4 + 12 * section_count(n) + 4 * m + n
}

// 1, 16, 17, 13 and 18.
#[tactic(auto, unfolding(crate::specs::Writer::write_refusal), using(crate::proofs::Written::plan_length))]
fn check_write(table: &[u32], script: &[u8], room: usize) -> Result<(), Refusal>
    ensures { result ≡ answer_of (write_refusal table.now script.now room) }
{
    if wrong_table(table.len()) {
        return Err(Refusal::TableLength(table.len()));
    }
    if !script.len().is_multiple_of(8) {
        return Err(Refusal::BodySize(2));
    }
    if let Some(r) = first_wrong_record(script) {
        return Err(Refusal::RecordBytes(r));
    }
    let need = file_length(table.len(), script.len());
    if wrong_length(need) {
        return Err(Refusal::FileLength(need));
    }
    if room < need {
        return Err(Refusal::OutputShort(need));
    }
    Ok(())
}

// Lent bytes, written up to a place.
#[derive(Drop)]
struct Output<'a> {
    bytes: &'a mut [u8],
    at: usize,
}

impl Output<'_> {
    // Bytes, from the place on; the place is then the one after them.
    fn put(&mut self, bytes: &[u8])
        requires { HasRoom self.old (length bytes.now) }
        ensures { Puts self.old bytes.now self.new }
    {
        let end = self.at + bytes.len();
        self.bytes[self.at..end].copy_from_slice(bytes);
        self.at = end;
    }

    // The four bytes of a number.
    fn put_number(&mut self, x: u32)
        requires { HasRoom self.old 4 }
        ensures { Puts self.old (bytes_of x) self.new }
    {
        self.put(&x.to_le_bytes());
    }

    // An entry of the contents.
    fn put_entry(&mut self, kind: Kind, offset: usize, size: usize)
        requires room { HasRoom self.old 12 }
        requires short { offset + size ≤ 65536 }
        ensures { Puts self.old (entry_bytes (number_of kind) offset size) self.new }
    {
        self.put_number(kind.number());
        self.put_number(offset as u32);
        self.put_number(size as u32);
    }

    // The bytes of a table.
    fn put_table(&mut self, table: &[u32])
        requires { HasRoom self.old (4 * length table.now) }
        ensures { Puts self.old (table_bytes table.now) self.new }
    {
        for x in table {
            self.put_number(*x);
        }
    }

    // The count and the contents of a plan with m numbers in its table and n bytes in its script.
    fn put_contents(&mut self, m: usize, n: usize)
        requires room { HasRoom self.old (bodies_at n) }
        requires short { file_length m n ≤ 65536 }
        ensures { Puts self.old (head_bytes m n) self.new }
    {
        let count = section_count(n);
        let rows_at = 4 + 12 * count;
        self.put_number(count as u32);
        self.put_entry(Kind::Rows, rows_at, 4 * m);
        if n != 0 {
            self.put_entry(Kind::Script, rows_at + 4 * m, n);
        }
    }
}

// The whole file, at the front of a lent output that has room for it: its length.
fn put_file(output: &mut [u8], table: &[u32], script: &[u8]) -> usize
    requires short { file_length (length table.now) (length script.now) ≤ 65536 }
    requires room { file_length (length table.now) (length script.now) ≤ length output.old }
    ensures len { result ≡ file_length (length table.now) (length script.now) }
    ensures file { output.new ≡ sets output.old 0 (plan_file table.now script.now) }
{
    let mut file = Output {
        bytes: output,
        at: 0,
    };
    file.put_contents(table.len(), script.len());
    file.put_table(table);
    file.put(script);
    file.at
}

// The file of a table and a script, at the front of the lent output: its length, or why nothing was written.
pub fn write(table: &[u32], script: &[u8], output: &mut [u8]) -> Result<usize, Refusal>
    ensures { Writes table.now script.now output.old result output.new }
{
    check_write(table, script, output.len())?;
    Ok(put_file(output, table, script))
}
