// The whole text of a plan's run: document 01, the end of "Cases".
#![tactic(auto)]

mod rows;
mod script;
mod totals;

ghost use Rattle.std.specs.Prelude.{◌≡◌, ◌+◌, ◌≤◌, length, IsOk};
ghost use Rattle.start.specs.Start.{start_answer, start_of};
ghost use Rattle.text.specs.Put.{Put, Puts};
ghost use Rattle.report.specs.Report.{table_text, text_of, Reports};
ghost use Rattle.report.specs.Inside.{longest};

use machine::Machine;
use script::Script;
use text::Text;

// Lent bytes from which no text can be too long.
const LONGEST: usize = 655360;

// Lent bytes too few; how many are needed.
#[derive(Clone, Copy, Debug, PartialEq, Eq)]
pub struct TooShort {
    pub needed: usize,
}

// The text of an accepted table, whose fresh machine is given, and a script.
fn put_accepted(text: &mut Text, machine: Machine, table: &[u32], script: Script)
    requires { (IsOk (start_answer table.now)) × (machine ≡ (start_of table.now).machine) }
    ensures puts { Puts text.old (table_text table.now script.entry.bytes.now) text.new }
    ensures short { text.new.at ≤ text.old.at + longest }
{
    let mut results = [0u32; 96];
    let n = analysis::analyse(table, &mut results).unwrap();
    text.put_accept(n as u64);
    rows::put_rows(text, table, &results);
    script::put_script(text, machine, n, script);
}

// The text of a table and a script.
fn put_table(text: &mut Text, table: &[u32], script: Script)
    ensures puts { Puts text.old (table_text table.now script.entry.bytes.now) text.new }
    ensures short { text.new.at ≤ text.old.at + longest }
{
    let started = start::start(table);
    match started.answer {
        Ok(_) => put_accepted(text, started.machine, table, script),
        Err(refusal) => text.put_refusal(refusal),
    }
}

// The text of a file.
fn put_file(text: &mut Text, file: &[u8])
    ensures puts { Puts text.old (text_of file.now) text.new }
    ensures short { text.new.at ≤ text.old.at + longest }
{
    if let Err(refusal) = plan::reader::check(file) {
        text.put_refusal(refusal);
        return;
    }
    let mut table = [0u32; 128];
    let n = plan::bodies::table_of(plan::reader::rows_of(file), &mut table).unwrap();
    let script = Script {
        bytes: plan::reader::script_of(file),
    };
    put_table(text, &table[..n], script);
}

// The text of a file at the front of the bytes, as far as they reach; the answer is its whole length.
fn put_text(bytes: &mut [u8], file: &[u8]) -> usize
    ensures puts { Put bytes.old 0 (text_of file.now) bytes.new result }
    ensures short { result ≤ longest }
{
    let mut text = Text { bytes, at: 0 };
    put_file(&mut text, file);
    text.at
}

// How many bytes the text of a file has.
fn needed(file: &[u8]) -> usize
    ensures { (result ≡ length (text_of file.now)) × (result ≤ longest) }
{
    put_text(&mut [0], file)
}

// The whole text at the front of the lent bytes, and nothing past it touched; or how many bytes are needed, and nothing touched.
pub fn report(file: &[u8], text: &mut [u8]) -> Result<usize, TooShort>
    ensures { Reports file.now text.old result text.new }
{
    if text.len() < LONGEST {
        let needed = needed(file);
        if text.len() < needed {
            return Err(TooShort { needed });
        }
    }
    Ok(put_text(text, file))
}
