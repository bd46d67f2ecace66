// The lines of an accepted table's rows.
ghost use Rattle.std.specs.Prelude.{◌≡◌, ◌+◌, ◌*◌, ◌/◌, ◌≤◌, length, min};
ghost use Rattle.least.specs.Lists.{flat};
ghost use Rattle.text.specs.Put.{Puts};
ghost use Rattle.report.specs.Inside.{result_line};

use text::Text;

// Each row of the table with its results.
pub(crate) fn put_rows(text: &mut Text, table: &[u32], results: &[u32])
    ensures puts { Puts text.old (flat (result_line table.now results.now) (min (length table.now / 4) (length results.now / 3))) text.new }
    ensures short { text.new.at ≤ text.old.at + 168 * (length table.now / 4) }
{
    let (rows, _) = table.as_chunks::<4>();
    let (results, _) = results.as_chunks::<3>();
    for (i, (row, result)) in rows.iter().zip(results).enumerate() {
        let [t, d, c, k] = *row;
        let [r, e, g] = *result;
        text.put_row(i as u64 + 1, [t, d, c, k, r, e, g].map(u64::from));
    }
}
