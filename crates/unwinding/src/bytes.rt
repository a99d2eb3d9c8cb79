// An answer is a byte for each item, 1 where it is yes and 0 where it is no. Item 1 has the first.
ghost use Rattle.std.specs.Prelude.{◌≡◌, ◌≤◌, length, take};
ghost use Rattle.meaning.specs.Unwinding.{reset};
ghost use Rattle.sheet.specs.Rows.{is_live};
ghost use Rattle.unwinding.specs.Bytes.{Bits, first_above_one, values_of};

use sheet::row::{Item, Standing};

// The place of the first byte that is neither yes nor no.
pub fn first_above_one(answer: &[u8]) -> Option<usize>
    ensures { result ≡ first_above_one answer.now }
{
    answer.iter().position(|byte| *byte > 1)
}

// Whether an item is yes. One that has no byte is no.
pub fn is_yes(answer: &[u8], item: usize) -> bool
    ensures { result ≡ values_of answer.now item }
{
    item > 0 && answer.get(item - 1) == Some(&1)
}

fn is_live(standing: Standing) -> bool
    ensures { result ≡ is_live standing }
{
    match standing {
        Standing::Plain | Standing::Label => true,
        Standing::Fixed | Standing::Covered | Standing::Forced => false,
    }
}

// Retired items become no: what was sent for them means nothing.
// That each byte is 0 or 1 stays a clause, here and in `records`: a caller lends a plain slice, and a struct round it would be no plainer.
pub fn reset_retired(answer: &mut [u8], row: &[Item])
    requires row { length answer.old ≤ length row.now }
    requires bits { Bits answer.old }
    ensures reset { values_of answer.new ≡ reset (take (length answer.old) row.now) (values_of answer.old) }
    ensures bits { Bits answer.new }
{
    // by index, since a proof does not know what was written through a `zip` over `iter_mut`
    for (i, byte) in answer.iter_mut().enumerate() {
        if !is_live(row[i].standing) {
            *byte = 0;
        }
    }
}
