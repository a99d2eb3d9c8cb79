// Words moved inside one buffer.
ghost use Rattle.std.specs.Prelude.{◌≡◌, ◌+◌, ◌-◌, ◌≤◌, ◌++◌, length, take, drop};
ghost use Rattle.std.specs.List.{between};

// Where the words from `from` up to `end` end once they begin at `to`.
fn moved_end(to: usize, from: usize, end: usize) -> usize
    requires { (to ≤ from) × (from ≤ end) }
    ensures { result ≡ to + (end - from) }
{
    to + (end - from)
}

// Moves the words from `from` up to `end` down to `to`, and answers where they end then.
pub fn slide(sheet: &mut [u16], to: usize, from: usize, end: usize) -> usize
    requires down { to ≤ from }
    requires order { from ≤ end }
    requires fits { end ≤ length sheet.old }
    ensures end { result ≡ to + (end - from) }
    ensures front { take result sheet.new ≡ take to sheet.old ++ between from end sheet.old }
    ensures behind { drop end sheet.new ≡ drop end sheet.old }
{
    sheet.copy_within(from..end, to);
    moved_end(to, from, end)
}
