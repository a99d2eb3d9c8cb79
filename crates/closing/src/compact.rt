// Compaction: the softs that are left go, and the other clauses move down over the gaps.
ghost use Rattle.std.specs.Prelude.{◌≡◌, ◌≤◌, true, length, take, drop};
ghost use Rattle.closing.specs.Labelling.{without_softs};
ghost use Rattle.sheet.specs.Clauses.{Laid, clauses};

use sheet::clause::Tag;
use sheet::clauses::retain;

// Removes the softs of the first `fill` words, which it writes to, and answers the new fill.
pub(crate) fn drop_softs(sheet: &mut [u16], fill: usize) -> usize
    requires fits { fill ≤ length sheet.old }
    requires laid { Laid (take fill sheet.old) }
    ensures shrinks { result ≤ fill }
    ensures laid { Laid (take result sheet.new) }
    ensures kept { clauses (take result sheet.new) ≡ without_softs (clauses (take fill sheet.old)) }
    ensures behind { drop fill sheet.new ≡ drop fill sheet.old }
{
    retain(sheet, fill, |tag, _| !matches!(tag, Tag::Soft(_)))
}
