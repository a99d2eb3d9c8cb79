// Whether the records of the stack name items.
ghost use Rattle.std.specs.Prelude.{Decides};
ghost use Rattle.std.specs.List.{AllByRecursion};
ghost use Rattle.sheet.specs.Literals.{Literal};

use crate::literals::all_literals;
use sheet::records::Records;

pub(crate) fn records_stand(items: usize, records: &Records<'_>) -> bool
    ensures { Decides result (AllByRecursion (λ r. AllByRecursion (Literal items) r.lits) records.now) }
{
    records
        .iter()
        .all(|record| all_literals(items, record.lits))
}
