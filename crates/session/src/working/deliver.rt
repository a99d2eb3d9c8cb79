// Deliver: the working sheet is handed to a solver. It stays as it is until it is settled.
ghost use Rattle.std.specs.Prelude.{◌≡◌};
ghost use Rattle.sheet.specs.Sheets.{lent};
ghost use Rattle.session.specs.Delivering.{DeliverFaithful};

use crate::delivered::Delivered;
use crate::working::Working;
use sheet::row::Item;
use weight::Weight;

impl Working {
    // Looks at no buffer: they are lent so that the contract can speak of the sheet that they stand for.
    pub fn deliver<W: Weight>(
        self,
        sheet: &[u16],
        row: &[Item],
        stack: &[u16],
        weights: &[W],
    ) -> Delivered
        ensures marks { result.marks ≡ self.marks }
        ensures counts { result.counts ≡ self.counts }
        ensures faithful { DeliverFaithful W.Weight (lent sheet.now row.now stack.now weights.now self.marks self.counts) (lent sheet.now row.now stack.now weights.now result.marks result.counts) }
    {
        Delivered::of(self.marks, self.counts)
    }
}
