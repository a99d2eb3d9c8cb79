// Settle: the solver is done with the sheet, and work on it may go on.
ghost use Rattle.std.specs.Prelude.{◌≡◌};
ghost use Rattle.sheet.specs.Sheets.{lent};
ghost use Rattle.session.specs.Delivering.{SettleFaithful};

use crate::delivered::Delivered;
use crate::working::Working;
use sheet::row::Item;
use weight::Weight;

impl Delivered {
    // Looks at no buffer: they are lent so that the contract can speak of the sheet that they stand for.
    pub fn settle<W: Weight>(
        self,
        sheet: &[u16],
        row: &[Item],
        stack: &[u16],
        weights: &[W],
    ) -> Working
        ensures marks { result.marks ≡ self.marks }
        ensures counts { result.counts ≡ self.counts }
        ensures faithful { SettleFaithful W.Weight (lent sheet.now row.now stack.now weights.now self.marks self.counts) (lent sheet.now row.now stack.now weights.now result.marks result.counts) }
    {
        let Delivered { marks, counts } = self;
        Working::of(marks, counts)
    }
}
