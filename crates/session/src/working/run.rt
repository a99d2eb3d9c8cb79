// Run: a rule, or any pile of rules, on a working sheet.
ghost use Rattle.rules.specs.Answering.{RunAnswered};
ghost use Rattle.session.specs.Running.{RunFaithful};
ghost use Rattle.sheet.specs.Sheets.{lent};

use crate::working::Working;
use meaning::report::Report;
use rules::rule::Rule;
use sheet::buffers::Desk;
use sheet::refusal::Refusal;
use sheet::row::Item;
use weight::Weight;

impl Working {
    // What the call answers. That it stays faithful follows from the answer alone, once for every way out, so it is said outside.
    fn work<W: Weight, R: Rule<W>>(
        &mut self,
        rule: &R,
        sheet: &mut [u16],
        row: &mut [Item],
        stack: &mut [u16],
        weights: &[W],
        limit: u64,
    ) -> Result<Report, Refusal>
        ensures { RunAnswered W.Weight (R.Rule.runs rule.now W.Weight.Value W.Weight.kind) limit (lent sheet.old row.old stack.old weights.now self.old.marks self.old.counts) (lent sheet.new row.new stack.new weights.now self.new.marks self.new.counts) result }
    {
        let mut desk = Desk {
            sheet,
            row,
            stack,
            weights,
            marks: self.marks,
            counts: self.counts,
        };
        let answer = rule.run(&mut desk, limit);
        self.marks = desk.marks;
        answer
    }

    // Makes at most `limit` steps, and answers how many it made and why it ended.
    pub fn run<W: Weight, R: Rule<W>>(
        &mut self,
        rule: &R,
        sheet: &mut [u16],
        row: &mut [Item],
        stack: &mut [u16],
        weights: &[W],
        limit: u64,
    ) -> Result<Report, Refusal>
        ensures answer { RunAnswered W.Weight (R.Rule.runs rule.now W.Weight.Value W.Weight.kind) limit (lent sheet.old row.old stack.old weights.now self.old.marks self.old.counts) (lent sheet.new row.new stack.new weights.now self.new.marks self.new.counts) result }
        ensures faithful { RunFaithful W.Weight (lent sheet.old row.old stack.old weights.now self.old.marks self.old.counts) (lent sheet.new row.new stack.new weights.now self.new.marks self.new.counts) }
    {
        self.work(rule, sheet, row, stack, weights, limit)
    }
}
