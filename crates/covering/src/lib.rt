// Subsumed label elimination. Where another live label stands in every clause with this one and costs no more, nobody needs to pay this
// one: whoever would can pay the other. So it leaves all clauses and is retired as unpaid, which needs no record.
#![tactic(auto)]

mod labels;

ghost use Rattle.std.specs.Prelude.{◌≡◌, ◌≤◌, true, Some};
ghost use Rattle.covering.specs.Labels.{NoneBelow, lowest_covered, sighted};
ghost use Rattle.steps.specs.Covering.{CoveringRuns, covering, is_covered};
ghost use Rattle.steps.proofs.Covered.{covering_keeps};

use labels::Labels;
use meaning::report::Report;
use rewriting::{make_true, retire};
use rules::rule::Rule;
use rules::technique::{Technique, repeat};
use sheet::buffers::Desk;
use sheet::literal::opposite;
use sheet::refusal::Refusal;
use sheet::row::Standing;
use weight::Weight;

// A step makes no label covered that was not, so the search goes on behind the last place.
#[derive(Clone, Copy)]
struct Search {
    from: u16,
}

impl<W: Weight> Technique<W> for Search {
    type Place = u16;

    ghost step = { λ V k. covering k };

    ghost fits = { λ V k room t. true };

    ghost ready = { λ s b. (1 ≤ s.from) × NoneBelow (is_covered W.Weight.kind (sighted W.Weight b)) s.from };

    ghost found = { λ s b l. lowest_covered W.Weight b ≡ Some l };

    ghost keeps = { λ room. covering_keeps W.Weight.lawful };

    fn find(&mut self, desk: &Desk<'_, W>) -> Option<u16> {
        Labels::of(desk.buffers()).first_covered(self.from)
    }

    fn make(&mut self, desk: &mut Desk<'_, W>, l: u16) -> bool {
        // it is never paid, so its denial is true; no clause has that, so none goes
        let fill = desk.marks.sheet;
        desk.marks.sheet = make_true(desk.sheet, fill, opposite(l));
        retire(desk.row, usize::from(l), Standing::Covered);
        self.from = l + 1;
        true
    }
}

#[derive(Clone, Copy)]
pub struct Covering {}

impl<W: Weight> Rule<W> for Covering {
    ghost runs = { λ r V k room. CoveringRuns k };

    fn run(&self, desk: &mut Desk<'_, W>, limit: u64) -> Result<Report, Refusal> {
        repeat(&mut Search { from: 1 }, desk, limit)
    }
}
