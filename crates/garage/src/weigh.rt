// What a plan pays, written once for every kind of weight.
ghost use Rattle.std.specs.Prelude.{◌≡◌, IfOk};
ghost use Rattle.std.specs.Float.Ieee.{add};
ghost use Rattle.std.specs.Float.{binary32};
ghost use Rattle.weight.specs.Kind.{ExactOrTooLarge};
ghost use Rattle.weight.specs.Total.{total_in};
ghost use Rattle.garage.specs.Kinds.{nought};
ghost use Rattle.garage.specs.Weighing.{broken, in_order};

use crate::kinds::Weighting;
use crate::level::{Plan, Wish};
use std::alloc::{AllocError, Global};
use std::cmp::Ordering;
use weight::{TooLarge, Weight, total};

// The weights of the wishes that a plan breaks, in order.
fn broken_weights<W: Weighting>(
    heap: Global,
    plan: &Plan,
    wishes: &[Wish],
) -> Result<Vec<W>, AllocError>
    ensures { IfOk result (λ v. v.items ≡ broken W.Weighting.given plan.now.bays wishes.now) }
{
    wishes
        .iter()
        .filter(|wish| !plan.keeps(wish))
        .map(|wish| W::of(wish))
        .collect(heap)
}

// What a plan pays, exactly.
pub fn cost<W: Weighting>(heap: Global, plan: &Plan, wishes: &[Wish]) -> anyhow::Result<W>
    ensures { IfOk result (λ w. W.Weight.value w ≡ total_in W.Weight (broken W.Weighting.given plan.now.bays wishes.now)) }
{
    let weights = broken_weights::<W>(heap, plan, wishes)?;
    Ok(total(&weights)?)
}

// How the first stands to the second. No `Ord`: weights that mean the same may be two values.
pub fn compare<W: Weight>(x: &W, y: &W) -> Ordering
    ensures { result ≡ in_order W.Weight.kind (W.Weight.value x.now) (W.Weight.value y.now) }
{
    if !y.at_most(x) {
        Ordering::Less
    } else if !x.at_most(y) {
        Ordering::Greater
    } else {
        Ordering::Equal
    }
}

// What a plan pays so far: exactly, and as single precision has it.
#[derive(Clone, Copy)]
pub struct Tally<W> {
    pub exact: W,
    pub single: f32,
}

impl<W: Weighting> Tally<W> {
    pub fn nothing() -> Tally<W>
        ensures exact { W.Weight.value result.exact ≡ W.Weight.kind.zero }
        ensures single { result.single ≡ nought }
    {
        Tally {
            exact: W::zero(),
            single: 0.0,
        }
    }

    pub fn plus(&self, weight: &W) -> Result<Tally<W>, TooLarge>
        ensures exact { ExactOrTooLarge W.Weight.kind (λ t. W.Weight.value t.exact) (W.Weight.kind.sum (W.Weight.value self.now.exact) (W.Weight.value weight.now)) result }
        ensures single { IfOk result (λ t. t.single ≡ add binary32 self.now.single (W.Weighting.rounded weight.now)) }
    {
        let exact = self.exact.plus(weight)?;
        let single = self.single + weight.single();
        Ok(Tally { exact, single })
    }
}
