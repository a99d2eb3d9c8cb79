// What an answer costs on its sheet, and what the plan that it unwinds to pays.
ghost use Rattle.std.specs.Prelude.{◌≡◌, length};
ghost use Rattle.unwinding.specs.Charges.{Weighed, charged, cost_in};
ghost use Rattle.weight.specs.Kind.{ExactOrTooLarge};

use crate::bytes::is_yes;
use sheet::row::{Item, Standing};
use weight::{TooLarge, Weight};

// What is charged for. An enum and no closure: a contract names the cost by it.
#[derive(Clone, Copy, Debug, PartialEq, Eq)]
pub enum Bill {
    // an answer of a sheet: live labels that are yes, and forced labels always
    Sheet,
    // a plan: labels that are yes, live or retired
    Plan,
}

fn is_charged(bill: Bill, standing: Standing, yes: bool) -> bool
    ensures { result ≡ charged bill standing yes }
{
    match bill {
        Bill::Sheet => match standing {
            Standing::Label => yes,
            Standing::Forced => true,
            Standing::Plain | Standing::Fixed | Standing::Covered => false,
        },
        Bill::Plan => match standing {
            Standing::Label | Standing::Covered | Standing::Forced => yes,
            Standing::Plain | Standing::Fixed => false,
        },
    }
}

// The exact sum of the weights that a bill charges.
#[tactic(auto, using(crate::proofs::Billing::adding))]
pub fn cost<W: Weight>(
    bill: Bill,
    row: &[Item],
    weights: &[W],
    answer: &[u8],
) -> Result<W, TooLarge>
    requires { Weighed (length weights.now) row.now }
    ensures { ExactOrTooLarge W.Weight.kind W.Weight.value (cost_in W.Weight bill row.now weights.now answer.now) result }
{
    let mut sum = W::zero();
    for (i, item) in row.iter().enumerate() {
        if is_charged(bill, item.standing, is_yes(answer, i + 1)) {
            sum = sum.plus(&weights[usize::from(item.ordinal)])?;
        }
    }
    Ok(sum)
}
