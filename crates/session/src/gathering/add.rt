// Add: one more clause, hard or with a weight.
ghost use Rattle.std.specs.Prelude.{◌≡◌, ◌≤◌, length};
ghost use Rattle.weight.specs.Total.{total_in};
ghost use Rattle.sheet.specs.Sheets.{Fits, lent};
ghost use Rattle.session.specs.declared.claim.Claim.TheVariants.{Soft};
ghost use Rattle.session.specs.Adding.{AddAnswered, AddFaithful, Stored, soft_cause};
ghost use Rattle.session.specs.Refusing.{ok_unless};

use crate::claim::Claim;
use crate::gathering::Gathering;
use checking::holds_together;
use sending::{Flags, first_bad};
use sheet::buffers::{Buffers, Phase, WORDS};
use sheet::clause::{Tag, enclose, size};
use sheet::refusal::Refusal;
use sheet::row::Item;
use weight::{Weight, total};

const MOST_SOFTS: usize = 2000;

// Whether the weights kept and one more total within the ceiling.
fn within_ceiling<W: Weight>(w: &W, kept: &[W]) -> bool
    ensures { result ≡ W.Weight.kind.within (W.Weight.kind.sum (total_in W.Weight kept.now) (W.Weight.value w.now)) }
{
    total(kept).is_ok_and(|sum| sum.plus(w).is_ok())
}

// Whether there is a place for the weight, and the total stays within the ceiling.
fn soft_fits<W: Weight>(w: W, softs: usize, weights: &[W]) -> Result<(), Refusal>
    ensures { result ≡ ok_unless (soft_cause W.Weight softs weights.now (Soft w)) }
{
    if softs >= MOST_SOFTS || softs >= weights.len() {
        return Err(Refusal::TooManySofts(softs));
    }
    if !within_ceiling(&w, &weights[..softs]) {
        return Err(Refusal::TotalTooLarge(softs));
    }
    Ok(())
}

// Writes the literals of the table as a clause behind the others, and returns where the words end then.
fn store(flags: &Flags, tag: Tag, sheet: &mut [u16], fill: usize) -> Result<usize, Refusal>
    requires few { length flags.now ≤ 4000 }
    requires fits { Fits fill sheet.old }
    ensures { Stored fill (record { tag = tag; lits = flags.now }) sheet.old sheet.new result }
{
    let count = flags.len();
    let words = size(tag, count);
    if words > sheet.len().min(WORDS) - fill {
        return Err(Refusal::WordsDoNotFit(words));
    }
    flags.write(sheet, fill + 1);
    Ok(enclose(sheet, fill, tag, count))
}

impl Gathering {
    // What the call answers. That it stays faithful follows from the answer alone, once for every way out, so it is said outside.
    fn take<W: Weight>(
        &mut self,
        lits: &[i32],
        claim: Claim<W>,
        sheet: &mut [u16],
        row: &[Item],
        stack: &[u16],
        weights: &mut [W],
    ) -> Result<(), Refusal>
        ensures { AddAnswered W.Weight lits.now claim (lent sheet.old row.now stack.now weights.old self.old.marks self.old.counts) (lent sheet.new row.now stack.now weights.new self.new.marks self.new.counts) result }
    {
        holds_together(
            Phase::Gathering,
            Buffers {
                sheet,
                row,
                stack,
                weights,
                marks: self.marks,
                counts: self.counts,
            },
        )?;
        if let Some(place) = first_bad(lits, self.counts.callers) {
            return Err(Refusal::BadLiteral(place));
        }
        let flags = Flags::of(lits);
        if flags.is_tautology() {
            return Ok(());
        }
        let fill = self.marks.sheet;
        match claim {
            Claim::Hard => {
                self.marks.sheet = store(&flags, Tag::Hard, sheet, fill)?;
            }
            Claim::Soft(w) => {
                let softs = self.counts.softs;
                soft_fits(w, softs, weights)?;
                self.marks.sheet = store(&flags, Tag::Soft(softs as u16), sheet, fill)?;
                weights[softs] = w;
                self.counts.softs = softs + 1;
            }
        }
        Ok(())
    }

    pub fn add<W: Weight>(
        &mut self,
        lits: &[i32],
        claim: Claim<W>,
        sheet: &mut [u16],
        row: &[Item],
        stack: &[u16],
        weights: &mut [W],
    ) -> Result<(), Refusal>
        ensures answer { AddAnswered W.Weight lits.now claim (lent sheet.old row.now stack.now weights.old self.old.marks self.old.counts) (lent sheet.new row.now stack.now weights.new self.new.marks self.new.counts) result }
        ensures faithful { AddFaithful W.Weight lits.now claim (lent sheet.old row.now stack.now weights.old self.old.marks self.old.counts) (lent sheet.new row.now stack.now weights.new self.new.marks self.new.counts) result }
    {
        self.take(lits, claim, sheet, row, stack, weights)
    }
}
