// The labels that a search looks at, and the search for one that another covers.
ghost use Rattle.std.specs.Prelude.{◌≡◌, ◌≤◌, true, length};
ghost use Rattle.covering.specs.Labels.{Weighed, Weighed-prop};
ghost use Rattle.sheet.specs.declared.clause.Tag.TheVariants.{Working};
ghost use Rattle.sheet.specs.Rows.{item_at};
ghost use Rattle.steps.specs.Covering.{covers as covering, is_covered, label_weight, stands};
ghost use Rattle.steps.specs.Places.{every, lowest_item, nameable as named};
ghost use Rattle.steps.specs.Rewriting.{is_payable, payable_at};

use rewriting::nameable;
use sheet::buffers::Buffers;
use sheet::clauses::Clauses;
use sheet::literal::has_literal;
use sheet::row::{Item, Standing};
use weight::Weight;

fn is_payable(standing: Standing) -> bool
    ensures { result ≡ is_payable standing }
{
    matches!(standing, Standing::Label)
}

// Whether these literals have m if they have l.
fn has_both(lits: &[u16], l: u16, m: u16) -> bool
    ensures { result ≡ stands l m (record { tag = Working; lits = lits.now }) }
{
    !has_literal(lits, l) || has_literal(lits, m)
}

// Whether m stands in every clause with l. Not inlined: its loop over the clauses then has the registers to itself.
#[inline(never)]
fn stands_by(clauses: &Clauses<'_>, l: u16, m: u16) -> bool
    ensures { result ≡ every (stands l m) clauses.now }
{
    clauses.iter().all(|clause| has_both(clause.lits, l, m))
}

// What a search for labels looks at.
#[derive(Drop)]
pub(crate) struct Labels<'a, W> {
    pub clauses: Clauses<'a>,
    pub row: &'a [Item],
    pub weights: &'a [W],
    // each label has one of the weights
    ghost weighed: { Weighed row.now weights.now } by { Weighed-prop row.now weights.now },
}

impl<'a, W: Weight> Labels<'a, W> {
    ghost use Rattle.covering.specs.Labels.{NoneBelow, sighted};
    ghost use Rattle.covering.specs.Sights.{in_sight};
    ghost use Rattle.sheet.specs.Lending.{lent_in};
    ghost use Rattle.sheet.specs.Together.{HoldsTogether};
    ghost use Rattle.sheet.specs.declared.buffers.Phase.TheVariants.{Working as at_work};

    // Those in buffers that hold together.
    pub(crate) fn of(buffers: Buffers<'a, W>) -> Labels<'a, W>
        requires { HoldsTogether W.Weight at_work (lent_in buffers) }
        ensures { in_sight W.Weight result ≡ sighted W.Weight (lent_in buffers.entry) }
    {
        Labels {
            clauses: buffers.clauses(),
            row: buffers.items(),
            weights: &buffers.weights[..buffers.counts.softs],
        }
    }

    // Item i of the row.
    #[tactic(auto, using(rewriting::proofs::Rows::item_is))]
    fn item(&self, i: u16) -> Item
        requires low { 1 ≤ i }
        requires high { i ≤ length self.now.row.now }
        ensures { result ≡ item_at self.now.row.now i }
    {
        self.row[usize::from(i) - 1]
    }

    // Whether the item is a live label.
    fn is_label(&self, i: u16) -> bool
        requires low { 1 ≤ i }
        requires high { i ≤ length self.now.row.now }
        ensures { result ≡ payable_at self.now.row.now i }
    {
        is_payable(self.item(i).standing)
    }

    // The weight of a live label.
    fn weight_of(&self, i: u16) -> W
        requires low { 1 ≤ i }
        requires high { i ≤ length self.now.row.now }
        requires label { payable_at self.now.row.now i ≡ true }
        ensures { W.Weight.value result ≡ label_weight W.Weight.kind (in_sight W.Weight self.now) i }
    {
        self.weights[usize::from(self.item(i).ordinal)]
    }

    // Whether m is another live label, no dearer, in every clause with the live label l.
    fn covers(&self, l: u16, m: u16) -> bool
        requires low { 1 ≤ l }
        requires high { l ≤ length self.now.row.now }
        requires label { payable_at self.now.row.now l ≡ true }
        requires other_low { 1 ≤ m }
        requires other_high { m ≤ length self.now.row.now }
        ensures { result ≡ covering W.Weight.kind (in_sight W.Weight self.now) l m }
    {
        self.is_label(m)
            && m != l
            && self.weight_of(m).at_most(&self.weight_of(l))
            && stands_by(&self.clauses, l, m)
    }

    // The lowest live label that another covers, looked for from one on below which there is none.
    pub(crate) fn first_covered(&self, from: u16) -> Option<u16>
        requires from { 1 ≤ from }
        requires none { NoneBelow (is_covered W.Weight.kind (in_sight W.Weight self.now)) from }
        ensures { result ≡ lowest_item (is_covered W.Weight.kind (in_sight W.Weight self.now)) 1 (named (length self.now.row.now)) }
    {
        let end = nameable(self.row.len()) + 1;
        let mut found = None;
        'search: for l in from..end {
            if self.is_label(l) {
                'other: for m in 1..end {
                    if self.covers(l, m) {
                        found = Some(l);
                        break 'search;
                    }
                }
            }
        }
        found
    }
}
