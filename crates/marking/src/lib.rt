// The literals of one clause as a table with a flag for each word, so that another clause is tested against them in one pass over its own literals.
#![tactic(auto)]

ghost use Rattle.std.specs.Prelude.{◌≡◌, ℕ, false, not, ◌&&◌, [], if◌then◌else◌, slice_index_or};
ghost use Rattle.marking.specs.Marks.{other_denied as denied};
ghost use Rattle.sheet.specs.Literals.{Rising, has as among};

use sheet::literal::opposite;
use std::marker::Model;

// A flag for each `u16`.
const FLAGS: usize = 65536;

// A contract sees the marked words, in ascending order.
#[derive(Drop)]
pub struct Marked {
    table: [bool; FLAGS],
}

impl Model for Marked {
    ghost use Rattle.std.specs.Prelude.{ℕ, List};
    ghost use Rattle.marking.specs.Marks.{flagged};

    ghost Value = { List ℕ };

    ghost view = { λ m. flagged m.table };
}

// Sets the flags of these literals.
#[tactic(auto, using(crate::proofs::Flags::set_more))]
fn set_all(table: &mut [bool; FLAGS], lits: &[u16], flag: bool)
    ensures { (w : ℕ) → slice_index_or table.new w false ≡ (if among w lits.now then flag else slice_index_or table.old w false) }
{
    for w in lits {
        table[usize::from(*w)] = flag;
    }
}

impl Marked {
    // No literal is marked.
    pub fn none() -> Self
        ensures { result ≡ [] }
    {
        Marked {
            table: [false; FLAGS],
        }
    }

    // Whether the literal is marked.
    #[tactic(auto, using(crate::proofs::Flags::has_flagged))]
    pub fn has(&self, w: u16) -> bool
        ensures { result ≡ among w self.now }
    {
        self.table[usize::from(w)]
    }

    // Whether `y` denies a marked literal other than `x`.
    #[tactic(auto, using(crate::proofs::Flags::other_denied_lem))]
    pub fn other_denied(&self, x: u16, y: u16) -> bool
        ensures { result ≡ denied x y self.now }
    {
        self.table[usize::from(opposite(y))] && y != opposite(x)
    }

    // Marks the literals of a clause.
    #[tactic(auto, using(crate::proofs::Flags::has_marked, crate::proofs::Flags::flagged_marked))]
    pub fn mark(&mut self, lits: &[u16])
        requires { self.old ≡ [] }
        ensures members { (w : ℕ) → among w self.new ≡ among w lits.now }
        ensures ascending { Rising lits.now → self.new ≡ lits.now }
    {
        set_all(&mut self.table, lits, true);
    }

    // Takes the flags of these literals away. That nothing may be left follows from this, and `unmark` says it.
    #[tactic(auto, using(crate::proofs::Flags::has_unmarked))]
    fn clear(&mut self, lits: &[u16])
        ensures { (w : ℕ) → among w self.new ≡ (among w self.old && not (among w lits.now)) }
    {
        set_all(&mut self.table, lits, false);
    }

    // Takes the marks of these literals away again.
    #[tactic(auto, using(crate::proofs::Flags::none_left))]
    pub fn unmark(&mut self, lits: &[u16])
        ensures members { (w : ℕ) → among w self.new ≡ (among w self.old && not (among w lits.now)) }
        ensures none { ((w : ℕ) → among w self.old ≡ among w lits.now) → self.new ≡ [] }
    {
        self.clear(lits);
    }
}
