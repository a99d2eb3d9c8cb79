// The garage: level 2 in Harbour Street, its bays, permit holders, rules and wishes, and two plans for this morning.
// That a holder parks in a bay is an item: 1 to 4 for the first holder in bays 1 to 4, 5 to 8 for the second, and so on.
// Item 13 is that the overflow level is opened, which no plan here does.
// A literal is the number of an item, or minus that number, which denies the item.
use std::fmt;

#[derive(Clone, Copy)]
pub struct Bay {
    pub number: u32,
    pub place: &'static str,
}

#[derive(Clone, Copy)]
pub struct Holder {
    pub name: &'static str,
    pub note: &'static str,
}

// A plan keeps a wish in which one of the literals is true.
#[derive(Clone, Copy)]
pub struct Wish {
    pub text: &'static str,
    pub literals: &'static [i32],
    pub points: u64,
    pub above: u64,
    pub below: u64,
}

// What every plan has to keep.
#[derive(Clone, Copy)]
pub struct Rule {
    pub text: &'static str,
    pub literals: &'static [i32],
}

#[derive(Clone, Copy)]
pub struct Plan {
    pub name: &'static str,
    // the bay of each holder, in the order of HOLDERS
    pub bays: [u32; 3],
}

// Who parks where.
impl fmt::Display for Plan {
    fn fmt<W: fmt::Write>(&self, f: &mut fmt::Formatter<W>) -> fmt::Result {
        for (i, (holder, bay)) in HOLDERS.iter().zip(&self.bays).enumerate() {
            if i > 0 {
                f.write_str(", ")?;
            }
            write!(f, "{} in bay {bay}", holder.name)?;
        }
        Ok(())
    }
}

pub static BAYS: [Bay; 4] = [
    Bay {
        number: 1,
        place: "by the lift",
    },
    Bay {
        number: 2,
        place: "by the lift",
    },
    Bay {
        number: 3,
        place: "with the charger",
    },
    Bay {
        number: 4,
        place: "by the exit",
    },
];

pub static HOLDERS: [Holder; 3] = [
    Holder {
        name: "Ada",
        note: "has a wheelchair permit",
    },
    Holder {
        name: "Ben",
        note: "drives an electric car, on a charging contract",
    },
    Holder {
        name: "Cleo",
        note: "works the early shift",
    },
];

pub const ITEMS: u64 = 13;

pub static RULES: [Rule; 18] = [
    Rule {
        text: "Ada parks here or on the overflow",
        literals: &[1, 2, 3, 4, 13],
    },
    Rule {
        text: "Ben parks here or on the overflow",
        literals: &[5, 6, 7, 8, 13],
    },
    Rule {
        text: "Cleo parks here or on the overflow",
        literals: &[9, 10, 11, 12, 13],
    },
    Rule {
        text: "Ada and Ben do not share bay 1",
        literals: &[-1, -5],
    },
    Rule {
        text: "Ada and Cleo do not share bay 1",
        literals: &[-1, -9],
    },
    Rule {
        text: "Ben and Cleo do not share bay 1",
        literals: &[-5, -9],
    },
    Rule {
        text: "Ada and Ben do not share bay 2",
        literals: &[-2, -6],
    },
    Rule {
        text: "Ada and Cleo do not share bay 2",
        literals: &[-2, -10],
    },
    Rule {
        text: "Ben and Cleo do not share bay 2",
        literals: &[-6, -10],
    },
    Rule {
        text: "Ada and Ben do not share bay 3",
        literals: &[-3, -7],
    },
    Rule {
        text: "Ada and Cleo do not share bay 3",
        literals: &[-3, -11],
    },
    Rule {
        text: "Ben and Cleo do not share bay 3",
        literals: &[-7, -11],
    },
    Rule {
        text: "Ada and Ben do not share bay 4",
        literals: &[-4, -8],
    },
    Rule {
        text: "Ada and Cleo do not share bay 4",
        literals: &[-4, -12],
    },
    Rule {
        text: "Ben and Cleo do not share bay 4",
        literals: &[-8, -12],
    },
    Rule {
        text: "Ada cannot use bay 3 this morning",
        literals: &[-3],
    },
    Rule {
        text: "Ben cannot use bay 3 this morning",
        literals: &[-7],
    },
    Rule {
        text: "Cleo cannot use bay 3 this morning",
        literals: &[-11],
    },
];

// Whoever takes bay 1 breaks one of the wishes for visitors, so no plan without the charger keeps all the others.
pub static WISHES: [Wish; 8] = [
    Wish {
        text: "Ben parks at the charger",
        literals: &[7],
        points: 16_777_216,
        above: 1,
        below: 0,
    },
    Wish {
        text: "Ada parks by the lift",
        literals: &[1, 2],
        points: 5,
        above: 0,
        below: 5,
    },
    Wish {
        text: "Cleo parks by the exit",
        literals: &[12],
        points: 1,
        above: 0,
        below: 1,
    },
    Wish {
        text: "Ben leaves bay 1 to visitors",
        literals: &[-5],
        points: 1,
        above: 0,
        below: 1,
    },
    Wish {
        text: "Cleo leaves bay 1 to visitors",
        literals: &[-9],
        points: 1,
        above: 0,
        below: 1,
    },
    Wish {
        text: "Ben keeps away from the exit",
        literals: &[-8],
        points: 1,
        above: 0,
        below: 1,
    },
    Wish {
        text: "Ada leaves bay 1 to visitors",
        literals: &[-1],
        points: 1,
        above: 0,
        below: 1,
    },
    Wish {
        text: "The overflow stays closed",
        literals: &[-13],
        points: 3,
        above: 0,
        below: 3,
    },
];

// Two slips of the pen: a bay that the garage does not have, and a wish that cannot be broken.
pub static SLIPS: [Wish; 2] = [
    Wish {
        text: "Cleo parks on the roof",
        literals: &[14],
        points: 1,
        above: 0,
        below: 1,
    },
    Wish {
        text: "Ben parks in bay 2 or does not",
        literals: &[6, -6],
        points: 1,
        above: 0,
        below: 1,
    },
];

pub static NORTH: Plan = Plan {
    name: "North",
    bays: [1, 2, 4],
};

pub static SOUTH: Plan = Plan {
    name: "South",
    bays: [2, 4, 1],
};
