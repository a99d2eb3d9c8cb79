// The row: a struct for each item (the field's variable), lent by the caller and changed in place.

// What an item is. Plain items and labels are live; the others are retired for good.
#[derive(Clone, Copy, Debug, PartialEq, Eq)]
pub enum Standing {
    Plain = 0,
    // an assumption label: it costs its weight when it is yes
    Label = 1,
    Fixed = 2,
    // a label that another one stands for
    Covered = 3,
    // a label that is paid in every answer
    Forced = 4,
}

#[derive(Clone, Copy, Debug, PartialEq, Eq)]
pub struct Item {
    pub standing: Standing,
    // of the soft clause whose label this is, or was; 0 for plain and fixed items
    pub ordinal: u16,
}

impl Item {
    // A live item that is no label.
    pub const PLAIN: Item = Item {
        standing: Standing::Plain,
        ordinal: 0,
    };
}
