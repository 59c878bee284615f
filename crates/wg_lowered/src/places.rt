use wg_words::Words;

/// What a computed index reaches into: the lane's own registers, or the groupshared words.
#[derive(Clone, Copy, Debug, PartialEq, Eq)]
pub enum Space {
    Own,
    Group,
}

/// Where code leaves the words of a value: in registers one after another from one on, in these registers in order, or one
/// after another from a word on that a register counts from the start of a range; outside the range they are zeros.
#[derive(Debug, Drop)]
pub enum Where {
    Fixed {
        at: u32,
    },
    Held {
        registers: Words,
    },
    Ranged {
        space: Space,
        from: u32,
        to: u32,
        index: u32,
    },
}
