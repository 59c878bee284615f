use wg_words::Place;

/// A rule of types; each has a number.
#[derive(Clone, Copy, Debug, PartialEq, Eq)]
pub enum TypingRule {
    UnknownName,
    Repeated,
    Mismatch,
    NotAssignable,
    Recursion,
    LimitPassed,
    BadBarrier,
    BadOutputCall,
    NotCompleted,
    WrongArity,
    OutOfProfile,
}

/// A rule of attributes; each has a number.
#[derive(Clone, Copy, Debug, PartialEq, Eq)]
pub enum AttributeRule {
    Unknown,
    Missing,
    Twice,
    Range,
    WrongMode,
}

/// A broken rule, by its number, at a place.
#[derive(Clone, Copy, Debug, PartialEq, Eq)]
pub struct Fault {
    pub rule: u32,
    pub place: Place,
}
