//! What the turns of a board did. No value of these types is made: they are what a proof knows.
use std::collections::LinkedList;

/// One call of a turn, as its record has it.
pub enum Entry<T> {
    /// A claim: the number drawn, and `own`, the least that the turn had reported before (the greatest `u64` where it had reported nothing).
    Draw(u32, u64),
    /// A finish: the number, its piece, the report, the answer, and `last`, the greatest number that the turn had drawn before
    /// (the number of pieces where it had been told that none is left).
    Finish(u32, T, u64, u64, u32),
    /// A look: the answer, and `last`, as in a finish.
    Look(u64, u32),
    /// The turn was told that no piece is left.
    NoneLeft,
}

/// The calls of one turn, in their order.
pub struct Record<T> {
    /// The turn's number.
    pub turn: u32,
    pub entries: LinkedList<Entry<T>>,
}

/// What a seat at the board's table knows.
pub struct View<T> {
    /// The records of the turns that the seat stands for.
    pub records: LinkedList<Record<T>>,
    /// How often the view may still be told that no piece is left.
    pub leave: u32,
    /// How many slots have got their first piece.
    pub filled: u32,
    /// How many turns the view has made.
    pub made: u32,
    /// Whether the view is filling a slot.
    pub filling: bool,
    /// The pieces with which the board was started.
    pub given: LinkedList<T>,
}
