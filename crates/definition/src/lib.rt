// The values that the public calls are given and answer. A call answers a `Result`: its value, or the `Refusal` that
// applies. What they mean is in specs/: `Answers` has the number of each refusal, and what each answer says.
#![tactic(auto)]

// The record of a sheet, passed by value: the side, the dots made, and the knit of the cloth, 0 for plain and 1 for
// ribbed (S 2.8).
#[derive(Clone, Copy)]
pub struct Progress {
    pub side: u32,
    pub dots: u32,
    pub knit: u32,
}

// Why a call says no, with the number of each refusal (S 5.1).
#[derive(Clone, Copy, PartialEq, Eq)]
pub enum Refusal {
    SideUnknown = 1,
    GreysShort = 2,
    PyramidShort = 3,
    SheetShort = 4,
    SheetUnsound = 5,
    BlockUnknown = 6,
    TextMalformed = 7,
    OutputShort = 8,
    InputLong = 9,
    NameUnknown = 10,
    KnitUnknown = 11,
    GreyHigh = 12,
    PairFalls = 13,
    SideSmall = 14,
}

// What Advance says in the end.
#[derive(Clone, Copy, PartialEq, Eq)]
pub enum AdvanceStatus {
    Finished,
    More,
}

// Advance: the new record, the dots made in this call, and what it says (S 7.3).
#[derive(Clone, Copy)]
pub struct AdvanceAnswer {
    pub progress: Progress,
    pub made: u32,
    pub status: AdvanceStatus,
}

// Compare: how the left of two plates stands to the right one. Where they have as many holes, with the row and column
// of the first cell at which they differ (S 11.1).
#[derive(Clone, Copy, PartialEq, Eq)]
pub enum CompareAnswer {
    Before,
    BeforeAt(u32, u32),
    Same,
    AfterAt(u32, u32),
    After,
}

// The dots kept under the names 1 to 8, place by place: 0 while a name is empty, else 1 more than its dots. So with
// eight zeros all names are empty, and a name under which 0 dots are kept is not (S 2.11).
#[derive(Clone, Copy)]
pub struct Checkpoints {
    pub kept: [u64; 8],
}

// Sketch Quote: the side that was read, the least total and the greatest (S 9.4).
#[derive(Clone, Copy)]
pub struct SketchAnswer {
    pub side: u32,
    pub least: u32,
    pub greatest: u32,
}

// Two Heads: the record, the holes made and the debt that is left, which may end on either side of 0 (S 13.5).
#[derive(Clone, Copy)]
pub struct TwoHeadsAnswer {
    pub progress: Progress,
    pub made: u32,
    pub debt: i64,
}
