// Staging: one section of an image replaced, and no second image. Here is what the view answers; specs/ says what it means.
#![tactic(auto)]

use eif::{DataLength, PLACES, Section, Verdict};

// The verdict on a base and the size of a replacement. Beside an acceptance: the base's flags, and its sections, of which the replaced one
// stands as if the replacement followed the base.
#[derive(Clone, Copy)]
pub struct Staged {
    pub verdict: Verdict,
    pub flags: u16,
    pub sections: [Section; PLACES],
}

// Where the data of a section lies: `in_replacement` is 1 where it is the replacement, whole, and 0 where it is a part of the base.
#[derive(Clone, Copy)]
pub struct StagedPart {
    pub verdict: Verdict,
    pub in_replacement: u8,
    pub start: u64,
    pub length: DataLength,
}
