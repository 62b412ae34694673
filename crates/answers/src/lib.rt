// What the calls answer: a result or a refusal, and 01's number for each.
#![tactic(auto)]

ghost use Rattle.std.specs.Prelude.{◌≡◌};
ghost use Rattle.answers.specs.Answer.{answer, number_of};
ghost use Rattle.answers.specs.declared.Refusal.TheVariants as refusals;

use store::Damaged;

pub mod judging;

// 01 "Who is refused, and how", and 02: the refusals, in the order of their numbers, 1 to 15. 9 comes with the length that is needed.
#[derive(Clone, Copy, Debug, PartialEq, Eq)]
pub enum Refusal {
    BeyondLimits,
    StoreTooShort,
    NoRegister,
    OffPanel,
    AlreadyMarked,
    Full,
    NotMarked,
    WindowReversed,
    OutputTooShort { needed: usize },
    NotAnImage,
    ImageUnlike,
    ImageDamaged,
    StoreDamaged,
    NotAscending,
    NoBudget,
}

// 01's number of a refusal.
impl From<Refusal> for u32 {
    ghost from_gives = { λ refusal number. number ≡ number_of refusal };

    fn from(refusal: Refusal) -> u32 {
        match refusal {
            Refusal::BeyondLimits => 1,
            Refusal::StoreTooShort => 2,
            Refusal::NoRegister => 3,
            Refusal::OffPanel => 4,
            Refusal::AlreadyMarked => 5,
            Refusal::Full => 6,
            Refusal::NotMarked => 7,
            Refusal::WindowReversed => 8,
            Refusal::OutputTooShort { .. } => 9,
            Refusal::NotAnImage => 10,
            Refusal::ImageUnlike => 11,
            Refusal::ImageDamaged => 12,
            Refusal::StoreDamaged => 13,
            Refusal::NotAscending => 14,
            Refusal::NoBudget => 15,
        }
    }
}

// Damage that a walk meets is refused.
impl From<Damaged> for Refusal {
    ghost from_gives = { λ _ refusal. refusal ≡ refusals.StoreDamaged };

    fn from(_damaged: Damaged) -> Refusal {
        Refusal::StoreDamaged
    }
}

// 01's number of what make, mark, clear, load and fill answer, 0 where the call was accepted.
pub fn refusal_of(done: Result<(), Refusal>) -> u32
    ensures { result ≡ (answer done).refusal }
{
    done.err().map_or(0, u32::from)
}

// What ask answers: whether a pixel is marked, the blocks opened, and 02, P8: the level and code of the smallest block that contains it.
#[derive(Clone, Copy)]
pub struct Place {
    pub marked: bool,
    pub opened: usize,
    pub level: u32,
    pub code: u32,
}

// What count and list answer: the pixels found, and the blocks opened.
#[derive(Clone, Copy)]
pub struct Found {
    pub found: u32,
    pub opened: u32,
}

// The pixel that a search found, and its squared distance.
#[derive(Clone, Copy)]
pub struct NearPixel {
    pub code: u32,
    pub distance: u64,
}

// What nearest answers, 02, P5: the nearest pixel found, if any, the blocks opened, the squared distance below which no marked pixel can be,
// and whether the search is complete.
#[derive(Clone, Copy)]
pub struct Nearest {
    pub pixel: Option<NearPixel>,
    pub opened: u32,
    pub limit: u64,
    pub complete: bool,
}
