// Why a call is refused, and document 01's number for it.
#![tactic(auto)]

ghost use Rattle.std.specs.Prelude.{◌≡◌};
ghost use Rattle.refusals.specs.Numbers.{number, answered};

// What a call is refused for.
#[derive(Clone, Copy, PartialEq, Eq)]
pub enum Refusal {
    // The block is not good.
    Block,
    // Flags, a flag, a node or a wish that may not be asked for.
    Tag,
    // The alignment is no power of two.
    Alignment,
    // A search for no addresses.
    Size,
    // No eligible or free address.
    Nowhere,
    // The finished list has more records than its table has room for.
    Full,
    // The direction is above 1.
    Direction,
    // The slip is not 16 bytes.
    Slip,
    // The report has another length.
    Report,
    // The tree has not the form, or not the values.
    Tree,
    // An address to be freed is not taken.
    NotTaken,
    // A line of the plan is at fault.
    Line,
    // The plan has more lines than it may have.
    Lines,
}

impl From<Refusal> for u32 {
    ghost from_gives = { λ r n. n ≡ number r };

    fn from(refusal: Refusal) -> u32 {
        match refusal {
            Refusal::Block => 1,
            Refusal::Tag => 2,
            Refusal::Alignment => 3,
            Refusal::Size => 4,
            Refusal::Nowhere => 5,
            Refusal::Full => 6,
            Refusal::Direction => 7,
            Refusal::Slip => 8,
            Refusal::Report => 10,
            Refusal::Tree => 11,
            Refusal::NotTaken => 12,
            Refusal::Line => 13,
            Refusal::Lines => 14,
        }
    }
}

// The number that boot code gets: 0 for done, else the refusal's.
pub fn answered(answer: Result<(), Refusal>) -> u32
    ensures { result ≡ answered answer }
{
    match answer {
        Ok(()) => 0,
        Err(refusal) => refusal.into(),
    }
}
