// The refusals: one for each row of docs/refusals.txt, by its name there.
ghost use Rattle.std.specs.Prelude.{◌≡◌};
ghost use Rattle.tables.specs.Refusals.{refusal_number};

// The refusals stand in the checking order, and compare by it: of two, the smaller one is that of the check which
// is made first.
#[derive(Clone, Copy, PartialEq, Eq, PartialOrd, Ord, Debug)]
pub enum Refusal {
    TableTooShort,
    ProcessesOutOfRange,
    TooManyMessages,
    WrongLength,
    CountOutOfRange,
    UnknownProcessInMessage,
    MessageToItsSender,
    SendNumberTooHigh,
    ReceiptNumberTooHigh,
    ChannelOutOfOrder,
    UnknownProcess,
    SendToItself,
    TooManySets,
    UnknownProcessInSet,
    WrongCeilingCount,
    CeilingTooHigh,
    UnequalLists,
    BadNamedProcess,
    NamedStateTooHigh,
    BadList,
    MessagePassedOver,
    TableFull,
    MarksTooShort,
    ScratchTooShort,
    AnswerTooShort,
}

// The number by which callers know a refusal.
impl From<Refusal> for u32 {
    ghost from_gives = { λ refusal number. number ≡ refusal_number refusal };

    fn from(refusal: Refusal) -> u32 {
        match refusal {
            Refusal::TableTooShort => 1,
            Refusal::ProcessesOutOfRange => 2,
            Refusal::TooManyMessages => 3,
            Refusal::WrongLength => 4,
            Refusal::CountOutOfRange => 5,
            Refusal::UnknownProcessInMessage => 6,
            Refusal::MessageToItsSender => 7,
            Refusal::SendNumberTooHigh => 8,
            Refusal::ReceiptNumberTooHigh => 9,
            Refusal::ChannelOutOfOrder => 23,
            Refusal::UnknownProcess => 10,
            Refusal::SendToItself => 11,
            Refusal::TooManySets => 25,
            Refusal::UnknownProcessInSet => 12,
            Refusal::WrongCeilingCount => 17,
            Refusal::CeilingTooHigh => 18,
            Refusal::UnequalLists => 20,
            Refusal::BadNamedProcess => 21,
            Refusal::NamedStateTooHigh => 22,
            Refusal::BadList => 13,
            Refusal::MessagePassedOver => 24,
            Refusal::TableFull => 14,
            Refusal::MarksTooShort => 19,
            Refusal::ScratchTooShort => 15,
            Refusal::AnswerTooShort => 16,
        }
    }
}
