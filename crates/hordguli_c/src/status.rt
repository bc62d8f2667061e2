//! The statuses that the functions return.
ghost use Rattle.std.specs.Prelude.{◌≡◌, ◌≤◌};
ghost use Rattle.hordguli_c.specs.Statuses.{advance_status, edit_status, status_of};

use session::{AdvanceFault, EditFault};

/// The result of a call. The numbers are defined in include/hordguli.h, and never change.
#[derive(Clone, Copy)]
pub enum Status {
    Ok = 0,
    OutOfRange = 1,
    WidthOutOfRange = 2,
    TextTooLong = 3,
    ParagraphTooLong = 4,
    NoMemory = 5,
    TableFault = 6,
    NotUtf8 = 7,
    NotACharacter = 8,
    Closed = 9,
    AlreadyOpen = 10,
    UnknownOption = 11,
    NoRoom = 12,
    // Only hordguli.c returns 13 to 15.
    NotMeasured = 16,
}

/// Returns the number that represents a status in C.
#[tactic(auto, unfolding(crate::specs::Statuses::status_of))]
pub fn number_of(status: Status) -> u32
    ensures status { status_of result ≡ status }
    ensures within { result ≤ 16 }
{
    status as u32
}

/// Returns the status for an `EditFault`.
pub fn edit_status(fault: EditFault) -> Status
    ensures { result ≡ edit_status fault }
{
    match fault {
        EditFault::OutOfRange => Status::OutOfRange,
        EditFault::WidthOutOfRange => Status::WidthOutOfRange,
        EditFault::TextTooLong => Status::TextTooLong,
        EditFault::ParagraphTooLong => Status::ParagraphTooLong,
        EditFault::NoMemory => Status::NoMemory,
    }
}

/// Returns the status for an `AdvanceFault`.
pub fn advance_status(fault: AdvanceFault) -> Status
    ensures { result ≡ advance_status fault }
{
    match fault {
        AdvanceFault::NotMeasured => Status::NotMeasured,
        AdvanceFault::OutOfRange => Status::OutOfRange,
        AdvanceFault::WidthOutOfRange => Status::WidthOutOfRange,
        AdvanceFault::ParagraphTooLong => Status::ParagraphTooLong,
        AdvanceFault::NoMemory => Status::NoMemory,
    }
}
