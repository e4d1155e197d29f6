// Why a text gives no command.
use std::alloc::AllocError;
use std::num::ParseIntError;

#[derive(Drop)]
pub(crate) enum Unread {
    // it is the text of none
    NoCommand,
    Memory(AllocError),
}

impl From<AllocError> for Unread {
    fn from(error: AllocError) -> Unread {
        Unread::Memory(error)
    }
}

impl From<ParseIntError> for Unread {
    fn from(_error: ParseIntError) -> Unread {
        Unread::NoCommand
    }
}
