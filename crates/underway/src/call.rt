// A call under way.
use host::host::Sdmmc;
use stepping::call::{At, Job, Known};
use tape::progress::Line;
use types::error::Answer;

// A call under way: what it goes by, which stays as it was begun; what the host holds of the line; the words that the call
// keeps; what it has come to know of the card; and where it stands.
#[derive(Clone, Copy)]
pub struct Call {
    pub job: Job,
    pub line: Line,
    pub held: [u32; 16],
    pub known: Known,
    pub at: At,
}

// What a call has come to: its answer and the next host, once it is over; until then the host is the one before it.
#[derive(Clone, Copy)]
pub struct Closed {
    pub outcome: Option<Answer>,
    pub host: Sdmmc,
}
