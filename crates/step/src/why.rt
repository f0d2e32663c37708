// How a part of a call goes on after an answer, and why it is refused.
use types::error::Error;

// An error of the driver, or that no word will come.
#[derive(Clone, Copy)]
pub enum Why {
    Failed(Error),
    NoWord,
}

// A part of a call after an answer: it goes on as S, or is over and has given a T, or is refused.
#[derive(Clone, Copy)]
pub enum Step<S, T> {
    On(S),
    Over(Result<T, Why>),
}
