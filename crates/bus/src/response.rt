// The kinds of response, and what each asks of its command.
ghost use Rattle.std.specs.Prelude.{◌≡◌, true, false};
ghost use Rattle.bus.specs.Command.{form_of};

use tape::script::Sta;
use types::status::CardStatus;

#[derive(Clone, Copy)]
pub enum Response {
    None,
    R1,
    R2,
    R3,
    R6,
    R7,
}

// What a response asks of its command: the wait kind of the CMD row, the status bits that complete it, whether nothing
// is read, the status bit of a bad checksum, whether RESPCMD is read, and the card's error bits in the first word.
#[derive(Clone, Copy)]
pub struct Form {
    pub wait: u8,
    pub completion: u32,
    pub silent: bool,
    pub crc: u32,
    pub echoes: bool,
    pub errors: u32,
    pub locked: u32,
}

impl Form {
    // The wait kinds of the CMD row.
    pub const NO_WAIT: u8 = 0;

    pub const SHORT: u8 = 1;

    pub const LONG: u8 = 3;

    // A short response with checksum and index, and these error bits in its word.
    fn short(errors: u32, locked: u32) -> Form
        ensures { result ≡ record { wait = 1; completion = 0x41; silent = false; crc = 0x1; echoes = true; errors = errors; locked = locked } }
    {
        Form {
            wait: Form::SHORT,
            completion: Sta::RESPONDED,
            silent: false,
            crc: Sta::CRC_FAILED,
            echoes: true,
            errors: errors,
            locked: locked,
        }
    }
}

impl Response {
    pub fn form(self) -> Form
        ensures { result ≡ form_of self }
    {
        match self {
            Response::None => Form {
                wait: Form::NO_WAIT,
                completion: Sta::SENT,
                silent: true,
                crc: 0,
                echoes: false,
                errors: 0,
                locked: 0,
            },
            Response::R1 => Form::short(CardStatus::ERRORS, CardStatus::LOCKED),
            Response::R2 => Form {
                wait: Form::LONG,
                completion: Sta::RESPONDED,
                silent: false,
                crc: Sta::CRC_FAILED,
                echoes: false, // a long response does not tell the index
                errors: 0,
                locked: 0,
            },
            Response::R3 => Form {
                wait: Form::SHORT,
                completion: Sta::RESPONDED,
                silent: false,
                crc: 0, // its checksum is no checksum
                echoes: false,
                errors: 0,
                locked: 0,
            },
            Response::R6 => Form::short(CardStatus::R6_ERRORS, 0),
            Response::R7 => Form::short(0, 0),
        }
    }
}
