// What a status word has, by the table's lines in their order.
ghost use Rattle.std.specs.Prelude.{◌≡◌, false};
ghost use Rattle.text.specs.Pens.{written};
ghost use Rattle.events.specs.Meaning.{says, joint, flags, flags_text};
ghost use Rattle.events.specs.Flags.{lines_of};

use tape::script::Sta;
use text::pen::Pen;
use types::status::DataFault;

// A line of the table: some bits, and what is said of a word that has one of them.
#[derive(Clone, Copy)]
struct Flag {
    mask: u32,
    text: &'static [u8],
}

#[derive(Clone, Copy)]
pub struct Flags {}

impl Flags {
    // Lines of the table.
    pub const LINES: usize = 12;
    // A response came, and its checksum matches.
    pub const RESPONSE: u32 = 0x40;
}

const TABLE: [Flag; Flags::LINES] = [
    Flag {
        mask: Sta::TIMED_OUT,
        text: b"no response in time",
    },
    Flag {
        mask: Sta::CRC_FAILED,
        text: b"response whose checksum does not match",
    },
    Flag {
        mask: Flags::RESPONSE,
        text: b"response came",
    },
    Flag {
        mask: Sta::SENT,
        text: b"command sent",
    },
    Flag {
        mask: DataFault::TIMEOUT,
        text: b"data not in time",
    },
    Flag {
        mask: DataFault::CRC,
        text: b"data whose checksum does not match",
    },
    Flag {
        mask: DataFault::OVERRUN,
        text: b"data came faster than it was taken",
    },
    Flag {
        mask: DataFault::UNDERRUN,
        text: b"data to send was not there in time",
    },
    Flag {
        mask: DataFault::START_BIT,
        text: b"no start bit on a data line",
    },
    Flag {
        mask: Sta::DATA_ENDED,
        text: b"all data transferred",
    },
    Flag {
        mask: Sta::COMMAND,
        text: b"command under way",
    },
    Flag {
        mask: Sta::TRANSFER,
        text: b"data under way",
    },
];

// What stands between two of them.
fn put_joint(pen: &mut Pen<'_>, said: bool)
    ensures { pen.new ≡ written (joint said) pen.old }
{
    if said {
        pen.put(b", ");
    }
}

// What the word has of a table's lines, or that it has none.
fn put_lines(pen: &mut Pen<'_>, table: &[Flag], status: u32)
    ensures { pen.new ≡ written (flags_text false (lines_of table.now) status) pen.old }
{
    let mut said = false;
    for flag in table {
        if status & flag.mask != 0 {
            put_joint(pen, said);
            pen.put(flag.text);
            said = true;
        }
    }
    if !said {
        pen.put(b"idle");
    }
}

pub fn put_flags(pen: &mut Pen<'_>, status: u32)
    ensures { pen.new ≡ written (says (flags_text false flags status)) pen.old }
{
    pen.put(b"  ");
    put_lines(pen, &TABLE, status);
}
