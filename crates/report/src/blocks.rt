// The blocks that a read laid down.
ghost use Rattle.std.specs.Prelude.{◌≡◌, ◌+◌, ◌*◌, ◌<◌, get_or};
ghost use Rattle.text.specs.Pens.{written};
ghost use Rattle.report.specs.Report.{bytes_text, block_line, blocks_text};

use text::pen::Pen;

// Byte k of block i. A block past the buffer is told before its place is computed, which might not fit.
fn block_byte(buffer: &[u8], i: usize, k: usize) -> u8
    requires { k < 512 }
    ensures { result ≡ get_or buffer.now (512 * i + k) 0 }
{
    if buffer.len() / 512 < i {
        return 0;
    }
    let at = 512 * i + k;
    // not `get`, as in reader
    if at < buffer.len() {
        return buffer[at];
    }
    0
}

// The bytes of block i, two digits each.
#[tactic(auto, using(text::proofs::Pens::writing, crate::proofs::Lines::more))]
fn put_bytes(pen: &mut Pen<'_>, buffer: &[u8], i: usize)
    ensures { pen.new ≡ written (bytes_text 512 (512 * i) buffer.now) pen.old }
{
    for k in 0..512 {
        pen.put_hex(2, block_byte(buffer, i, k) as u64);
    }
}

fn put_block(pen: &mut Pen<'_>, buffer: &[u8], i: usize)
    ensures { pen.new ≡ written (block_line i buffer.now) pen.old }
{
    pen.put(b"block ");
    put_bytes(pen, buffer, i);
    pen.put_byte(b'\n');
}

// The first n blocks of the buffer.
#[tactic(auto, using(text::proofs::Pens::writing, crate::proofs::Lines::more))]
pub fn put_blocks(pen: &mut Pen<'_>, buffer: &[u8], n: usize)
    ensures { pen.new ≡ written (blocks_text n buffer.now) pen.old }
{
    for i in 0..n {
        put_block(pen, buffer, i);
    }
}
