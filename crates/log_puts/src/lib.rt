// The fields of puts, written into a lent buffer.
#![tactic(auto)]

ghost use Rattle.std.specs.Prelude.{◌≡◌, ◌+◌, ◌*◌, ◌<◌, ◌≤◌, length};
ghost use Rattle.model.specs.Limits.{last_block, most_initial_puts};
ghost use Rattle.file_format.specs.File.{put_length, end_length, head_length, narrow_write_length};
ghost use Rattle.file_format.specs.Bytes.{block_length};
ghost use Rattle.file_writing.specs.Writing.{Wrote};
ghost use Rattle.log_puts.specs.Fields.{put_field, put_fields, program_fields, end_fields};

use file_format::Kind;

// A write's field with a tag and a name of one byte.
fn put_write(
    out: &mut [u8],
    at: usize,
    tag: u8,
    address: u8,
    name: u8,
    epoch: u32,
    block: u32,
) -> usize
    requires { at + (head_length + narrow_write_length) ≤ length out.old }
    ensures { Wrote out.old at (put_field tag address name epoch block) out.new result × (result ≡ at + (head_length + narrow_write_length)) }
{
    let head = [tag, 0, file_format::NARROW_WRITE_LENGTH_BYTE, address, name];
    let next = file_writing::put_bytes(out, at, &head);
    let next = file_writing::put_word(out, next, epoch);
    file_writing::put_word(out, next, block)
}

// A put of a block at tail: the block, then the superblock.
fn put_put(out: &mut [u8], at: usize, tag: u8, tail: u8, epoch: u32, block: u32) -> usize
    requires { (at + put_length ≤ length out.old) × (tail < last_block) }
    ensures { Wrote out.old at (put_fields tag tail epoch block) out.new result × (result ≡ at + put_length) }
{
    let next = put_write(out, at, tag, tail, 1, epoch, block);
    put_write(out, next, tag, 0, 2, epoch, 65537 + u32::from(tail))
}

// The first n puts of a program, for a log with this tail and epoch, as writes with this tag.
pub fn put_program(
    out: &mut [u8],
    from: usize,
    tag: u8,
    program: &[u8],
    n: usize,
    tail: u8,
    epoch: u32,
) -> usize
    requires { (block_length * n ≤ length program.now) × ((from + put_length * n ≤ length out.old) × ((n ≤ most_initial_puts) × ((tail ≤ most_initial_puts + 1) × (epoch ≤ most_initial_puts)))) }
    ensures { Wrote out.old from (program_fields tag tail epoch program.now n) out.new result × (result ≡ from + put_length * n) }
{
    let mut at = from;
    for i in 0..n {
        let b = file_format::word_at(program, file_format::BLOCK_LENGTH * i);
        at = put_put(out, at, tag, tail + (i as u8), epoch + (i as u32), b);
    }
    at
}

// A range check at 0 and the end of the test.
pub fn put_end(out: &mut [u8], at: usize) -> usize
    requires { at + end_length ≤ length out.old }
    ensures { Wrote out.old at end_fields out.new result × (result ≡ at + end_length) }
{
    let range = [Kind::Range as u8, 0, file_format::ADDRESS_LENGTH as u8, 0];
    let next = file_writing::put_bytes(out, at, &range);
    file_writing::put_bytes(out, next, &[Kind::End as u8, 0, 0])
}
