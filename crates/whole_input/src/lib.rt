// Reads an input into a buffer: as much of it as the buffer has room for, or all of it.
#![tactic(auto)]

ghost use Rattle.std.specs.Prelude.{IfOk, IfSome, OnOk, ◌≡◌, ◌≤◌, length, take};
ghost use Rattle.std.specs.Io.KnownBytes.{Consumes};

use std::io;
use std::io::Read;

// Reads until the buffer is full, the input ends or a read fails, by a signal too: `len` is how many bytes it put
// at the front of the buffer. A read that failed is answered by its error.
pub fn read_front<R: Read>(input: &mut R, buffer: &mut [u8], len: &mut usize) -> io::Result<()>
    ensures within { len.new ≤ length buffer.new }
    ensures front { OnOk result (IfSome (R.remaining input.old)
        (λ bytes. take len.new buffer.new ≡ take (length buffer.new) bytes)) }
    ensures rest { OnOk result
        (Consumes (R.remaining input.old) (R.remaining input.new) (take len.new buffer.new)) }
{
    *len = 0;
    // No method of `Read` does this: `read_exact` refuses a shorter input, and `read_to_end` asks for a heap.
    while *len < buffer.len() {
        let count = input.read(&mut buffer[*len..])?;
        if count == 0 {
            return Ok(());
        }
        *len += count;
    }
    Ok(())
}

// The same, where what was read before a read that failed is of no use: how many bytes it put.
pub fn read_into<R: Read>(input: &mut R, buffer: &mut [u8]) -> io::Result<usize>
    ensures within { IfOk result (λ len. len ≤ length buffer.new) }
    ensures front { IfOk result (λ len. IfSome (R.remaining input.old)
        (λ bytes. take len buffer.new ≡ take (length buffer.new) bytes)) }
    ensures rest { IfOk result (λ len.
        Consumes (R.remaining input.old) (R.remaining input.new) (take len buffer.new)) }
{
    let mut len = 0;
    read_front(input, buffer, &mut len)?;
    Ok(len)
}
