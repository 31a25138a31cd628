// Runs the line by marking over the script on standard input and prints each line that asks for it, with
// the number returned, what stands at `written` afterwards (777 before the call), the answer's numbers or
// a checksum of them, the number of bytes at the front of the mark buffer that are 0, and `ok` where every
// other byte of the mark buffer and of the answer's buffer is as it was. The file stdout has what
// docs/MANUAL.md says of each.
//     marked COUNT LEN MARKS FILL C ...    the line under a list of COUNT ceilings, 64 at most: the numbers
//                         C, of which the last goes on to the end of a longer list; into a buffer of LEN
//                         bytes, 32,968 at most; with a mark buffer of MARKS bytes, 16,500 at most, each
//                         of which is FILL before the call
//     # TEXT              printed as it stands
// test_kit has the lines that build a table.
#![tactic(auto)]

ghost use Rattle.std.specs.Prelude.{◌≡◌, ◌+◌, ◌≤◌, length};
ghost use Rattle.test_kit.specs.Guards.{guards, most_room};

use std::io;
use std::io::Write;
use test_kit::guards::{GUARDS, MOST_ROOM, answer_end, is_guarded};
use test_kit::{
    SPACE, all_are, asked, build, comment, end, first, length_of, numbers, told, value, values_end,
    word,
};
use test_script::{Line, MOST_CEILINGS, extended, numbers_in, says};
use whole_input::read_into;

// The most bytes of a mark buffer that a line lends.
const MOST_MARKS: usize = 16500;

// Fills the mark buffer with one byte, and asks for the line by marking under the ceilings of a line.
fn marked_line(
    table: &[u8],
    line: &Line,
    before: u8,
    marks: &mut [u8],
    answer: &mut [u8],
    written: &mut usize,
) -> u32 {
    marks.fill(before);
    let ceilings: [u16; MOST_CEILINGS] = extended(line.behind(&line.smalls(), 4), 0);
    let count = line.size_up_to(0, MOST_CEILINGS);
    keeper::keeper_marked_line(table, &ceilings[..count], marks, answer, written)
}

// Prints what a call left in the guarded buffers, and `ok` if the rest of both is as it was: of the marks,
// which end at a place, what lies behind the zeros at their front.
fn show<W: Write>(
    out: &mut W,
    number: u32,
    written: usize,
    marks: &[u8],
    marks_end: usize,
    before: u8,
    space: &[u8; SPACE],
    room: usize,
) -> io::Result<()>
    requires guards_le_marks_end { guards ≤ marks_end }
    requires room_le_most_room { room ≤ most_room }
{
    let to = answer_end(number, written, room);
    let zeros_end = values_end(marks, GUARDS, marks_end, 0);
    told(out, number, written)?;
    numbers(out, &space[GUARDS..to])?;
    word(out, b" marks")?;
    value(out, (zeros_end - GUARDS) as u64)?;
    if is_guarded(space, GUARDS, to)
        && is_guarded(marks, GUARDS, marks_end)
        && all_are(marks, zeros_end, marks_end, before)
    {
        word(out, b" ok")?;
    }
    Ok(())
}

// Makes the call that a line asks for, with marks and a room inside the guarded buffers, and prints what
// it left.
fn call<W: Write>(
    out: &mut W,
    text: &[u8],
    table: &[u8],
    line: &Line,
    marks: &mut [u8; SPACE],
    space: &mut [u8; SPACE],
) -> io::Result<()> {
    let room = line.size_up_to(1, MOST_ROOM);
    let room_end = GUARDS + room;
    let marks_end = GUARDS + line.size_up_to(2, MOST_MARKS);
    let before = (line.size(3) % 256) as u8;
    let mut written: usize = 777;
    let number = marked_line(
        table,
        line,
        before,
        &mut marks[GUARDS..marks_end],
        &mut space[GUARDS..room_end],
        &mut written,
    );
    asked(out, text)?;
    show(out, number, written, marks, marks_end, before, space, room)?;
    end(out)
}

// Answers a line with new guards.
fn answer<W: Write>(
    out: &mut W,
    text: &[u8],
    table: &[u8],
    line: &Line,
    marks: &mut [u8; SPACE],
    space: &mut [u8; SPACE],
) -> io::Result<()> {
    comment(out, text)?;
    if says(text, b"marked") {
        marks.fill(165);
        space.fill(165);
        call(
            out,
            text,
            first(table, length_of(table)),
            line,
            marks,
            space,
        )?;
    }
    Ok(())
}

// Goes over the lines of a script. The programs have such a loop each: one for all would take a closure that writes
// their buffers, of which a proof would no longer know how long they are.
fn run<W: Write>(
    out: &mut W,
    script: &[u8],
    table: &mut [u8],
    marks: &mut [u8; SPACE],
    space: &mut [u8; SPACE],
) -> io::Result<()> {
    for text in script.split(|byte| *byte == b'\n') {
        let line = numbers_in(text);
        build(table, text, &line);
        answer(out, text, table, &line, marks, space)?;
    }
    Ok(())
}

fn main(rt: HostRuntime) -> io::Result<()> {
    let mut script = [0u8; 32768];
    let len = read_into(&mut rt.stdin(), &mut script)?;
    let mut table = [0u8; SPACE];
    let mut marks = [0u8; SPACE];
    let mut space = [0u8; SPACE];
    run(
        &mut rt.stdout(),
        &script[..len],
        &mut table,
        &mut marks,
        &mut space,
    )
}
