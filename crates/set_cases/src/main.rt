// Asks for the lines of many sets, by the script on standard input, and prints each line that asks for
// them, with the number returned, what stands at `written` afterwards (777 before the call), the answer's
// numbers or a checksum of them, those at the front of the scratch that a success writes, or a checksum,
// and `ok` where every other byte of the answer's buffer and every other number of the scratch is as it
// was. The file stdout has what docs/MANUAL.md says of each.
//     sets COUNT LEN NUMBERS S ...    the lines of a list of COUNT sets, 300 at most: the numbers S, of
//                         which the last goes on to the end of a longer list; into a buffer of LEN bytes,
//                         32,968 at most; with a scratch of NUMBERS numbers, 1,100 at most
//     # TEXT              printed as it stands
// test_kit has the lines that build a table.
#![tactic(auto)]

ghost use Rattle.std.specs.Prelude.{◌≡◌, ◌+◌, ◌≤◌, ◌<◌, length};
ghost use Rattle.test_kit.specs.Guards.{guards, most_room};

use number_writer::put_numbers;
use std::io;
use std::io::Write;
use tables::format::MOST_PROCESSES;
use test_kit::guards::{GUARDS, MOST_ROOM, answer_end, is_guarded};
use test_kit::{SPACE, asked, build, comment, end, first, length_of, numbers, told, word};
use test_script::{Line, extended, numbers_in, says};
use whole_input::read_into;

// The most sets that a line lends.
const MOST_LENT: usize = 300;

// The most numbers of a scratch that a line lends, and those of the guarded one: a guard there is a number of
// two bytes 165.
const MOST_NUMBERS: usize = 1100;

const SCRATCH: usize = MOST_NUMBERS + 2 * GUARDS;

// Asks for the lines of the sets of a line.
fn lines_of(
    table: &[u8],
    line: &Line,
    scratch: &mut [u16],
    answer: &mut [u8],
    written: &mut usize,
) -> u32 {
    let sets: [u32; MOST_LENT] = extended(line.behind(&line.sets(), 3), 0);
    let count = line.size_up_to(0, MOST_LENT);
    keeper::keeper_lines_of_sets(table, &sets[..count], scratch, answer, written)
}

// How many numbers of the scratch a call for n processes fills: on success n lines of n numbers.
fn line_numbers(number: u32, n: usize) -> usize
    ensures { result ≤ 1024 }
{
    if number == 0 && n <= MOST_PROCESSES {
        n * n
    } else {
        0
    }
}

// Prints what a call left in the guarded buffer and in the guarded scratch, and `ok` if the rest of both is
// as it was.
fn show<W: Write>(
    out: &mut W,
    number: u32,
    written: usize,
    n: usize,
    scratch: &[u16; SCRATCH],
    space: &[u8; SPACE],
    room: usize,
) -> io::Result<()>
    requires { room ≤ most_room }
{
    let to = answer_end(number, written, room);
    let lines_at = 2 * GUARDS;
    let lines_end = lines_at + 2 * line_numbers(number, n);
    let mut bytes = [0u8; 2 * SCRATCH];
    put_numbers(&mut bytes, 0, scratch);
    told(out, number, written)?;
    numbers(out, &space[GUARDS..to])?;
    word(out, b" scratch")?;
    numbers(out, &bytes[lines_at..lines_end])?;
    if is_guarded(space, GUARDS, to) && is_guarded(&bytes, lines_at, lines_end) {
        word(out, b" ok")?;
    }
    Ok(())
}

// Makes the call that a line asks for, with a lent part of the guarded scratch and a room inside the guarded
// buffer, and prints what it left.
fn call<W: Write>(
    out: &mut W,
    text: &[u8],
    table: &[u8],
    line: &Line,
    scratch: &mut [u16; SCRATCH],
    space: &mut [u8; SPACE],
) -> io::Result<()> {
    let room = line.size_up_to(1, MOST_ROOM);
    let room_end = GUARDS + room;
    let scratch_end = GUARDS + line.size_up_to(2, MOST_NUMBERS);
    let mut written: usize = 777;
    let number = lines_of(
        table,
        line,
        &mut scratch[GUARDS..scratch_end],
        &mut space[GUARDS..room_end],
        &mut written,
    );
    asked(out, text)?;
    let n = usize::from(run_table::run_table_processes(table));
    show(out, number, written, n, scratch, space, room)?;
    end(out)
}

// Answers a line with new guards.
fn answer<W: Write>(
    out: &mut W,
    text: &[u8],
    table: &[u8],
    line: &Line,
    space: &mut [u8; SPACE],
) -> io::Result<()> {
    comment(out, text)?;
    if says(text, b"sets") {
        let mut scratch = [42405u16; SCRATCH];
        space.fill(165);
        call(
            out,
            text,
            first(table, length_of(table)),
            line,
            &mut scratch,
            space,
        )?;
    }
    Ok(())
}

// Goes over the lines of a script. The programs have such a loop each: one for all would take a closure that writes
// their buffers, of which a proof would no longer know how long they are.
fn run<W: Write>(
    out: &mut W,
    script: &[u8],
    table: &mut [u8],
    space: &mut [u8; SPACE],
) -> io::Result<()> {
    for text in script.split(|byte| *byte == b'\n') {
        let line = numbers_in(text);
        build(table, text, &line);
        answer(out, text, table, &line, space)?;
    }
    Ok(())
}

fn main(rt: HostRuntime) -> io::Result<()> {
    let mut script = [0u8; 16384];
    let len = read_into(&mut rt.stdin(), &mut script)?;
    let mut table = [0u8; SPACE];
    let mut space = [0u8; SPACE];
    run(&mut rt.stdout(), &script[..len], &mut table, &mut space)
}
