// Runs the keeper's calls over the script on standard input and prints each line that asks for one, with
// the number returned, what stands at `written` afterwards (777 before the call), the answer's numbers or
// a checksum of them, and `ok` where every other byte of the answer's buffer and every other number of
// the scratch is as it was. For a keep sheet the lines in the scratch follow the answer, also under 16.
// The file stdout has what docs/MANUAL.md says of each.
//     recovery LEN        the recovery line, into a buffer of LEN bytes, 32,968 at most
//     hold SET LEN        the line of a set
//     under COUNT LEN C ...    the line under a list of COUNT ceilings, 64 at most: the numbers C, of which
//                         the last goes on to the end of a longer list
//     stand P LEN S X ...    whether named checkpoints stand together: of the numbers X, 13 at most, the
//                         first P are the processes and the next S the checkpoints' numbers; those that the
//                         line lacks are 0
//     send FROM TO LEN    the table after a send
//     deliver P LEN K ...    the table after a receipt of P: of the messages at positions K
//     save P LEN K ...    the table after a save of P, which receives the messages at positions K
//     fall LEN            the table after a fall back
//     sheet SCRATCH LEN   the keep sheet, with a scratch of SCRATCH numbers, 1,184 at most
//     use                 puts the last answer at the front of the table; a refusal is no answer
//     # TEXT              printed as it stands
// test_kit has the lines that build a table. A further call is a word of `call_of` and an arm of `ask`, with
// LEN as its second number.
#![tactic(auto)]

ghost use Rattle.std.specs.Prelude.{IfOk, ◌≡◌, ◌+◌, ◌≤◌, length};
ghost use Rattle.keeper_cases.specs.Places.{line_numbers};
ghost use Rattle.test_kit.specs.Guards.{guards, most_room};

use number_writer::put_numbers;
use std::io;
use std::io::Write;
use tables::format::MOST_PROCESSES;
use test_kit::guards::{GUARDS, MOST_ROOM, answer_end, is_guarded};
use test_kit::{SPACE, asked, build, comment, copy, end, first, length_of, numbers, told, word};
use test_script::{Line, MOST_CEILINGS, extended, numbers_in, says, word_of};
use whole_input::read_into;

// The numbers of the scratch, which is guarded too: a guard there is a number of two bytes 165.
const SCRATCH: usize = 1216;

const MOST_LENT: usize = SCRATCH - 2 * GUARDS;

// Where the two lists of a line that names checkpoints begin among its numbers.
const NAMES_AT: usize = 3;

// The line under the ceilings of a line.
fn line_under(table: &[u8], line: &Line, answer: &mut [u8], written: &mut usize) -> u32 {
    let ceilings: [u16; MOST_CEILINGS] = extended(line.behind(&line.smalls(), 2), 0);
    let count = line.size_up_to(0, MOST_CEILINGS);
    keeper::keeper_line_under(table, &ceilings[..count], answer, written)
}

// Whether the checkpoints that a line names stand together.
fn stand_together(table: &[u8], line: &Line, answer: &mut [u8], written: &mut usize) -> u32 {
    let numbers = line.smalls();
    let middle = NAMES_AT + line.size_up_to(0, 16 - NAMES_AT);
    let last = middle + line.size_up_to(2, 16 - middle);
    let processes = &numbers[NAMES_AT..middle];
    let checkpoints = &numbers[middle..last];
    keeper::keeper_stand_together(table, processes, checkpoints, answer, written)
}

// A call that a line asks for.
#[derive(Clone, Copy, PartialEq, Eq, Debug)]
enum Call {
    Recovery,
    Hold,
    Under,
    Stand,
    Send,
    Deliver,
    Save,
    Fall,
    Sheet,
}

// The call of a line, by its word, if it asks for one.
fn call_of(text: &[u8]) -> Option<Call> {
    match word_of(text) {
        b"recovery" => Some(Call::Recovery),
        b"hold" => Some(Call::Hold),
        b"under" => Some(Call::Under),
        b"stand" => Some(Call::Stand),
        b"send" => Some(Call::Send),
        b"deliver" => Some(Call::Deliver),
        b"save" => Some(Call::Save),
        b"fall" => Some(Call::Fall),
        b"sheet" => Some(Call::Sheet),
        _ => None,
    }
}

// Makes a call with the numbers of a line, and answers its number. A match, since each call takes other arguments.
fn ask(
    call: Call,
    table: &[u8],
    line: &Line,
    scratch: &mut [u16],
    answer: &mut [u8],
    written: &mut usize,
) -> u32 {
    match call {
        Call::Recovery => keeper::keeper_recovery_line(table, answer, written),
        Call::Hold => keeper::keeper_line_of_set(table, line.set(0), answer, written),
        Call::Under => line_under(table, line, answer, written),
        Call::Stand => stand_together(table, line, answer, written),
        Call::Send => keeper::keeper_send(table, line.small(0), line.small(1), answer, written),
        Call::Deliver => {
            let numbers = line.smalls();
            let received = line.behind(&numbers, 2);
            keeper::keeper_receive(table, line.small(0), received, answer, written)
        }
        Call::Save => {
            let numbers = line.smalls();
            let received = line.behind(&numbers, 2);
            keeper::keeper_save(table, line.small(0), received, answer, written)
        }
        Call::Fall => keeper::keeper_fall_back(table, answer, written),
        Call::Sheet => keeper::keeper_keep_sheet(table, scratch, answer, written),
    }
}

// The length of a call's answer buffer.
fn room_of(call: Call, line: &Line) -> usize {
    match call {
        Call::Recovery | Call::Fall => line.size(0),
        Call::Send => line.size(2),
        _ => line.size(1),
    }
}

// How many numbers of the scratch a call for n processes fills: a keep sheet, also under 16, with n
// lines of n numbers.
#[tactic(auto, unfolding(crate::specs::Places::line_numbers))]
fn line_numbers(sheet: bool, number: u32, n: usize) -> usize
    ensures { (result ≤ 1024) × (result ≡ line_numbers sheet number n) }
{
    if sheet && n <= MOST_PROCESSES && (number == 0 || number == 16) {
        n * n
    } else {
        0
    }
}

// Prints the lines, if there are any: their numbers or a checksum of them.
fn show_lines<W: Write>(out: &mut W, lines: &[u8]) -> io::Result<()> {
    if lines.is_empty() {
        return Ok(());
    }
    word(out, b" lines")?;
    numbers(out, lines)
}

// Prints what a call left in the guarded buffer and in the guarded scratch, and `ok` if the rest of both
// is as it was. Says how long the answer is.
fn show<W: Write>(
    out: &mut W,
    sheet: bool,
    number: u32,
    written: usize,
    n: usize,
    scratch: &[u16; SCRATCH],
    space: &[u8; SPACE],
    room: usize,
) -> io::Result<usize>
    requires { room ≤ most_room }
    ensures { IfOk result (λ len. len ≤ most_room) }
{
    let to = answer_end(number, written, room);
    let lines_at = 2 * GUARDS;
    let lines_end = lines_at + 2 * line_numbers(sheet, number, n);
    let mut bytes = [0u8; 2 * SCRATCH];
    put_numbers(&mut bytes, 0, scratch);
    told(out, number, written)?;
    numbers(out, &space[GUARDS..to])?;
    show_lines(out, &bytes[lines_at..lines_end])?;
    if is_guarded(space, GUARDS, to) && is_guarded(&bytes, lines_at, lines_end) {
        word(out, b" ok")?;
    }
    Ok(to - GUARDS)
}

// Makes the call that a line asks for, with a lent part of the guarded scratch and a room inside the
// guarded buffer, and prints what it left. Says how long the answer is.
fn guarded_call<W: Write>(
    out: &mut W,
    text: &[u8],
    table: &[u8],
    line: &Line,
    scratch: &mut [u16; SCRATCH],
    space: &mut [u8; SPACE],
) -> io::Result<usize>
    ensures { IfOk result (λ len. len ≤ most_room) }
{
    let Some(call) = call_of(text) else {
        return Ok(0);
    };
    // The keep sheet's alone has a scratch.
    let sheet = call == Call::Sheet;
    let lent = if sheet { line.size(0) } else { 0 };
    let room = room_of(call, line);
    if MOST_LENT < lent || MOST_ROOM < room {
        return Ok(0);
    }
    let lent_end = GUARDS + lent;
    let room_end = GUARDS + room;
    let mut written: usize = 777;
    let number = ask(
        call,
        table,
        line,
        &mut scratch[GUARDS..lent_end],
        &mut space[GUARDS..room_end],
        &mut written,
    );
    asked(out, text)?;
    let n = usize::from(run_table::run_table_processes(table));
    let len = show(out, sheet, number, written, n, scratch, space, room)?;
    end(out)?;
    Ok(len)
}

// Answers a line with new guards, and says how long its answer in the guarded buffer is.
fn answer<W: Write>(
    out: &mut W,
    text: &[u8],
    table: &[u8],
    line: &Line,
    space: &mut [u8; SPACE],
) -> io::Result<usize>
    ensures { IfOk result (λ len. len ≤ most_room) }
{
    comment(out, text)?;
    let mut scratch = [42405u16; SCRATCH];
    space.fill(165);
    guarded_call(
        out,
        text,
        first(table, length_of(table)),
        line,
        &mut scratch,
        space,
    )
}

// Keeps the answer in the guarded buffer for `use`, if there is one, and says how long the one kept is: the buffer is
// the program's for all of its run, and no answer is made anew.
fn keep(kept: &mut [u8], kept_len: usize, space: &[u8], len: usize) -> usize
    requires { guards + len ≤ length space.now }
{
    if len == 0 {
        return kept_len;
    }
    copy(kept, &space[GUARDS..GUARDS + len]);
    len
}

// Does what a line says of the table: builds it, or puts the answer that is kept at its front.
fn change(table: &mut [u8], text: &[u8], line: &Line, kept: &[u8]) {
    build(table, text, line);
    if says(text, b"use") {
        copy(table, kept);
    }
}

// Goes over the lines of a script. The programs have such a loop each: one for all would take a closure that writes
// their buffers, of which a proof would no longer know how long they are.
fn run<W: Write>(
    out: &mut W,
    script: &[u8],
    table: &mut [u8],
    space: &mut [u8; SPACE],
    kept: &mut [u8],
) -> io::Result<()> {
    let mut kept_len = 0;
    for text in script.split(|byte| *byte == b'\n') {
        let line = numbers_in(text);
        change(table, text, &line, first(kept, kept_len));
        let len = answer(out, text, table, &line, space)?;
        kept_len = keep(kept, kept_len, space, len);
    }
    Ok(())
}

fn main(rt: HostRuntime) -> io::Result<()> {
    let mut script = [0u8; 65536];
    let len = read_into(&mut rt.stdin(), &mut script)?;
    let mut table = [0u8; SPACE];
    let mut space = [0u8; SPACE];
    let mut kept = [0u8; SPACE];
    run(
        &mut rt.stdout(),
        &script[..len],
        &mut table,
        &mut space,
        &mut kept,
    )
}
