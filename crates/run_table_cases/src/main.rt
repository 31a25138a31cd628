// Runs the table reader over the script on standard input and prints each line that asks something,
// with what the library answers. The file stdout has what docs/MANUAL.md says of each.
//     check LEN          the refusal of the first LEN bytes
//     whole              the refusal of as many bytes as the sizes give
//     lookup LEN P K     N, M, the count of P and the four numbers of message K in the first LEN bytes
//     # TEXT             printed as it stands
// test_kit has the lines that build a table.
#![tactic(auto)]

use std::io;
use std::io::Write;
use test_kit::{SPACE, asked, build, comment, end, first, length_of, value};
use test_script::{Line, numbers_in, word_of};
use whole_input::read_into;

fn check<W: Write>(out: &mut W, table: &[u8]) -> io::Result<()> {
    value(out, u64::from(run_table::run_table_check(table)))
}

fn lookup<W: Write>(out: &mut W, table: &[u8], p: usize, k: usize) -> io::Result<()> {
    value(out, u64::from(run_table::run_table_processes(table)))?;
    value(out, u64::from(run_table::run_table_messages(table)))?;
    value(out, u64::from(run_table::run_table_count(table, p)))?;
    value(out, u64::from(run_table::run_table_sender(table, k)))?;
    value(out, u64::from(run_table::run_table_sent(table, k)))?;
    value(out, u64::from(run_table::run_table_receiver(table, k)))?;
    value(out, u64::from(run_table::run_table_received(table, k)))
}

// Answers a line.
fn answer<W: Write>(out: &mut W, text: &[u8], buffer: &[u8], line: &Line) -> io::Result<()> {
    comment(out, text)?;
    match word_of(text) {
        b"check" => {
            asked(out, text)?;
            check(out, first(buffer, line.size(0)))?;
            end(out)
        }
        b"whole" => {
            asked(out, text)?;
            check(out, first(buffer, length_of(buffer)))?;
            end(out)
        }
        b"lookup" => {
            asked(out, text)?;
            let table = first(buffer, line.size(0));
            lookup(out, table, line.size(1), line.size(2))?;
            end(out)
        }
        _ => Ok(()),
    }
}

// Goes over the lines of a script. The programs have such a loop each: one for all would take a closure that writes
// their buffers, of which a proof would no longer know how long they are.
fn run<W: Write>(out: &mut W, script: &[u8], buffer: &mut [u8]) -> io::Result<()> {
    for text in script.split(|byte| *byte == b'\n') {
        let line = numbers_in(text);
        build(buffer, text, &line);
        answer(out, text, buffer, &line)?;
    }
    Ok(())
}

fn main(rt: HostRuntime) -> io::Result<()> {
    let mut script = [0u8; 16384];
    let len = read_into(&mut rt.stdin(), &mut script)?;
    let mut table = [0u8; SPACE];
    run(&mut rt.stdout(), &script[..len], &mut table)
}
