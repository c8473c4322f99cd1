// Reads a plan from standard input, and writes what the library says of it.
#![tactic(auto)]

ghost use Rattle.std.specs.Prelude.{◌≤◌, vec_capacity};

use clearer::{Rank, Zone, clear};
use plan::Plan;
use reader::{check, is_written_in, read};
use records::limits::{MOST_BYTES, MOST_LINES};
use records::{BLANK, ReadFault, Record, WaitOrder, WrittenOrder};
use rules::Account;
use std::io::Read;
use std::{io, str};

// Reads the text from standard input into a buffer with room for it, so that the buffer does not grow. One byte more than a
// plan may have is enough to refuse any longer input; the last byte of room is for the read that finds the end.
fn input(rt: &HostRuntime, text: &mut Vec<u8>) -> io::Result<()>
    requires { 32770 ≤ vec_capacity text.old }
{
    rt.stdin().take(MOST_BYTES as u64 + 1).read_to_end(text)?;
    Ok(())
}

// The lines are the program's own format, so that they are written here, and the library has no Display for them. Text and
// sheet are the two memories that the library's calls take, so they stay two.

fn report_fault(rt: &HostRuntime, fault: ReadFault) -> io::Result<()> {
    let number = fault.number();
    let line = fault.line();
    println!(rt; "READING,{number},{line}")
}

// Whether the plan is cleared, or its first breach, with the object by name. A name has capitals and digits alone.
fn report_clearing<O: WaitOrder>(rt: &HostRuntime, plan: &Plan) -> io::Result<()> {
    let mut account = Account::empty();
    match clear::<O>(plan, &mut account) {
        Ok(()) => println!(rt; "CLEARED"),
        Err(fault) => {
            let number = fault.number();
            let line = fault.line;
            let object = str::from_utf8(plan.name_of(fault.object)).unwrap_or("");
            println!(rt; "CLEARING,{number},{line},{object}")
        }
    }
}

// What is written of a plan that was read: its counts, and its clearing. Its trial is to be written after that.
fn report_plan<O: WaitOrder>(rt: &HostRuntime, plan: &Plan) -> io::Result<()> {
    let threads = plan.threads();
    let moves = plan.moves();
    let sends = plan.sends();
    println!(rt; "PLAN,{threads},{moves},{sends}")?;
    report_clearing::<O>(rt, plan)
}

// Makes the plan of a sheet that was read, and reports it.
fn report_sheet<'a, O: WrittenOrder>(
    rt: &HostRuntime,
    text: &'a [u8],
    sheet: &'a [Record],
) -> io::Result<()> {
    match check::<O>(text, sheet) {
        Err(fault) => report_fault(rt, fault),
        Ok(()) => report_plan::<O>(rt, &Plan::new::<O>(text, sheet)),
    }
}

// Reads the text under a wait order, and reports it.
fn report<O: WrittenOrder>(rt: &HostRuntime, text: &[u8], sheet: &mut [Record]) -> io::Result<()> {
    match read::<O>(text, sheet) {
        Err(fault) => report_fault(rt, fault),
        Ok(()) => report_sheet::<O>(rt, text, sheet),
    }
}

// Reads the plan under ZONE if its first line says so and else under RANK, and reports it.
fn run(rt: &HostRuntime, text: &[u8], sheet: &mut [Record]) -> io::Result<()> {
    if is_written_in::<Zone>(text) {
        report::<Zone>(rt, text, sheet)
    } else {
        report::<Rank>(rt, text, sheet)
    }
}

fn main(rt: HostRuntime) -> io::Result<()> {
    let mut text = Vec::with_capacity(rt.alloc(), MOST_BYTES + 2)?;
    let mut sheet = vec![in rt.alloc(); BLANK; MOST_LINES]?;
    input(&rt, &mut text)?;
    run(&rt, &text, &mut sheet)
}
