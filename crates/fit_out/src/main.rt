// Loads a swapped reader's memory from a list on standard input, and prints what was done.
#![tactic(auto)]

use entries::Entry;
use homes::allowance::Allowance;
use homes::plain::Plain;
use homes::side_by_side::SideBySide;
use homes::write_once::WriteOnce;
use loading::session::Session;
use std::io;
use std::io::{BufRead, BufReader};

// The memory of the reader: an allowance of writes over lent bytes, with write-once records behind them.
type Memory<'a> = Allowance<SideBySide<Plain<'a>, WriteOnce>>;

// How many bytes are lent: eight records.
const LENT: usize = 128;

// How many writes the allowance lets through.
const WRITES: u32 = 6;

// Loads each line of the input, and prints what became of it.
fn load_lines(rt: &HostRuntime, session: &mut Session<Memory<'_>>) -> io::Result<()> {
    let mut input = BufReader::new(rt.alloc(), rt.stdin())?;
    // One buffer for all lines: `split` takes memory for each anew, up to twice as much in all where lines are long.
    let mut line = Vec::new(rt.alloc());
    for number in 1..u64::MAX {
        line.clear();
        if input.read_until(b'\n', &mut line)? == 0 {
            break;
        }
        let reply = session.line(line.strip_suffix(b"\n").unwrap_or(&line));
        println!(rt; "line {number}: {reply}")?;
    }
    Ok(())
}

// Prints what each loaded record holds.
fn print_table(rt: &HostRuntime, session: &mut Session<Memory<'_>>) -> io::Result<()> {
    println!(rt; "loaded records:")?;
    // by the number of each record that a home can have: a session has no list of those that were loaded
    for record in 0..u16::MAX {
        if let Some(body) = session.row(record) {
            let entry = Entry { record, body };
            println!(rt; "{entry}")?;
        }
    }
    Ok(())
}

// Loads the input and prints the table, also where the input could not be read to its end.
fn run(rt: &HostRuntime) -> io::Result<()> {
    let mut bytes = [0; LENT];
    let homes = SideBySide::new(Plain::new(&mut bytes), WriteOnce::new());
    let mut session = Session::new(Allowance::new(homes, WRITES));
    let ended = load_lines(rt, &mut session);
    print_table(rt, &mut session)?;
    let left = session.into_home().writes_left();
    println!(rt; "writes left: {left}")?;
    ended
}

fn main(rt: HostRuntime) -> io::Result<()> {
    run(&rt)
}
