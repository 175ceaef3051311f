// Reads a table of inputs of program `expand` from standard input, and prints for each its label and what `expand` prints. tools/expand_cases.py makes the
// table and says what each row gives.
#![tactic(auto)]

ghost use Rattle.std.specs.Prelude.{IfOk};
ghost use Rattle.tables.specs.Rows.{TakesSome};

use lines::expand;
use std::io;
use tables::{Fields, for_each_row, read_full};

// Each program over a table has these three lines. One function for them would be called with the size and the closure all the same, and hide what is read.
fn main(rt: HostRuntime) -> io::Result<()> {
    let mut input = [0u8; 131072];
    let n = read_full(&mut rt.stdin(), &mut input)?;
    for_each_row(&input[..n], |row| show_row(&rt, row))
}

// One row: its label, and an input.
fn show_row(rt: &impl Print, row: &mut Fields<'_>) -> io::Result<()>
    ensures { IfOk result (λ done. TakesSome row.old row.new) }
{
    rt.write_all(row.field())?;
    rt.write_all(b"\n")?;
    expand(rt, row.field())
}
