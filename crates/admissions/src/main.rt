// Reads a table of books and questions from standard input and prints, for each, the number and the place of its refusal, 0 0 if
// both are admitted, and its label. tools/admission_cases.py makes the table and says what document 01 has for each row.
#![tactic(auto)]

ghost use Rattle.std.specs.Prelude.{IfOk};
ghost use Rattle.tables.specs.Rows.{TakesSome};

use book::index_book;
use question::read_question;
use reading::Reading;
use std::io;
use tables::{Fields, for_each_row, read_full};

// Each program over a table has these three lines. One function for them would be called with the size and the closure all the same, and hide what is read.
fn main(rt: HostRuntime) -> io::Result<()> {
    let mut input = [0u8; 262144];
    let n = read_full(&mut rt.stdin(), &mut input)?;
    for_each_row(&input[..n], |row| show_row(&rt, row))
}

// One row: its label, its book and its question, each behind its length.
fn show_row(rt: &impl Print, row: &mut Fields<'_>) -> io::Result<()>
    ensures { IfOk result (λ done. TakesSome row.old row.new) }
{
    let label = row.field();
    let book = row.field();
    match verdict(book, row.field()) {
        Ok(_) => print!(rt; "0 0 ")?,
        Err(r) => print!(rt; "{r} ")?,
    }
    rt.write_all(label)?;
    rt.write_all(b"\n")
}

fn verdict<'a>(book: &'a [u8], question: &'a [u8]) -> Reading {
    let index = index_book(book);
    let (count, _) = index.reading?;
    let at = index.at;
    read_question(book, &at[..count], question)
}
