// Reads one tagged listing from standard input and prints a line `R number line headings circle`; then, without a circle, each heading behind its
// level, and with one the headings that stand in it, in order, each behind the line of its BT that leads to the next: the lines to look at.
#![tactic(auto)]

ghost use Rattle.std.specs.Prelude.{◌<◌, ◌≤◌, length, IfOk};

use circles::save_listing;
use reading::{byte, part_of};
use std::io;
use tables::read_full;

// The longest listing that is read; of a longer one only `J` is printed.
const LONGEST: usize = 262143;

// The most headings that a book can have.
const HEADINGS: usize = 341;

fn main(rt: HostRuntime) -> io::Result<()> {
    // One byte more than the longest listing, so that a longer one is seen.
    let mut input = [0u8; LONGEST + 1];
    let n = read_full(&mut rt.stdin(), &mut input)?;
    show_saved(&rt, &input[..n])
}

fn show_saved(rt: &impl Print, listing: &[u8]) -> io::Result<()> {
    if LONGEST < listing.len() {
        return println!(rt; "J");
    }
    let mut row = [0u16; HEADINGS];
    match save_listing(listing, &mut row) {
        Ok(s) => {
            println!(rt; "R 0 0 {} {}", s.headings, s.circle)?;
            if s.circle == 0 {
                show_levels(rt, listing, &row)
            } else {
                show_circle(rt, listing, &row, s.circle)
            }
        }
        Err(r) => println!(rt; "R {r} 0 0"),
    }
}

// ---- lines of a listing that was accepted: only a heading's own line does not open with a space

// The place behind the line at p: behind its newline, or the end of the listing.
fn behind_line(listing: &[u8], p: usize) -> usize
    requires { p < length listing.now }
    ensures { (p < result) × (result ≤ length listing.now) }
{
    for q in p..listing.len() {
        if listing[q] == b'\n' {
            return q + 1;
        }
    }
    listing.len()
}

fn is_heading(listing: &[u8], p: usize) -> bool {
    byte(listing, p) != 32
}

// "two spaces, BT or NT": the third byte tells them apart.
fn is_broader(listing: &[u8], p: usize) -> bool
    requires { p < 262144 }
{
    byte(listing, p) == 32 && byte(listing, p + 2) == 66
}

// The name in the line at p: of a BT or NT line behind its tag, and without the newline.
fn name_at(listing: &[u8], p: usize) -> &[u8]
    requires { length listing.now ≤ 262144 }
{
    if listing.len() <= p {
        return part_of(listing, 0, 0);
    }
    let end = behind_line(listing, p) - 1;
    if is_heading(listing, p) {
        part_of(listing, p, end)
    } else {
        part_of(listing, p + 5, end)
    }
}

// The place of the own line of heading x, numbered by these lines.
fn heading_at(listing: &[u8], x: usize) -> usize {
    let mut left = x;
    let mut p: usize = 0;
    // a hop: the next line opens behind this one's end
    while p < listing.len() {
        if is_heading(listing, p) {
            if left == 0 {
                return p;
            }
            left -= 1;
        }
        p = behind_line(listing, p);
    }
    p
}

// The first BT line behind place `from` that has this name: its number, counted from 1.
fn broader_line<'a>(listing: &'a [u8], from: usize, name: &'a [u8]) -> usize
    requires { length listing.now ≤ 262144 }
{
    let mut line: usize = 1;
    let mut p: usize = 0;
    // a hop: the next line opens behind this one's end
    while p < listing.len() {
        if from < p && is_broader(listing, p) && name_at(listing, p) == name {
            return line;
        }
        line += 1;
        p = behind_line(listing, p);
    }
    0
}

// ---- what is printed

fn number_in(row: &[u16; HEADINGS], i: usize) -> usize {
    if i < HEADINGS { wide(row[i]) } else { 0 }
}

fn wide(n: u16) -> usize {
    n as usize
}

fn show_line(rt: &impl Print, n: usize, name: &[u8]) -> io::Result<()> {
    print!(rt; "{n} ")?;
    rt.write_all(name)?;
    rt.write_all(b"\n")
}

// Each heading, in listing order, behind its level.
fn show_levels<'a>(rt: &impl Print, listing: &'a [u8], row: &'a [u16; HEADINGS]) -> io::Result<()>
    requires { length listing.now ≤ 262144 }
{
    let mut x: usize = 0;
    let mut p: usize = 0;
    // a hop: the next line opens behind this one's end
    while p < listing.len() {
        x += show_level(rt, listing, p, number_in(row, x))?;
        p = behind_line(listing, p);
    }
    Ok(())
}

// The line at p, if it is a heading's: how many headings were printed.
fn show_level(rt: &impl Print, listing: &[u8], p: usize, level: usize) -> io::Result<usize>
    requires { length listing.now ≤ 262144 }
    ensures { IfOk result (λ shown. shown ≤ 1) }
{
    if is_heading(listing, p) {
        show_line(rt, level, name_at(listing, p))?;
        return Ok(1);
    }
    Ok(0)
}

// The headings of the circle, the last of which leads to the first.
fn show_circle<'a>(
    rt: &impl Print,
    listing: &'a [u8],
    row: &'a [u16; HEADINGS],
    count: usize,
) -> io::Result<()>
    requires { length listing.now ≤ 262144 }
{
    for i in 0..count {
        let next = if i + 1 < count { i + 1 } else { 0 };
        show_hop(rt, listing, number_in(row, i), number_in(row, next))?;
    }
    Ok(())
}

fn show_hop(rt: &impl Print, listing: &[u8], x: usize, y: usize) -> io::Result<()>
    requires { length listing.now ≤ 262144 }
{
    let p = heading_at(listing, x);
    let q = heading_at(listing, y);
    show_line(
        rt,
        broader_line(listing, p, name_at(listing, q)),
        name_at(listing, p),
    )
}
