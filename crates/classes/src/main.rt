// Walks all code points and writes, for each class and for the folding, how many there are and a checksum.
#![tactic(auto)]

ghost use Rattle.std.specs.Prelude.{◌≤◌, ◌*◌};

use letters::Folded;
use std::io;

const POINTS: u32 = 1114112;

// How many code points were seen, and the sum of each times its place from 1, modulo 2 ^ 32.
#[derive(Clone, Copy)]
struct Sum {
    count: u32,
    total: u64,
}

fn times(a: u32, b: u32) -> u64
    ensures { result ≤ 4294967295 * 4294967295 }
{
    (a as u64) * (b as u64)
}

fn and(s: Sum, c: u32) -> Sum {
    let n = s.count % 4294967295 + 1;
    let t = s.total % 4294967296 + times(n, c);
    Sum {
        count: n,
        total: t % 4294967296,
    }
}

fn and_all(s: Sum, f: Folded) -> Sum {
    match f {
        Folded::One(a) => and(s, a),
        Folded::Two(a, b) => and(and(s, a), b),
        Folded::Three(a, b, c) => and(and(and(s, a), b), c),
    }
}

// The code points of a class.
fn members<F: Fn(u32) -> bool>(is_in: F) -> Sum
    requires { F.IsAlwaysCallable is_in }
{
    let mut s = Sum { count: 0, total: 0 };
    for c in 0..POINTS {
        if is_in(c) {
            s = and(s, c);
        }
    }
    s
}

fn foldings() -> Sum {
    let mut s = Sum { count: 0, total: 0 };
    for c in 0..POINTS {
        s = and_all(s, letters::fold(c));
    }
    s
}

fn is_changed(f: Folded, c: u32) -> bool {
    match f {
        Folded::One(a) => a != c,
        _ => true,
    }
}

fn changed() -> u32 {
    let mut n: u32 = 0;
    for c in 0..POINTS {
        if is_changed(letters::fold(c), c) {
            n += 1;
        }
    }
    n
}

fn show(rt: &impl Print, s: Sum) -> io::Result<()> {
    rt.write_all(b"\t")?;
    rt.print(s.count)?;
    rt.write_all(b"\t")?;
    rt.print(s.total)?;
    rt.write_all(b"\n")
}

fn show_classes(rt: &impl Print) -> io::Result<()> {
    rt.write_all(b"white")?;
    show(rt, members(letters::is_white_space))?;
    rt.write_all(b"alphabetic")?;
    show(rt, members(letters::is_alphabetic))?;
    rt.write_all(b"numeric")?;
    show(rt, members(letters::is_numeric))?;
    rt.write_all(b"alphanumeric")?;
    show(rt, members(letters::is_alphanumeric))
}

fn show_folding(rt: &impl Print) -> io::Result<()> {
    rt.write_all(b"folding\t")?;
    rt.print(changed())?;
    show(rt, foldings())
}

fn main(rt: HostRuntime) -> io::Result<()> {
    show_classes(&rt)?;
    show_folding(&rt)
}
