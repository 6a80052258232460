// Reads up to 65,536 bytes of lines, each of them a field as it stands escaped in a sheet, and writes for each: how many
// code points it has, how many of them are White_Space, Alphabetic and alphanumeric, and 1 if any is alphanumeric; how
// many its folding has, blanks collapsed, and a checksum of it; how many bytes the line has when its ends are trimmed,
// and when it is trimmed altogether; where a path before its name ends and where the name starts; and 1 if it has the
// same name as the line before, and 1 if it has the same content.
#![tactic(auto)]

ghost use Rattle.std.specs.Prelude.{◌≤◌, length};

use std::io;

#[derive(Clone, Copy)]
struct Counts {
    points: u64,
    white: u64,
    alphabetic: u64,
    alphanumeric: u64,
}

// How many code points, and their checksum: the checksum before them times 31, plus each, modulo 2 ^ 32.
#[derive(Clone, Copy)]
struct Sum {
    count: u64,
    total: u64,
}

fn one(yes: bool) -> u64
    ensures { result ≤ 1 }
{
    u64::from(yes)
}

fn count(s: &[u8]) -> Counts {
    let mut points: u64 = 0;
    let mut white: u64 = 0;
    let mut alphabetic: u64 = 0;
    let mut alphanumeric: u64 = 0;
    let mut at = 0;
    while at < s.len() {
        let c = content::char_in(s, at);
        points += 1;
        white += one(letters::is_white_space(c.code));
        alphabetic += one(letters::is_alphabetic(c.code));
        alphanumeric += one(letters::is_alphanumeric(c.code));
        at += c.size;
    }
    Counts {
        points,
        white,
        alphabetic,
        alphanumeric,
    }
}

fn and(s: Sum, c: u32) -> Sum {
    Sum {
        count: s.count % 4294967296 + 1,
        total: (s.total % 4294967296 * 31 + (c as u64)) % 4294967296,
    }
}

fn folded(s: &[u8]) -> Sum {
    let mut sum = Sum { count: 0, total: 0 };
    let mut c = text::start();
    loop {
        let p = text::next_folded(s, c);
        match p {
            None => {
                return sum;
            }
            Some((x, k)) => {
                sum = and(sum, x);
                c = k;
            }
        }
    }
}

fn put(rt: &impl Print, n: u64, after: &[u8]) -> io::Result<()> {
    rt.print(n)?;
    rt.write_all(after)
}

fn show_counts(rt: &impl Print, n: Counts) -> io::Result<()> {
    put(rt, n.points, b"\t")?;
    put(rt, n.white, b"\t")?;
    put(rt, n.alphabetic, b"\t")?;
    put(rt, n.alphanumeric, b"\t")
}

fn show_place(rt: &impl Print, line: &[u8]) -> io::Result<()> {
    let p = content::name_place(line);
    put(rt, p.end as u64, b"\t")?;
    put(rt, p.start as u64, b"\t")
}

fn show_same(rt: &impl Print, before: &[u8], line: &[u8]) -> io::Result<()> {
    let same = text::same_name(before, line);
    put(rt, one(same), b"\t")?;
    let equal = content::same_parts(before, line);
    put(rt, one(equal), b"\n")
}

fn show_read(rt: &impl Print, line: &[u8]) -> io::Result<()> {
    show_counts(rt, count(line))?;
    let any = text::has_alphanumeric(line);
    put(rt, one(any), b"\t")?;
    let f = folded(line);
    put(rt, f.count, b"\t")?;
    put(rt, f.total, b"\t")
}

fn show_trimmed(rt: &impl Print, line: &[u8], work: &mut [u8]) -> io::Result<()> {
    let r = text::text_outer_trimmed(line);
    put(rt, r.len() as u64, b"\t")?;
    let n = text::put_text_trimmed(work, 0, line);
    put(rt, n as u64, b"\t")
}

fn show_line(rt: &impl Print, before: &[u8], line: &[u8], work: &mut [u8]) -> io::Result<()> {
    show_read(rt, line)?;
    show_trimmed(rt, line, work)?;
    show_place(rt, line)?;
    show_same(rt, before, line)
}

// The place of the first line feed from a place on, or the end.
fn line_end(s: &[u8], at: usize) -> usize
    requires { at ≤ length s.now }
    ensures { (at ≤ result) × (result ≤ length s.now) }
{
    for i in at..s.len() {
        if s[i] == b'\n' {
            return i;
        }
    }
    s.len()
}

fn show_lines(rt: &impl Print, s: &[u8], work: &mut [u8]) -> io::Result<()> {
    let mut from = 0;
    let mut to = 0;
    let mut at = 0;
    while at < s.len() {
        let end = line_end(s, at);
        show_line(rt, &s[from..to], &s[at..end], work)?;
        from = at;
        to = end;
        at = end + 1;
    }
    Ok(())
}

fn main(rt: HostRuntime) -> io::Result<()> {
    let mut space = host::large_buffer();
    let mut work = host::large_buffer();
    let n = host::read_full(&mut rt.stdin(), &mut space)?;
    show_lines(&rt, &space[..n], &mut work)
}
