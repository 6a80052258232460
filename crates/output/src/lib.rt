// Writers that take a position and hand on the next one. A text that does not fit leaves the position one past the
// buffer's length, where nothing is written, so writers follow one another with no test between.
#![tactic(auto)]

ghost use Rattle.std.specs.Prelude.{drop, ◌≡◌, [], ◌∷◌, ◌+◌, ◌≤◌, ◌<◌, leb, length};
ghost use Rattle.rules.specs.Basic.{decimal};
ghost use Rattle.rules.specs.Sheet.{escape_char, escape, refused_line};
ghost use Rattle.output.specs.Put.{Put, tabbed};
ghost use Rattle.output.specs.Writes.{Writer, Written};
ghost use Rattle.output.specs.Runs.{is_plain, is_copied, all_of, PlainTo};

pub fn put_byte(out: &mut [u8], at: usize, b: u8) -> usize
    ensures { Put (b ∷ []) out.old at out.new result }
{
    if at < out.len() {
        out[at] = b;
        at + 1
    } else {
        out.len() + 1
    }
}

// Whether k bytes from a place on lie within n.
fn has_room(n: usize, at: usize, k: usize) -> bool
    ensures { result ≡ leb (at + k) n }
{
    at <= n && k <= n - at
}

// A text for which there is room.
fn copy_in(out: &mut [u8], at: usize, w: &[u8])
    requires { at + length w.now ≤ length out.old }
    ensures { Put w.now out.old at out.new (at + length w.now) }
{
    let mut i = 0;
    while i < w.len() {
        out[at + i] = w[i];
        i += 1;
    }
}

pub fn put_bytes(out: &mut [u8], at: usize, w: &[u8]) -> usize
    ensures { Put w.now out.old at out.new result }
{
    if has_room(out.len(), at, w.len()) {
        let end = at + w.len();
        copy_in(out, at, w);
        return end;
    }
    // as far as there is room
    if at < out.len() {
        let room = out.len() - at;
        copy_in(out, at, &w[..room]);
    }
    out.len() + 1
}

// The number in decimal.
pub fn put_decimal(out: &mut [u8], at: usize, n: u32) -> usize
    ensures { Put (decimal n) out.old at out.new result }
{
    if n < 10 {
        return put_byte(out, at, 48 + (n as u8));
    }
    let m = put_decimal(out, at, n / 10);
    put_byte(out, m, 48 + ((n % 10) as u8))
}

// A backslash and a letter.
fn put_pair(out: &mut [u8], at: usize, letter: u8) -> usize
    ensures { Put (92 ∷ letter ∷ []) out.old at out.new result }
{
    let n = put_byte(out, at, b'\\');
    put_byte(out, n, letter)
}

// Whether a byte is seen at a glance to need no escape.
fn is_plain(c: u8) -> bool
    ensures { result ≡ is_plain c }
{
    (13 < c) & (c != b'\\')
}

// A byte that is not seen at a glance to need no escape.
fn put_escape(out: &mut [u8], at: usize, c: u8) -> usize
    ensures { Put (escape_char c) out.old at out.new result }
{
    match c {
        b'\\' => put_pair(out, at, b'\\'),
        b'\t' => put_pair(out, at, b't'),
        b'\n' => put_pair(out, at, b'n'),
        b'\r' => put_pair(out, at, b'r'),
        _ => put_byte(out, at, c),
    }
}

// One byte of a field, escaped.
fn put_escaped_byte(out: &mut [u8], at: usize, c: u8) -> usize
    ensures { Put (escape_char c) out.old at out.new result }
{
    if is_plain(c) {
        return put_byte(out, at, c);
    }
    put_escape(out, at, c)
}

// A field, escaped byte by byte: for short fields.
fn put_each_escaped(out: &mut [u8], at: usize, f: &[u8]) -> usize
    ensures { Put (escape f.now) out.old at out.new result }
{
    let mut n = at;
    for &c in f {
        n = put_escaped_byte(out, n, c);
    }
    if n <= out.len() { n } else { out.len() + 1 }
}

// Whether all bytes are; every byte is asked, so that the machine can ask many at once.
fn all_plain(f: &[u8]) -> bool
    ensures { result ≡ all_of is_plain f.now }
{
    let mut plain = true;
    for &c in f {
        plain &= is_plain(c);
    }
    plain
}

// Where pieces of so many bytes from a place on end that need no escape.
fn plain_pieces(f: &[u8], at: usize, size: usize) -> usize
    requires { (at ≤ length f.now) × (0 < size) }
    ensures { PlainTo f.now at result }
{
    let mut i = at;
    while size <= f.len() - i {
        let e = i + size;
        if !all_plain(&f[i..e]) {
            return i;
        }
        i = e;
    }
    i
}

// Whether a byte needs no escape, VT and FF among them, which a glance does not tell.
fn is_copied(c: u8) -> bool
    ensures { result ≡ is_copied c }
{
    (10 < c) & (c != b'\r') & (c != b'\\')
}

// How many of 32 bytes stand before the first that needs an escape; every byte is asked, as above.
fn copied_run(w: &[u8]) -> usize
    requires { length w.now ≡ 32 }
    ensures { PlainTo w.now 0 result }
{
    let mut k: u8 = 32;
    for j in 0..w.len() {
        let s = if is_copied(w[j]) { 32 } else { j as u8 };
        if s < k {
            k = s;
        }
    }
    k as usize
}

// Where bytes from a place on end that need no escape, near the end of a text.
fn plain_tail(f: &[u8], at: usize) -> usize
    requires { at ≤ length f.now }
    ensures { PlainTo f.now at result }
{
    let a = plain_pieces(f, at, 4);
    for i in a..f.len() {
        if !is_copied(f[i]) {
            return i;
        }
    }
    f.len()
}

// Where bytes from a place on end that need no escape. Most are told at a glance, sixteen at a time; where that ends,
// the next escape is looked for, thirty-two at a time.
fn plain_end(f: &[u8], at: usize) -> usize
    requires { at ≤ length f.now }
    ensures { PlainTo f.now at result }
{
    let mut i = plain_pieces(f, at, 16);
    while 32 <= f.len() - i {
        let e = i + 32;
        let k = copied_run(&f[i..e]);
        if k < 32 {
            return i + k;
        }
        i = e;
    }
    plain_tail(f, i)
}

// A field, escaped: what needs no escape is copied as it stands.
pub fn put_escaped(out: &mut [u8], at: usize, f: &[u8]) -> usize
    ensures { Put (escape f.now) out.old at out.new result }
{
    let mut n = at;
    let mut i = 0;
    let mut e = plain_end(f, 0);
    while e < f.len() {
        let m = put_bytes(out, n, &f[i..e]);
        n = put_escape(out, m, f[e]);
        i = e + 1;
        e = plain_end(f, i);
    }
    put_bytes(out, n, &f[i..e])
}

// A further field of a line: a tab and the field, escaped.
pub fn put_field(out: &mut [u8], at: usize, f: &[u8]) -> usize
    ensures { Put (tabbed (f.now ∷ [])) out.old at out.new result }
{
    let n = put_byte(out, at, b'\t');
    put_each_escaped(out, n, f)
}

// A further field that is a number.
pub fn put_number(out: &mut [u8], at: usize, n: u32) -> usize
    ensures { Put (tabbed (decimal n ∷ [])) out.old at out.new result }
{
    let m = put_byte(out, at, b'\t');
    put_decimal(out, m, n)
}

// The line of a refusal at the front of the unwritten rest of the output: how many bytes it took, or one more than
// the rest has where it does not fit.
pub fn write_refusal(rest: &mut [u8], number: u32, line: u32) -> usize
    ensures { Put (refused_line number line) rest.old 0 rest.new result }
{
    let a = put_bytes(rest, 0, b"refused");
    let b = put_number(rest, a, number);
    let c = put_number(rest, b, line);
    put_byte(rest, c, b'\n')
}

// A line's writer at a position of the output: it is lent the rest from there on.
pub fn put_line<F: FnOnce(&mut [u8]) -> usize>(out: &mut [u8], at: usize, write: F) -> usize
    requires { Writer F.FnOnce write (drop at out.old) }
    ensures { Written F.FnOnce write out.old at out.new result }
{
    if out.len() < at {
        return out.len() + 1;
    }
    at + write(&mut out[at..])
}

// The same at a position of the output: the rest from there on is lent.
pub fn put_refusal(out: &mut [u8], at: usize, number: u32, line: u32) -> usize
    ensures { Put (refused_line number line) out.old at out.new result }
{
    put_line(out, at, |rest: &mut [u8]| write_refusal(rest, number, line))
}
