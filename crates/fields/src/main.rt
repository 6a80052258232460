// Reads lines of fields from standard input, and writes what the readers and writers of the sheet say of each.
#![tactic(auto)]

ghost use Rattle.std.specs.Prelude.{◌≤◌, length};

use sheet::{BlockKind, ConfigKey, Define, Duplicate, EventWord, NotUnescaped, Signed, ValueKind};
use std::io;

// What a field is as a word of a table: its place there, from 1, or 0 where it is none.
fn place_in<T: Copy + PartialEq>(words: &[T], w: Option<T>) -> u32
    requires { length words.now ≤ 10 }
{
    let Some(word) = w else {
        return 0;
    };
    match words.iter().position(|x| *x == word) {
        None => 0,
        Some(i) => i as u32 + 1,
    }
}

const EVENTS: [EventWord; 10] = [
    EventWord::Meta,
    EventWord::Section,
    EventWord::Start,
    EventWord::End,
    EventWord::Text,
    EventWord::Ingredient,
    EventWord::Cookware,
    EventWord::Timer,
    EventWord::Error,
    EventWord::Warning,
];

const BLOCKS: [BlockKind; 2] = [BlockKind::Step, BlockKind::Text];

const VALUES: [ValueKind; 3] = [ValueKind::Number, ValueKind::Range, ValueKind::Textual];

const KEYS: [ConfigKey; 2] = [ConfigKey::Define, ConfigKey::Duplicate];

const DEFINES: [Define; 4] = [Define::All, Define::Components, Define::Steps, Define::Text];

const DUPLICATES: [Duplicate; 2] = [Duplicate::New, Duplicate::Reference];

// A tab and a word.
fn put_told(out: &mut [u8], at: usize, w: &[u8]) -> usize {
    let a = output::put_byte(out, at, b'\t');
    output::put_bytes(out, a, w)
}

// What the field is as a word of each table.
fn put_words(out: &mut [u8], at: usize, f: &[u8]) -> usize {
    let a = output::put_number(out, at, place_in(&EVENTS, sheet::event_word(f)));
    let b = output::put_number(out, a, place_in(&BLOCKS, sheet::block_kind(f)));
    output::put_number(out, b, place_in(&VALUES, sheet::value_kind(f)))
}

fn put_config_words(out: &mut [u8], at: usize, f: &[u8]) -> usize {
    let a = output::put_number(out, at, place_in(&KEYS, sheet::config_key(f)));
    let b = output::put_number(out, a, place_in(&DEFINES, sheet::define_mode(f)));
    output::put_number(out, b, place_in(&DUPLICATES, sheet::duplicate_mode(f)))
}

// What it is as a number.
fn put_number(out: &mut [u8], at: usize, f: &[u8]) -> usize {
    match sheet::read_number(f) {
        Some(n) => output::put_number(out, at, n),
        None => put_told(out, at, b"bad"),
    }
}

// What it is as a number with a sign.
fn put_signed(out: &mut [u8], at: usize, f: &[u8]) -> usize {
    match sheet::read_signed(f) {
        Some(Signed::Plus(n)) => output::put_number(out, at, n),
        Some(Signed::Minus(n)) => {
            let a = put_told(out, at, b"-");
            output::put_decimal(out, a, n)
        }
        None => put_told(out, at, b"bad"),
    }
}

// Whether its escapes are well formed.
fn put_well(out: &mut [u8], at: usize, f: &[u8]) -> usize {
    if sheet::is_well_escaped(f) {
        return put_told(out, at, b"well");
    }
    put_told(out, at, b"ill")
}

fn put_answer(out: &mut [u8], at: usize, r: Result<usize, NotUnescaped>) -> usize {
    match r {
        Ok(n) => output::put_number(out, at, length_number(n)),
        Err(NotUnescaped::Ill) => put_told(out, at, b"ill"),
        Err(NotUnescaped::NoRoom) => put_told(out, at, b"no room"),
    }
}

// A length that is printed; the lengths here are small.
fn length_number(n: usize) -> u32 {
    if n < 65536 { n as u32 } else { 65536 }
}

// How many bytes it has without its escapes.
fn put_length(out: &mut [u8], at: usize, f: &[u8]) -> usize {
    match sheet::unescaped_len(f) {
        Some(n) => output::put_number(out, at, length_number(n)),
        None => put_told(out, at, b"ill"),
    }
}

// It without its escapes, in a buffer of eight bytes, and that buffer, escaped.
fn put_text(out: &mut [u8], at: usize, f: &[u8]) -> usize {
    let mut space = [b'.'; 8];
    let a = put_answer(out, at, sheet::unescape_into(&mut space, f));
    let b = output::put_byte(out, a, b'\t');
    output::put_escaped(out, b, &space)
}

fn put_values(out: &mut [u8], at: usize, f: &[u8]) -> usize {
    let a = put_number(out, at, f);
    let b = put_signed(out, a, f);
    let c = put_length(out, b, f);
    let d = put_well(out, c, f);
    put_text(out, d, f)
}

// The line of a field: the field as it stands, escaped, and what is said of it.
fn put_report(out: &mut [u8], at: usize, f: &[u8]) -> usize {
    let a = output::put_bytes(out, at, b"field\t");
    let b = output::put_escaped(out, a, f);
    let c = put_words(out, b, f);
    let d = put_config_words(out, c, f);
    let e = put_values(out, d, f);
    output::put_byte(out, e, b'\n')
}

// All fields of a line.
fn put_fields(out: &mut [u8], at: usize, line: &[u8]) -> usize {
    let mut n = output::put_bytes(out, at, b"line\n");
    let mut i = 0;
    while i <= line.len() {
        let f = sheet::field(line, i);
        n = put_report(out, n, f);
        i = i + f.len() + 1;
    }
    n
}

// All lines of a sheet, and what stands after the last LF.
fn put_lines(out: &mut [u8], at: usize, s: &[u8]) -> usize {
    let mut n = at;
    let mut i = 0;
    loop {
        let Some(e) = sheet::line_end(s, i) else {
            n = output::put_bytes(out, n, b"unended ");
            return put_fields(out, n, &s[i..]);
        };
        n = put_fields(out, n, &s[i..e]);
        i = e + 1;
    }
}

// A refusal's line where there is room for it, and where there is not.
fn put_refusals(out: &mut [u8], at: usize) -> usize {
    let a = output::put_refusal(out, at, 10, 4096);
    let b = output::put_refusal(out, a, 7, 0);
    let mut space = [b'.'; 12];
    let r = output::put_refusal(&mut space, 1, 20, 0);
    let c = output::put_escaped(out, b, &space);
    let d = output::put_byte(out, c, b'\n');
    if r == 13 {
        return output::put_bytes(out, d, b"no room\n");
    }
    d
}

fn main(rt: HostRuntime) -> io::Result<()> {
    let mut text = host::large_buffer();
    let n = host::read_full(&mut rt.stdin(), &mut text)?;
    let mut out = host::large_buffer();
    let a = put_lines(&mut out, 0, &text[..n]);
    let b = put_refusals(&mut out, a);
    if b <= 65536 {
        rt.write_all(&out[..b])?;
    }
    Ok(())
}
