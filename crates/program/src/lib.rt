// What the programs `collect` and `plain_form` do: they read `recipe.cook`, `units.tsv`, `flags` and `events.tsv` in the folder
// that they run in, and print the recipe page or the plain form, or the line of a refusal. A file that cannot be read is
// named on standard error, and nothing is printed. The output that they lend has 1,048,576 bytes (1 MiB); a longer page is
// refused with 20.
#![tactic(auto)]

ghost use Rattle.std.specs.Prelude.{◌≤◌, ◌≡◌, length, replicate, take};
ghost use Rattle.std.specs.Io.{ReadsAtMost};
ghost use Rattle.recipe.specs.Answers.{lent_of};
ghost use Rattle.program.specs.Prints.{AnswerPrinted};
ghost use Rattle.rules.specs.Input.{input_of};
ghost use Rattle.inputs.specs.declared.TheConstants.{WORDS};

use std::rt::Files;
use std::{fs, io};

// What a program prints, at the front of the output, and how much: of the page, or of the plain form.
fn answer(
    plain: bool,
    sheet: &[u8],
    text: &[u8],
    units: &[u8],
    flags: u32,
    words: &mut [u32],
    bytes: &mut [u8],
    out: &mut [u8],
) -> usize
    requires { 30 ≤ length out.old }
    ensures { AnswerPrinted plain (input_of sheet.now text.now units.now flags) (lent_of words.old bytes.old out.old) out.new result }
{
    if plain {
        let f = recipe::plain_form(sheet, text, units, flags, words, bytes, out);
        return answers::print_answer(f, out);
    }
    let r = recipe::collect(sheet, text, units, flags, words, bytes, out);
    answers::print_answer(r, out)
}

// Room for a file: one byte more than its limit, so that a longer file is seen to be longer.
fn sheet_room() -> [u8; 65537]
    ensures { (65537 ≡ length result) × (result ≡ replicate 65537 0) }
{
    [0; 65537]
}

fn text_room() -> [u8; 65536]
    ensures { (65536 ≡ length result) × (result ≡ replicate 65536 0) }
{
    [0; 65536]
}

fn units_room() -> [u8; 16385]
    ensures { (16385 ≡ length result) × (result ≡ replicate 16385 0) }
{
    [0; 16385]
}

// What is lent.
fn words_room() -> [u32; inputs::WORDS]
    ensures { (WORDS ≡ length result) × (result ≡ replicate WORDS 0) }
{
    [0; inputs::WORDS]
}

fn out_room() -> [u8; 1048576]
    ensures { (1048576 ≡ length result) × (result ≡ replicate 1048576 0) }
{
    [0; 1048576]
}

fn print_answer(
    rt: &impl Print,
    plain: bool,
    sheet: &[u8],
    text: &[u8],
    units: &[u8],
    flags: u32,
) -> io::Result<()> {
    let mut words = words_room();
    let mut bytes = text_room();
    let mut out = out_room();
    let n = answer(
        plain, sheet, text, units, flags, &mut words, &mut bytes, &mut out,
    );
    rt.write_all(&out[..n])
}

// How many bytes of a file were read, at the front of the room: until the room is full or the file
// ends.
fn read_all(rt: &impl Files, name: &str, room: &mut [u8]) -> io::Result<usize>
    ensures { ReadsAtMost result room.new }
{
    let mut file = fs::open(rt, name)?;
    host::read_full(&mut file, room)
}

// The same; a file that cannot be read is named on standard error.
fn read_file(rt: &(impl Files + Eprint), name: &str, room: &mut [u8]) -> io::Result<usize>
    ensures { ReadsAtMost result room.new }
{
    let got = read_all(rt, name, room);
    if got.is_err() {
        eprintln!(rt; "{name} cannot be read")?;
    }
    got
}

// The first n bytes of a room.
fn front<'a>(room: &'a [u8], n: usize) -> &'a [u8]
    requires { n ≤ length room.now }
    ensures { result.now ≡ take n room.now }
{
    &room[..n]
}

// The files, one after the other; what was read is handed on.
fn with_flags(
    rt: &(impl Files + Print + Eprint),
    plain: bool,
    text: &[u8],
    units: &[u8],
    flags: u32,
) -> io::Result<()> {
    let mut room = sheet_room();
    let n = read_file(rt, "events.tsv", &mut room)?;
    print_answer(rt, plain, front(&room, n), text, units, flags)
}

fn with_units(
    rt: &(impl Files + Print + Eprint),
    plain: bool,
    text: &[u8],
    units: &[u8],
) -> io::Result<()> {
    let mut room = [0u8; 2];
    let n = read_file(rt, "flags", &mut room)?;
    with_flags(rt, plain, text, units, inputs::read_flags(front(&room, n)))
}

fn with_text(rt: &(impl Files + Print + Eprint), plain: bool, text: &[u8]) -> io::Result<()> {
    let mut room = units_room();
    let n = read_file(rt, "units.tsv", &mut room)?;
    with_units(rt, plain, text, front(&room, n))
}

// A program: the plain form, or the page.
pub fn run(rt: &(impl Files + Print + Eprint), plain: bool) -> io::Result<()> {
    let mut room = text_room();
    let n = read_file(rt, "recipe.cook", &mut room)?;
    with_text(rt, plain, front(&room, n))
}
