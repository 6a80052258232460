// Runs the collection and the plain form on every case of the fixed list of answers (data/README.md) and compares the page,
// the form or the refusal, byte for byte, with what is stored; and after each call all work memory and the output past the
// answer have to be zero. It prints how many cases there are, how many pages, how many of these without a recipe, how many
// were refused by each number, and how many differ; then the same of the forms, and how many are other than the sheet.
#![tactic(auto)]

ghost use Rattle.std.specs.Prelude.{◌≡◌, ◌<◌, length};
ghost use Rattle.inputs.specs.declared.TheConstants.{WORDS};

use answers::Answer;
use refusals::Refusal;
use std::io;
use std::rt::Files;
use stored_cases::{Case, Place, bytes_named, part, part_named, show, starts};

// Places in a list of counts: all pages or forms, refused by 1 to 24, pages without a recipe, forms other than the sheet, all
// cases, those that differ.
const GIVEN: usize = 0;

const WITHOUT: usize = 25;

const CHANGED: usize = 26;

const CASES: usize = 27;

const DIFFERENT: usize = 28;

fn add(counts: &mut [u64; 29], i: usize) {
    if i < 29 {
        let n = counts[i];
        if n < 1000000 {
            counts[i] = n + 1;
        }
    }
}

fn count_of(counts: &[u64; 29], i: usize) -> u64 {
    if i < 29 {
        return counts[i];
    }
    0
}

// ---- what has to be zero

fn is_cleared(r: Answer, words: &[u32], bytes: &[u8], out: &[u8]) -> bool {
    let n = r.unwrap_or(0);
    n <= out.len()
        && words.iter().all(|w| *w == 0)
        && bytes.iter().all(|b| *b == 0)
        && out[n..].iter().all(|b| *b == 0)
}

// ---- a case

fn is_refusal(f: Refusal, stored: &[u8]) -> bool {
    let mut out = host::buffer();
    let n = output::write_refusal(&mut out, f.reason.number(), f.line);
    sheet::same_bytes(part(&out, 0, n), stored)
}

fn is_stored(r: Answer, out: &[u8], stored: &[u8]) -> bool {
    match r {
        Ok(n) => sheet::same_bytes(part(out, 0, n), stored),
        Err(f) => is_refusal(f, stored),
    }
}

fn count_page(out: &[u8], counts: &mut [u64; 29]) {
    add(counts, GIVEN);
    if starts(out, b"recipe\tno\n") {
        add(counts, WITHOUT);
    }
}

fn count_form(form: &[u8], sheet: &[u8], counts: &mut [u64; 29]) {
    add(counts, GIVEN);
    if !sheet::same_bytes(form, sheet) {
        add(counts, CHANGED);
    }
}

fn count_refused(f: Refusal, counts: &mut [u64; 29]) {
    add(counts, f.reason.number() as usize);
}

fn count_answer(plain: bool, r: Answer, sheet: &[u8], out: &[u8], counts: &mut [u64; 29]) {
    add(counts, CASES);
    match r {
        Ok(n) => {
            if plain {
                count_form(part(out, 0, n), sheet, counts);
                return;
            }
            count_page(out, counts);
        }
        Err(f) => count_refused(f, counts),
    }
}

// The page of a case, or its plain form. An input that is absent has no bytes.
fn answer(
    plain: bool,
    s: &[u8],
    c: Case,
    words: &mut [u32],
    bytes: &mut [u8],
    out: &mut [u8],
) -> Answer {
    let sheet = bytes_named(s, c, b"sheet");
    let text = bytes_named(s, c, b"text");
    let units = bytes_named(s, c, b"units");
    let flags = inputs::read_flags(bytes_named(s, c, b"flags"));
    if plain {
        return recipe::plain_form(sheet, text, units, flags, words, bytes, out);
    }
    recipe::collect(sheet, text, units, flags, words, bytes, out)
}

// Where the page or the form that is stored of it stands.
fn stored(plain: bool, s: &[u8], c: Case) -> Option<Place> {
    if plain {
        return part_named(s, c, b"plain");
    }
    part_named(s, c, b"collect")
}

// A case, with as much output as it says; whether all is as it has to be. Where its page or its form is absent, nothing is
// stored, and it is neither run nor counted.
fn replay(
    plain: bool,
    s: &[u8],
    c: Case,
    words: &mut [u32],
    bytes: &mut [u8],
    out: &mut [u8],
    counts: &mut [u64; 29],
) -> bool {
    let Some(p) = stored(plain, s, c) else {
        return true;
    };
    let r = answer(plain, s, c, words, bytes, out);
    count_answer(plain, r, bytes_named(s, c, b"sheet"), out, counts);
    if !is_stored(r, out, part(s, p.from, p.to)) {
        return false;
    }
    is_cleared(r, words, bytes, out)
}

fn replay_in(
    plain: bool,
    s: &[u8],
    c: Case,
    words: &mut [u32],
    bytes: &mut [u8],
    out: &mut [u8],
    counts: &mut [u64; 29],
) {
    let room = c.room;
    if out.len() < room {
        add(counts, DIFFERENT);
        return;
    }
    if !replay(plain, s, c, words, bytes, &mut out[0..room], counts) {
        add(counts, DIFFERENT);
    }
}

// ---- files

// All cases of a file. What is not as the format says counts as different, and nothing after it is read.
fn replay_all(
    plain: bool,
    s: &[u8],
    words: &mut [u32],
    bytes: &mut [u8],
    out: &mut [u8],
    counts: &mut [u64; 29],
) {
    let mut at = 0;
    while at < s.len() {
        let Some(c) = stored_cases::case_at(s, at) else {
            add(counts, DIFFERENT);
            return;
        };
        replay_in(plain, s, c, words, bytes, out, counts);
        let next = stored_cases::next_case(s, c);
        if next <= at {
            return;
        }
        at = next;
    }
}

// What is lent.
fn words_room() -> [u32; inputs::WORDS]
    ensures { WORDS ≡ length result }
{
    [0; inputs::WORDS]
}

fn bytes_room() -> [u8; 65536]
    ensures { 65536 ≡ length result }
{
    [0; 65536]
}

fn out_room() -> [u8; 1048576]
    ensures { 1048576 ≡ length result }
{
    [0; 1048576]
}

fn replay_file(rt: &impl Files, plain: bool, name: &str, counts: &mut [u64; 29]) -> io::Result<()> {
    let mut space = stored_cases::room();
    let mut words = words_room();
    let mut bytes = bytes_room();
    let mut out = out_room();
    let n = stored_cases::read_file(rt, name, &mut space)?;
    replay_all(
        plain,
        part(&space, 0, n),
        &mut words,
        &mut bytes,
        &mut out,
        counts,
    );
    Ok(())
}

fn replay_files(rt: &impl Files, plain: bool, counts: &mut [u64; 29]) -> io::Result<()> {
    replay_file(rt, plain, "paper.txt", counts)?;
    replay_file(rt, plain, "decisions.txt", counts)?;
    replay_file(rt, plain, "generated.txt", counts)?;
    replay_file(rt, plain, "limits.txt", counts)
}

// How many were refused by each number, to `last`, each after these words.
fn show_refused(rt: &impl Print, words: &[u8], counts: &[u64; 29], last: usize) -> io::Result<()>
    requires { last < 29 }
{
    for i in 1..last + 1 {
        rt.write_all(words)?;
        rt.print(i)?;
        show(rt, b": ", count_of(counts, i))?;
    }
    Ok(())
}

fn show_pages(rt: &impl Print, counts: &[u64; 29]) -> io::Result<()> {
    show(rt, b"cases ", count_of(counts, CASES))?;
    show(rt, b"pages ", count_of(counts, GIVEN))?;
    show(rt, b"without recipe ", count_of(counts, WITHOUT))?;
    show_refused(rt, b"refused ", counts, 20)?;
    show(rt, b"different ", count_of(counts, DIFFERENT))
}

fn show_forms(rt: &impl Print, counts: &[u64; 29]) -> io::Result<()> {
    show(rt, b"plain forms of cases ", count_of(counts, CASES))?;
    show(rt, b"forms ", count_of(counts, GIVEN))?;
    show(rt, b"other than the sheet ", count_of(counts, CHANGED))?;
    show_refused(rt, b"form refused ", counts, 24)?;
    show(rt, b"forms different ", count_of(counts, DIFFERENT))
}

fn main(rt: HostRuntime) -> io::Result<()> {
    let mut pages = [0u64; 29];
    replay_files(&rt, false, &mut pages)?;
    show_pages(&rt, &pages)?;
    let mut forms = [0u64; 29];
    replay_files(&rt, true, &mut forms)?;
    show_forms(&rt, &forms)
}
