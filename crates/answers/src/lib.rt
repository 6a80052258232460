// What an answer is, what is printed of it, and how it is told in one number.
#![tactic(auto)]

ghost use Rattle.std.specs.Prelude.{◌≡◌, ◌≤◌, length};
ghost use Rattle.answers.specs.Answers.{used_of, answer_code, usable_of, page_or20, PrintedAt, ToldPrinted};
ghost use Rattle.answers.specs.Forms.{tells17, form_checked};

use model::Held;
use refusals::{Reason, Refusal};

// The length of the page or of the form at the front of the output, or a refusal.
pub type Answer = Result<usize, Refusal>;

// A page that was written, or 20 where it did not fit.
pub fn hand_out(n: usize, room: usize) -> Answer
    ensures { result ≡ page_or20 n room }
{
    if n <= room {
        return Ok(n);
    }
    Err(Refusal {
        reason: Reason::NoRoom,
        line: 0,
    })
}

// How many bytes of the output an answer hands out.
pub fn used(r: Answer) -> usize
    ensures { result ≡ used_of r }
{
    r.unwrap_or(0)
}

// Whether a pass was refused by 17.
fn tells_17(r: Result<Option<Held>, Refusal>) -> bool
    ensures { result ≡ tells17 r }
{
    matches!(
        r,
        Err(Refusal {
            reason: Reason::OverLimits,
            ..
        })
    )
}

// Which number a form gets whose collection passed a limit: 24, before its room is asked.
pub fn form_checked(r: Result<Option<Held>, Refusal>) -> Result<(), Refusal>
    ensures { result ≡ form_checked r }
{
    if tells_17(r) {
        return Err(Refusal {
            reason: Reason::LongForm,
            line: 0,
        });
    }
    Ok(())
}

// ---- printed

// What is printed of an answer whose refusal is told by any number and line, put at the front of the output: the page or the
// form, which is there already, or the line of the refusal.
pub fn print_told(r: Result<usize, (u32, u32)>, out: &mut [u8]) -> usize
    requires { (used_of r ≤ length out.old) × (30 ≤ length out.old) }
    ensures { ToldPrinted r out.old out.new result }
{
    match r {
        Ok(n) => n,
        Err((number, line)) => output::write_refusal(out, number, line),
    }
}

// What the programs print of an answer.
pub fn print_answer(r: Answer, out: &mut [u8]) -> usize
    requires { (used_of r ≤ length out.old) × (30 ≤ length out.old) }
    ensures { PrintedAt r out.old out.new result }
{
    match r {
        Ok(n) => n,
        Err(f) => print_told(Err((f.reason.number(), f.line)), out),
    }
}

// ---- for C and Rust (include/recipe.h)

// An answer in one number: a page's length, or a refusal's number times 2^32 and its line.
pub fn code(r: Answer) -> u64
    ensures { result ≡ answer_code r }
{
    match r {
        Ok(n) => n as u64,
        Err(f) => (f.reason.number() as u64) * 4294967296 + (f.line as u64),
    }
}

// How much of the output is used: the lower half of an answer holds a page's length.
pub fn usable(room: usize) -> usize
    ensures { (result ≡ usable_of room) × (result ≤ room) }
{
    room.min(4294967295)
}
