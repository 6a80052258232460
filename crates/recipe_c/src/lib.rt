// The library for C: what include/recipe.h names, each a call of crates/recipe with its clauses.
#![tactic(auto)]

ghost use Rattle.std.specs.Prelude.{◌≡◌};
ghost use Rattle.rules.specs.Input.{input_of};
ghost use Rattle.rules.specs.Answer.{words_needed, bytes_needed, collect_answer, plain_answer};
ghost use Rattle.recipe.specs.Answers.{Coded, usable_lent, lent_of};

#[unsafe(no_mangle)]
pub extern "C" fn recipe_words() -> usize
    ensures { result ≡ words_needed }
{
    recipe::recipe_words()
}

#[unsafe(no_mangle)]
pub extern "C" fn recipe_bytes() -> usize
    ensures { result ≡ bytes_needed }
{
    recipe::recipe_bytes()
}

#[unsafe(no_mangle)]
pub extern "C" fn recipe_collect(
    sheet: &[u8],
    text: &[u8],
    units: &[u8],
    flags: u32,
    words: &mut [u32],
    bytes: &mut [u8],
    out: &mut [u8],
) -> u64
    ensures { Coded (collect_answer (input_of sheet.now text.now units.now flags) (usable_lent (lent_of words.old bytes.old out.old))) (lent_of words.old bytes.old out.old) words.new bytes.new out.new result }
{
    recipe::recipe_collect(sheet, text, units, flags, words, bytes, out)
}

#[unsafe(no_mangle)]
pub extern "C" fn recipe_plain_form(
    sheet: &[u8],
    text: &[u8],
    units: &[u8],
    flags: u32,
    words: &mut [u32],
    bytes: &mut [u8],
    out: &mut [u8],
) -> u64
    ensures { Coded (plain_answer (input_of sheet.now text.now units.now flags) (usable_lent (lent_of words.old bytes.old out.old))) (lent_of words.old bytes.old out.old) words.new bytes.new out.new result }
{
    recipe::recipe_plain_form(sheet, text, units, flags, words, bytes, out)
}
