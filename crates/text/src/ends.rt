// The end of a field without the characters that a trimming drops there.
ghost use Rattle.text.specs.Trims.{drops_of, EndAt, LastOf};

use super::Dropped;

// What the last bytes of a field tell without those before them: the last character stays, or it goes and starts at a place.
#[derive(Clone, Copy)]
pub(crate) enum Last {
    Stays,
    Goes(usize),
    Unclear,
}

// After a backslash, and where the bytes are no UTF-8, it is unclear.
pub(crate) fn last_of(s: &[u8], d: Dropped) -> Last
    ensures { LastOf (drops_of d) s.now result }
{
    if s.len() < 1 {
        return Last::Unclear;
    }
    let i = fronts::last_start(s);
    if 0 < i {
        if s[i - 1] == b'\\' {
            return Last::Unclear;
        }
    }
    let c = content::char_in(s, i);
    if i + c.size < s.len() {
        return Last::Unclear;
    }
    if super::is_dropped(d, c.code) {
        return Last::Goes(i);
    }
    Last::Stays
}

// The place after the last character that stays, with each character read from the start on.
#[tactic(auto, using(content::proofs::Compare::sizes))]
pub(crate) fn forward_end(s: &[u8], d: Dropped) -> usize
    ensures { EndAt (drops_of d) s.now result }
{
    let mut end = 0;
    let mut at = 0;
    while at < s.len() {
        let c = content::char_in(s, at);
        at += c.size;
        if !super::is_dropped(d, c.code) {
            end = at;
        }
    }
    end
}
