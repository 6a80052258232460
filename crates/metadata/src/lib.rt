// `meta` lines: the modes that they set, findings 1 and 2, and the lines that count for 3.
#![tactic(auto)]

ghost use Rattle.std.specs.Prelude.{◌≡◌, ◌+◌, ◌<◌, false};
ghost use Rattle.rules.specs.Finding.{found, found_two};
ghost use Rattle.parts.specs.Views.{span_in, TextWithin};
ghost use Rattle.model.specs.Rows.{finding_of};
ghost use Rattle.metadata.specs.Metas.{OrdinaryCounted, MetaDone};
ghost use Rattle.model.specs.declared.layout.TheConstants.{MOST_FINDINGS};

use memory::Memory;
use model::{Held, Noted};
use parts::{Span, TextView};
use sheet::{Define, Duplicate};

// 1, config value.
fn wrong_value(key: Span, value: Span) -> Noted
    ensures { finding_of result ≡ found_two 1 (span_in value) (span_in key) false }
{
    model::two_spans(1, value.start, value.end, key.start, key.end, false)
}

// 2, config key.
fn unknown_key(key: Span) -> Noted
    ensures { finding_of result ≡ found 2 (span_in key) }
{
    model::one_span(2, key.start, key.end, false)
}

// An ordinary line, which counts for 3.
fn count_ordinary(mut h: Held) -> Held
    requires { h.counts.old < 100000 }
    ensures { OrdinaryCounted h result }
{
    h.counts.old += 1;
    h
}

pub fn on_meta(flags: u32, line: &[u8], key: TextView, value: TextView, memory: &mut Memory)
    requires { TextWithin line.now key × TextWithin line.now value × (memory.old.held.counts.findings < MOST_FINDINGS) × (memory.old.held.counts.old < 100000) }
    ensures done { MetaDone flags line.now key value memory.old.words.now memory.old.held memory.new.words.now memory.new.held }
    ensures lent { memory.new.words.ghost_name ≡ memory.old.words.ghost_name }
{
    let odd = flags % 2;
    if odd == 1 {
        let k = parts::part_of(line, key.content);
        let v = parts::part_of(line, value.content);
        match config_keys::key_of(k) {
            config_keys::Key::Define => {
                match config_keys::define_value(v) {
                    Some(define) => memory.held = model::with_define(memory.held, define),
                    None => memory.push_finding(wrong_value(key.span, value.span)),
                }
            }
            config_keys::Key::Duplicate => {
                match config_keys::duplicate_value(v) {
                    Some(duplicate) => memory.held = model::with_duplicate(memory.held, duplicate),
                    None => memory.push_finding(wrong_value(key.span, value.span)),
                }
            }
            config_keys::Key::Unknown => {
                memory.push_finding(unknown_key(key.span));
            }
            config_keys::Key::Ordinary => {
                memory.held = count_ordinary(memory.held);
            }
        }
    } else {
        memory.held = count_ordinary(memory.held);
    }
}
