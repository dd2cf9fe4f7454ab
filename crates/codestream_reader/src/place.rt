// Where the bytes of a packet's code-blocks stand.
ghost use Rattle.std.specs.Prelude.{◌≡◌, ◌+◌, ◌<◌, ◌^◌, ℕ, length, map, sum_by, get_or};
ghost use Rattle.std.specs.List.{All, AllPairs, Contains};
ghost use Rattle.packet_headers.specs.declared.entry.Entry.{Entry};
ghost use Rattle.codestream_reader.specs.Spans.{no_span, spans_from};

use crate::span::BlockSpan;
use packet_headers::Entry;

/// Sets the spans of these numbers: they have these entries, and their bytes follow on one another
/// from the place `from` on.
pub(crate) fn place_blocks(numbers: &[u32], entries: &[Entry], from: u32, spans: &mut [BlockSpan])
    requires count { length entries.now ≡ length numbers.now }
    requires numbers { All (λ n. n < length spans.old) numbers.now }
    requires apart { AllPairs (λ a b. a ≡ b → ⊥) numbers.now }
    requires places { from + sum_by (λ (e : Entry). e.len) entries.now < 2 ^ 32 }
    ensures stand { map (λ n. get_or spans.new n no_span) numbers.now
        ≡ spans_from from entries.now }
    ensures others { (n : ℕ) → (Contains numbers.now n → ⊥) →
        get_or spans.new n no_span ≡ get_or spans.old n no_span }
    ensures count { length spans.new ≡ length spans.old }
{
    let mut at = from;
    for i in 0..numbers.len() {
        let entry = entries[i];
        spans[numbers[i] as usize] = BlockSpan { entry, at };
        at += entry.len;
    }
}
