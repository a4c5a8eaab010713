//! Arguments that ask for a run in rounds, shown.
ghost use Rattle.std.specs.Prelude.{◌≡◌, ◌≢◌, ◌≤◌, ◌∷◌, [], false, ℕ, List, None, Some, IfSome, map, string_bytes};
ghost use Rattle.std.specs.List.{before_first, after_first};
ghost use Rattle.lwkt_ffi.specs.Arguments.{is_stop, IsBound, IsRange, no_end, IsRendering, range_word, has_range, Choose, Say, AreOptions};

use lwkt_show::{Counted, Options, Rendering};

// All turns, or rounds, from one to another.
#[derive(Clone, Copy)]
struct Range {
    counted: Counted,
    first: usize,
    last: usize,
}

const ALL: Range = Range {
    counted: Counted::Turns,
    first: 0,
    last: usize::MAX,
};

// One end of a range of turns or rounds, or what stands for one that is left out.
fn bound(text: &str, without: usize) -> Option<usize>
    ensures some { IfSome result (λ n. IsBound without text.now n) }
    ensures only { (n : ℕ) → IsBound without text.now n → result ≡ Some n }
{
    if text.is_empty() {
        return Some(without);
    }
    text.parse::<usize>().ok()
}

// What a word says is counted by the range behind it.
fn counted_by(word: &str) -> Option<Counted>
    ensures some { IfSome result (λ counted. word.now ≡ range_word counted) }
    ensures only { (counted : Counted) → word.now ≡ range_word counted → result ≡ Some counted }
{
    match word {
        "--turns" => Some(Counted::Turns),
        "--rounds" => Some(Counted::Rounds),
        _ => None,
    }
}

// What stands before the two full stops of a range, and behind them.
fn ends_of(text: &str) -> Option<(&str, &str)>
    ensures some { IfSome result (λ ends. (ends.0.now ≡ before_first is_stop text.now) × (after_first is_stop text.now ≡ 46 ∷ ends.1.now)) }
    ensures only { result ≡ None → (to : List ℕ) → after_first is_stop text.now ≢ 46 ∷ to }
{
    let (from, rest) = text.split_once('.')?;
    let to = rest.strip_prefix('.')?;
    Some((from, to))
}

// The range `A..B`.
fn range_of(counted: Counted, text: &str) -> Option<Range>
    ensures some { IfSome result (λ range. (range.counted ≡ counted) × IsRange text.now range.first range.last) }
    ensures only { (first last : ℕ) → IsRange text.now first last → result ≡ Some (record { counted = counted; first = first; last = last }) }
{
    let (from, to) = ends_of(text)?;
    Some(Range {
        counted,
        first: bound(from, 0)?,
        last: bound(to, usize::MAX)?,
    })
}

// The view that a word asks for.
fn rendering_by(word: &str) -> Option<Rendering>
    ensures some { IfSome result (λ rendering. IsRendering word.now rendering) }
    ensures only { (rendering : Rendering) → IsRendering word.now rendering → result ≡ Some rendering }
{
    match word {
        "--trace" => Some(Rendering::Trace),
        "--svg" => Some(Rendering::Picture),
        "--chains" => Some(Rendering::Chains),
        _ => None,
    }
}

// Whether a view is of turns that are chosen, and not of the whole run.
fn has_range(rendering: Rendering) -> bool
    ensures { result ≡ has_range rendering }
{
    matches!(
        rendering,
        Rendering::Lines | Rendering::Picture | Rendering::Player | Rendering::Timeline
    )
}

// The options of a range and a view, if the range rises, and is that of the whole run where the view is.
fn options_for(range: Range, rendering: Rendering) -> Option<Options>
    ensures some { IfSome result (λ options. (options ≡ record { rendering = rendering; counted = range.counted; first = range.first; last = range.last }) × (options.first ≤ options.last) × (has_range rendering ≡ false → (range.first ≡ 0) × (range.last ≡ no_end))) }
    ensures only { range.first ≤ range.last → (has_range rendering ≡ false → (range.first ≡ 0) × (range.last ≡ no_end)) → result ≡ Some (record { rendering = rendering; counted = range.counted; first = range.first; last = range.last }) }
{
    let Range {
        counted,
        first,
        last,
    } = range;
    if first > last {
        return None;
    }
    if !has_range(rendering) && !(first == 0 && last == usize::MAX) {
        return None;
    }
    Some(Options {
        rendering,
        counted,
        first,
        last,
    })
}

// The options of a range and a view.
fn ranged(word: &str, text: &str, rendering: Rendering) -> Option<Options>
    ensures some { IfSome result (λ options. Choose word.now text.now options × (options.rendering ≡ rendering) × (options.first ≤ options.last) × (has_range rendering ≡ false → (options.first ≡ 0) × (options.last ≡ no_end))) }
    ensures only { (options : Options) → Choose word.now text.now options → options.rendering ≡ rendering → options.first ≤ options.last → (has_range rendering ≡ false → (options.first ≡ 0) × (options.last ≡ no_end)) → result ≡ Some options }
{
    let counted = counted_by(word)?;
    let range = range_of(counted, text)?;
    options_for(range, rendering)
}

// The options of a range and a view, in either order.
fn both(first: &str, second: &str, third: &str) -> Option<Options>
    ensures some { IfSome result (λ options. Say (first.now ∷ second.now ∷ third.now ∷ []) options × (options.first ≤ options.last) × (has_range options.rendering ≡ false → (options.first ≡ 0) × (options.last ≡ no_end))) }
    ensures only { (options : Options) → Say (first.now ∷ second.now ∷ third.now ∷ []) options → options.first ≤ options.last → (has_range options.rendering ≡ false → (options.first ≡ 0) × (options.last ≡ no_end)) → result ≡ Some options }
{
    if let Some(rendering) = rendering_by(first) {
        return ranged(second, third, rendering);
    }
    let rendering = rendering_by(third)?;
    ranged(first, second, rendering)
}

// The options of the words behind `turns`.
pub(crate) fn read_options(words: &[String]) -> Option<Options>
    ensures some { IfSome result (λ options. Say (map string_bytes words.now) options × (options.first ≤ options.last) × (has_range options.rendering ≡ false → (options.first ≡ 0) × (options.last ≡ no_end))) }
    ensures only { (options : Options) → Say (map string_bytes words.now) options → options.first ≤ options.last → (has_range options.rendering ≡ false → (options.first ≡ 0) × (options.last ≡ no_end)) → result ≡ Some options }
{
    match words {
        [] => options_for(ALL, Rendering::Lines),
        [rendering] => options_for(ALL, rendering_by(rendering.as_str())?),
        [word, text] => ranged(word.as_str(), text.as_str(), Rendering::Lines),
        [first, second, third] => both(first.as_str(), second.as_str(), third.as_str()),
        _ => None,
    }
}

/// The options that the arguments are: `turns`, then any of a range and one of `--svg`, `--trace` and `--chains`. The range is
/// `--turns A..B` or `--rounds A..B`, with A at most B; either may be left out. A trace and chains are always of the whole run.
/// `None` exactly if the arguments are no such ones.
pub fn options_of(words: &[String]) -> Option<Options>
    ensures some { IfSome result (λ options. AreOptions (map string_bytes words.now) options) }
    ensures only { (options : Options) → AreOptions (map string_bytes words.now) options → result ≡ Some options }
{
    let (first, rest) = words.split_first()?;
    if first.as_str() != "turns" {
        return None;
    }
    read_options(rest)
}
