//! Head lines, and what stands between them.
ghost use Rattle.std.specs.Prelude.{◌≡◌, ◌<◌, ◌≤◌, ◌+◌, ◌^◌, ◌++◌, drop, length, map, option_map, position, IfSome};
ghost use Rattle.std.specs.Option.{option_to_list};
ghost use Rattle.script_asm.specs.Lines.{lines_of};
ghost use Rattle.script_asm.specs.Views.{line_view, lines_view};
ghost use Rattle.sfn_calls.specs.SectionViews.{section_view};
ghost use Rattle.sfn_calls.specs.Sections.{before, head_name, is_used, sections};

use ffm_model::Name;
use script_asm::{Line, two_words};

/// A head: the place of its line, the name there, and the lines below it, up to the next head.
#[derive(Clone, Copy)]
pub struct Section<'a> {
    pub line: u32,
    pub name: &'a [u8],
    pub texts: &'a [Name],
}

// The service that a line names, where it is a head.
#[tactic(auto, unfolding(crate::specs::Sections::head_name))]
fn head_name<'a>(line: &Line<'a>) -> Option<&'a [u8]>
    ensures { option_map (λ n. n.now) result ≡ head_name (line_view line.now) }
{
    let Line::Order(words) = line else {
        return None;
    };
    let (word, name) = two_words(words.as_slice())?;
    if word == b"sfn".as_slice() {
        Some(name)
    } else {
        None
    }
}

// How many lines stand before the first head.
fn count_before(lines: &[Line<'_>]) -> usize
    ensures count { result ≡ length (before (lines_view lines.now)) }
    ensures within { result ≤ length lines.now }
{
    for (i, line) in lines.iter().enumerate() {
        if head_name(line).is_some() {
            return i;
        }
    }
    lines.len()
}

fn is_used(line: &Line<'_>) -> bool
    ensures { result ≡ is_used (line_view line.now) }
{
    !matches!(line, Line::Passed)
}

fn place_of_used(lines: &[Line<'_>]) -> Option<usize>
    ensures place { result ≡ position (λ l. is_used (line_view l)) lines.now }
    ensures within { IfSome result (λ k. k < length lines.now) }
{
    lines.iter().position(|line| is_used(line))
}

/// The place of the first line before all heads that has words or is a label.
pub fn used_before(lines: &[Line<'_>]) -> Option<usize>
    ensures place { result ≡ position is_used (before (lines_view lines.now)) }
    ensures within { IfSome result (λ k. k < length lines.now) }
{
    let count = count_before(lines);
    place_of_used(&lines[..count])
}

/// The section that begins at a line; None where it is no head.
pub fn section_at<'a>(texts: &'a [Name], lines: &[Line<'a>], at: usize) -> Option<Section<'a>>
    requires lines { lines_view lines.now ≡ lines_of texts.now }
    requires inside { at < length lines.now }
    requires few { length lines.now < 2 ^ 31 }
    ensures gives { sections at (lines_view (drop at lines.now))
        ≡ option_to_list (option_map section_view result)
        ++ sections (at + 1) (lines_view (drop (at + 1) lines.now)) }
    ensures within { IfSome result (λ x. x.line + length x.texts.now < length lines.now) }
{
    let Some(name) = head_name(&lines[at]) else {
        return None;
    };
    let below = at + 1;
    let count = count_before(&lines[below..]);
    Some(Section {
        line: at as u32,
        name,
        texts: &texts[below..below + count],
    })
}
