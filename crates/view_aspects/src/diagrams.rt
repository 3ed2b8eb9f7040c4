//! Which part of a trace a diagram is asked for, and how it is written.
ghost use Rattle.std.specs.Prelude.{◌≡◌};
ghost use Rattle.view_aspects.specs.Diagrams.{format_of, is_beyond, part_asked, place_beyond};

use program_words::view::Format;
use view_diagram::Part;

fn is_beyond(total: u32, place: Option<u32>) -> bool
    ensures { result ≡ is_beyond total place }
{
    match place {
        Some(place) => total < place,
        None => false,
    }
}

/// The place that is asked for and that a trace of so many entries doesn't have: the second, or else the first.
pub fn place_beyond(total: u32, from: Option<u32>, to: Option<u32>) -> Option<u32>
    ensures { result ≡ place_beyond total from to }
{
    if is_beyond(total, to) {
        to
    } else if is_beyond(total, from) {
        from
    } else {
        None
    }
}

/// The part of a trace of so many entries that is asked for: where no place is, from the first entry or to the last.
pub fn part_asked(total: u32, from: Option<u32>, to: Option<u32>) -> Part
    ensures { result ≡ part_asked total from to }
{
    Part {
        from: from.unwrap_or(1),
        to: to.unwrap_or(total),
    }
}

/// How a diagram is written, by its word.
pub fn format_of(format: Format) -> view_diagram::Format
    ensures { result ≡ format_of format }
{
    match format {
        Format::Mermaid => view_diagram::Format::Mermaid,
        Format::Html => view_diagram::Format::Html,
    }
}
