//! Labels: where they lead, and which of them are repeated. An ordered map has the first label of
//! each name, so that a look-up takes a time that grows with the logarithm of their number.
ghost use Rattle.std.specs.Prelude.{◌≡◌, ◌≤◌, ◌<◌, ◌^◌, Some, None, IfOk, IfSome, OnOk, if◌then◌else◌, is_some, length, sum_by, take};
ghost use Rattle.std.specs.Option.{option_or};
ghost use Rattle.std.specs.Str.{bytes_eq};
ghost use Rattle.script_asm.specs.Labels.{label_in, HasLines, HasPlaces};
ghost use Rattle.script_asm.specs.Lines.{is_label, lines_of, place_of, width};
ghost use Rattle.script_asm.specs.Views.{line_view, lines_view};
ghost use Rattle.script_asm.specs.Words.{Word};

use crate::lines::{Line, lines_of};
use ffm_model::Name;
use std::alloc::{AllocError, Global};
use std::collections::BTreeMap;

/// The first label of a name: the place of its line, and the number of instructions before it.
#[derive(Clone, Copy)]
pub struct FirstLabel {
    line: u32,
    place: u32,
}

/// The lines of a script or of a function, with the first label of each name.
#[derive(Drop)]
pub struct LabelledLines<'a> {
    pub lines: Vec<Line<'a>>,
    labels: BTreeMap<&'a [u8], FirstLabel>,
    ghost places: { HasPlaces labels (lines_view lines.items) },
    ghost lines_of_labels: { HasLines labels (lines_view lines.items) },
}

impl LabelledLines<'_> {
    /// The number of instructions before the first label of this name; None where there is none.
    pub fn place_of(&self, name: &[u8]) -> Option<u32>
        ensures gives { result ≡ place_of name.now (lines_view self.now.lines.items) }
        ensures within { IfSome result (λ k. k ≤ sum_by width (lines_view self.now.lines.items)) }
    {
        let label = self.labels.get(name)?;
        Some(label.place)
    }

    /// Whether a label of this name stands before that line.
    pub fn is_labelled_before(&self, name: &[u8], line: usize) -> bool
        ensures { result ≡ is_some
            (place_of name.now (take line (lines_view self.now.lines.items))) }
    {
        match self.labels.get(name) {
            Some(label) => (label.line as usize) < line,
            None => false,
        }
    }
}

fn width(line: &Line<'_>) -> u32
    ensures { result ≡ width (line_view line.now) }
{
    match line {
        Line::Order(_) => 1,
        _ => 0,
    }
}

// Keeps a label, where it is the first of its name.
fn keep_label<'a>(
    labels: &mut BTreeMap<&'a [u8], FirstLabel>,
    name: &'a [u8],
    label: FirstLabel,
) -> Result<(), AllocError>
    ensures { OnOk result ((n : Word)
        → label_in labels.new n
        ≡ option_or (label_in labels.old n) (if bytes_eq name.now n then Some label else None)) }
{
    if !labels.contains_key(name) {
        labels.insert(name, label)?;
    }
    Ok(())
}

// Keeps the label of a line, where it has one that is the first of its name.
fn keep_line<'a>(
    labels: &mut BTreeMap<&'a [u8], FirstLabel>,
    line: &Line<'a>,
    label: FirstLabel,
) -> Result<(), AllocError>
    ensures { OnOk result ((n : Word)
        → label_in labels.new n
        ≡ option_or (label_in labels.old n)
        (if is_label n (line_view line.now) then Some label else None)) }
{
    match line {
        Line::Label(name) => keep_label(labels, *name, label),
        _ => Ok(()),
    }
}

// The first label of each name.
fn labels_of<'a>(
    alloc: Global,
    lines: &[Line<'a>],
) -> Result<BTreeMap<&'a [u8], FirstLabel>, AllocError>
    requires { length lines.now < 2 ^ 31 }
    ensures places { IfOk result (λ labels. HasPlaces labels (lines_view lines.now)) }
    ensures lines { IfOk result (λ labels. HasLines labels (lines_view lines.now)) }
{
    let mut labels = BTreeMap::new(alloc);
    let mut place: u32 = 0;
    for (i, line) in lines.iter().enumerate() {
        let label = FirstLabel {
            line: i as u32,
            place,
        };
        keep_line(&mut labels, line, label)?;
        place += width(line);
    }
    Ok(labels)
}

/// The lines of a script with their labels. Err where no memory was found.
pub fn labelled_lines<'a>(alloc: Global, texts: &'a [Name]) -> Result<LabelledLines<'a>, AllocError>
    requires { length texts.now < 2 ^ 31 }
    ensures { IfOk result (λ s. lines_view s.lines.items ≡ lines_of texts.now) }
{
    let lines = lines_of(alloc, texts)?;
    let labels = labels_of(alloc, lines.as_slice())?;
    Ok(LabelledLines { lines, labels })
}
