//! A diagram as a page of HTML that needs nothing from outside.

ghost use Rattle.std.specs.Prelude.{IfOk, string_bytes};
ghost use Rattle.view_diagram.specs.Ends.{EndsIn, page_tail};

use crate::drawing::{
    drawing_height, drawing_width, lane_width, places_width, push_arrows, push_lines, push_places,
};
use crate::ends::ended;
use crate::escapes::push_html;
use crate::gathering::{Part, PlacedArrow};
use crate::lanes::{Lanes, push_word};
use ffm_model::{ActorId, System, Trace};
use std::alloc::{AllocError, Global};
use view_texts::actor_name;

const HEAD: &str = r##"<!DOCTYPE html>
<html lang="en">
<head>
<meta charset="utf-8">
<title>Sequence diagram</title>
<style>
body{margin:0;width:max-content;min-width:100%;background:#fff;color:#222;font:12px/1.3 "DejaVu Sans",Verdana,sans-serif}
header,footer{position:sticky;left:0;width:fit-content;max-width:100vw;box-sizing:border-box;padding:8px 12px}
h1{margin:0 0 6px;font-size:15px}
footer{font-weight:bold}
.legend span{display:inline-flex;align-items:center;gap:4px;margin-right:14px;color:var(--ink)}
.row{display:flex}
.names{position:sticky;top:0;z-index:2;background:#fff;border-bottom:1px solid #999;box-shadow:0 2px 3px rgba(0,0,0,.12)}
.corner,.places{position:sticky;left:0;z-index:1;flex:none;background:#fff;border-right:1px solid #ccc;box-sizing:border-box;color:#555}
.corner{padding:6px 6px 6px 12px}
.lane{flex:none;box-sizing:border-box;padding:6px 4px;text-align:center;overflow-wrap:anywhere;font-weight:bold}
.lane small{display:block;font-weight:normal;color:#555}
svg{display:block;flex:none;overflow:visible}
.places text{text-anchor:end;fill:#555;font-size:11px}
.places{overflow:hidden}
.places text.ends{text-anchor:start;fill:#888;font-size:10px}
.places tspan{fill:var(--ink)}
.life{stroke:#b5bcc4;stroke-width:1}
g text,.legend text{font-size:11px;fill:var(--ink);stroke:#fff;stroke-width:3px;paint-order:stroke;stroke-linejoin:round}
g text.left{text-anchor:end}
g rect{fill:#1d4f91;fill-opacity:0}
g:nth-of-type(even) rect{fill-opacity:.035}
g:hover rect{fill-opacity:.14}
.line{stroke:var(--ink);stroke-width:1.4;fill:none}
.head,circle{fill:var(--ink);stroke:none}
.reply .line{stroke-dasharray:5 3}
.message,.reply{--ink:#1d4f91}
.notify{--ink:#6b3fa0}
.interrupt{--ink:#a85b00}
.wake{--ink:#5c6670}
.bad{--ink:#c0392b}
.panic{--ink:#c0392b}
.panic text{font-weight:bold}
.panic .line{stroke-width:2}
</style>
</head>
<body>
<header>
<h1>"##;

const LEGEND: &str = r##"<div class="legend">
<span class="message"><svg width="44" height="12"><path class="line" d="M2 6H34"/><path class="head" d="M42 6l-8-4v8z"/></svg>message to a service</span>
<span class="reply"><svg width="44" height="12"><path class="line" d="M2 6H34"/><path class="head" d="M42 6l-8-4v8z"/></svg>its answer</span>
<span class="bad"><svg width="12" height="12"><circle cx="6" cy="6" r="4"/></svg>refused, or answered with an error</span>
<span class="notify"><svg width="44" height="12"><path class="line" d="M2 6H34"/><path class="head" d="M42 6l-8-4v8z"/></svg>doorbell</span>
<span class="interrupt"><svg width="44" height="12"><path class="line" d="M2 6H34"/><path class="head" d="M42 6l-8-4v8z"/></svg>interrupt</span>
<span class="wake"><svg width="12" height="12"><circle cx="6" cy="6" r="4"/></svg>a call that waited returns</span>
<span class="panic"><svg width="12" height="12"><circle cx="6" cy="6" r="4"/></svg>panic, and the clients that it frees</span>
</div>
</header>
"##;

// What the page shows.
fn push_heading(out: &mut String, trace: &Trace, part: Part) -> Result<(), AllocError> {
    let count = trace.entries.len();
    let from = part.from;
    let to = count.min(part.to as usize);
    write!(out, "Entries {from} to {to} of {count}</h1>\n")
}

// A name, which may be broken after each `_`.
fn push_name(out: &mut String, name: &str) -> Result<(), AllocError> {
    for (place, word) in name.split('_').enumerate() {
        if place > 0 {
            out.push_str("_<wbr>")?;
        }
        push_html(out, word)?;
    }
    Ok(())
}

// The name of an actor above its lane.
fn push_lane(
    out: &mut String,
    system: &System,
    width: u64,
    actor: ActorId,
) -> Result<(), AllocError> {
    write!(out, "<div class=\"lane\" style=\"width:{width}px\">")?;
    push_name(out, actor_name(system, actor.0))?;
    out.push_str("<small>")?;
    push_word(out, system, actor)?;
    out.push_str("</small></div>\n")
}

// The names of the actors, which stay where the page is scrolled down.
fn push_names(
    out: &mut String,
    system: &System,
    places_width: u64,
    actors: &[ActorId],
) -> Result<(), AllocError> {
    let width = lane_width(actors.len());
    out.push_str("<div class=\"row names\">\n")?;
    write!(
        out,
        "<div class=\"corner\" style=\"width:{places_width}px\">entry</div>\n"
    )?;
    for actor in actors {
        push_lane(out, system, width, *actor)?;
    }
    out.push_str("</div>\n")
}

// The places at the left, which stay where the page is scrolled to the right, and the drawing.
fn push_drawing(
    alloc: Global,
    out: &mut String,
    system: &System,
    trace: &Trace,
    lanes: &Lanes,
    arrows: &[PlacedArrow],
) -> Result<(), AllocError> {
    let count = lanes.actors().len();
    let width = drawing_width(count);
    let height = drawing_height(arrows.len());
    let left = places_width(arrows);
    out.push_str("<div class=\"row\">\n")?;
    write!(
        out,
        "<svg class=\"places\" width=\"{left}\" height=\"{height}\">\n"
    )?;
    push_places(alloc, out, system, trace, arrows)?;
    write!(out, "</svg>\n<svg width=\"{width}\" height=\"{height}\">\n")?;
    push_lines(out, count, arrows.len())?;
    push_arrows(alloc, out, system, trace, lanes, arrows)?;
    out.push_str("</svg>\n</div>\n")
}

// All but the end.
fn drawn(
    alloc: Global,
    system: &System,
    trace: &Trace,
    part: Part,
    lanes: &Lanes,
    arrows: &[PlacedArrow],
) -> Result<String, AllocError> {
    let mut out = String::new(alloc);
    out.push_str(HEAD)?;
    push_heading(&mut out, trace, part)?;
    out.push_str(LEGEND)?;
    push_names(&mut out, system, places_width(arrows), lanes.actors())?;
    push_drawing(alloc, &mut out, system, trace, lanes, arrows)?;
    out.push_str("<footer>")?;
    Ok(out)
}

/// A page with lanes for the actors and an arrow in each row, and then its end. The pointer on a row shows
/// the trace's line of its entry.
pub fn page(
    alloc: Global,
    system: &System,
    trace: &Trace,
    end: &str,
    part: Part,
    lanes: &Lanes,
    arrows: &[PlacedArrow],
) -> Result<String, AllocError>
    ensures { IfOk result (λ text. EndsIn end.now page_tail (string_bytes text)) }
{
    let front = drawn(alloc, system, trace, part, lanes, arrows)?;
    ended(front, end, "</footer>\n</body>\n</html>\n")
}
