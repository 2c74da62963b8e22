//! The part of a picture above the rows: title, style, signs and legend.

ghost use Rattle.std.specs.Prelude.{◌≡◌, ◌<◌, ◌^◌, ◌-◌, ◌++◌, length, OnOk, string_bytes};
ghost use Rattle.exercise_chart.specs.Frame.{rows_shown, width_of, height_of};
ghost use Rattle.exercise_chart.specs.Heading.{opening_text, about_text, kept_words, blocked_words, counts_text, style_text, signs_text, paper_text, caption_text, legend_text, heading_text};

use crate::element::{Attribute, Shown, put_element};
use crate::frame::Frame;
use crate::sheets::sheets_of;
use exercise_model::ExerciseLog;
use std::alloc::AllocError;

/// Writes the start tag of the picture, with its size and the number of its sheets.
#[tactic(auto, unfolding(crate::specs::Heading::opening_text))]
fn put_opening(text: &mut String, frame: &Frame<'_>) -> Result<(), AllocError>
    ensures { OnOk result (string_bytes text.new ≡ string_bytes text.old ++ opening_text frame.now) }
{
    let width = frame.width();
    let height = frame.height();
    let sheets = sheets_of(frame);
    write!(
        text,
        "<svg xmlns=\"http://www.w3.org/2000/svg\" width=\"{width}\" height=\"{height}\""
    )?;
    write!(
        text,
        " style=\"--sheets:{sheets}\" font-family=\"Helvetica,Arial,sans-serif\" font-size=\"11\">\n"
    )?;
    Ok(())
}

/// Writes how many stations have columns, if not all have.
fn put_kept(text: &mut String, kept: u16, stations: usize) -> Result<(), AllocError>
    ensures { OnOk result (string_bytes text.new ≡ string_bytes text.old ++ kept_words kept stations) }
{
    if usize::from(kept) < stations {
        write!(text, " ({kept} shown)")
    } else {
        Ok(())
    }
}

/// Writes the number of blocked rows, if there are any.
fn put_blocked_count(text: &mut String, blocked: usize) -> Result<(), AllocError>
    ensures { OnOk result (string_bytes text.new ≡ string_bytes text.old ++ blocked_words blocked) }
{
    if blocked > 0 {
        write!(text, ", then {blocked} blocked")
    } else {
        Ok(())
    }
}

/// Writes the number of stations and entries, the range of shown steps, and what is blocked.
#[tactic(auto, unfolding(crate::specs::Heading::counts_text))]
fn put_counts<L: ExerciseLog>(
    text: &mut String,
    frame: &Frame<'_>,
    log: &L,
) -> Result<(), AllocError>
    ensures { OnOk result (string_bytes text.new ≡ string_bytes text.old ++ counts_text frame.now (L.recording log.now)) }
{
    let stations = log.station_count();
    let entries = log.entry_count();
    let steps = frame.rows.count();
    let first = frame.rows.first;
    write!(text, "{stations} stations")?;
    put_kept(text, frame.kept, stations)?;
    write!(
        text,
        ", {entries} entries, {steps} steps from step {first} on"
    )?;
    put_blocked_count(text, frame.blocked)?;
    Ok(())
}

/// Writes the title and a description, for readers who do not see the picture.
#[tactic(auto, unfolding(crate::specs::Heading::about_text))]
fn put_about<L: ExerciseLog>(
    text: &mut String,
    frame: &Frame<'_>,
    log: &L,
) -> Result<(), AllocError>
    ensures { OnOk result (string_bytes text.new ≡ string_bytes text.old ++ about_text frame.now (L.recording log.now)) }
{
    let exercise = log.exercise();
    write!(text, "<title>Exercise {exercise}</title>\n<desc>")?;
    put_counts(text, frame, log)?;
    text.push_str(
        ". Stations are columns, steps are rows, from above; behind each row stands its entry in words.</desc>\n",
    )?;
    Ok(())
}

/// Writes the style: sheets in print, and other colours if the reader prefers dark ones.
#[tactic(auto, unfolding(crate::specs::Heading::style_text))]
fn put_style(text: &mut String) -> Result<(), AllocError>
    ensures { OnOk result (string_bytes text.new ≡ string_bytes text.old ++ style_text) }
{
    text.push_str(
        "<style>\n\
    #sheets{display:none}\n\
    @page{size:landscape;margin:10mm}\n\
    @media print{:root{width:100%;height:calc(100vh*var(--sheets));font-size:13px}#screen{display:none}#sheets{display:inline}}\n\
    @media (prefers-color-scheme:dark){\n\
    [fill=\"#1d4ed8\"]{fill:#93c5fd}[stroke=\"#1d4ed8\"]{stroke:#93c5fd}\n\
    [fill=\"#15803d\"]{fill:#86efac}[stroke=\"#15803d\"]{stroke:#86efac}\n\
    [fill=\"#c2410c\"]{fill:#fdba74}[stroke=\"#c2410c\"]{stroke:#fdba74}\n\
    [fill=\"#475569\"]{fill:#cbd5e1}[stroke=\"#475569\"]{stroke:#cbd5e1}\n\
    [fill=\"#7c3aed\"]{fill:#c4b5fd}[stroke=\"#7c3aed\"]{stroke:#c4b5fd}\n\
    [fill=\"#ffffff\"]{fill:#111827}[stroke=\"#ffffff\"]{stroke:#111827}\n\
    [fill=\"#1f2933\"]{fill:#e5e7eb}[stroke=\"#1f2933\"]{stroke:#e5e7eb}\n\
    [fill=\"#94a3b8\"]{fill:#64748b}[stroke=\"#94a3b8\"]{stroke:#64748b}\n\
    [fill=\"#e2e8f0\"]{fill:#1f2937}[stroke=\"#e2e8f0\"]{stroke:#1f2937}\n\
    [fill=\"#fbbf24\"]{fill:#b45309}[stroke=\"#fbbf24\"]{stroke:#b45309}\n\
    [fill=\"#4ade80\"]{fill:#15803d}[stroke=\"#4ade80\"]{stroke:#15803d}\n\
    [fill=\"#dc2626\"]{fill:#f87171}[stroke=\"#dc2626\"]{stroke:#f87171}\n\
    }\n\
    </style>\n",
    )?;
    Ok(())
}

/// Writes the definitions of arrow heads and signs.
#[tactic(auto, unfolding(crate::specs::Heading::signs_text))]
fn put_signs(text: &mut String) -> Result<(), AllocError>
    ensures { OnOk result (string_bytes text.new ≡ string_bytes text.old ++ signs_text) }
{
    text.push_str(
        "<defs>\n\
    <marker id=\"to-request\" viewBox=\"0 0 8 8\" refX=\"8\" refY=\"4\" markerWidth=\"8\" markerHeight=\"8\" markerUnits=\"userSpaceOnUse\" orient=\"auto\"><path d=\"M0 0L8 4L0 8z\" fill=\"#1d4ed8\"/></marker>\n\
    <marker id=\"to-able\" viewBox=\"0 0 8 8\" refX=\"8\" refY=\"4\" markerWidth=\"8\" markerHeight=\"8\" markerUnits=\"userSpaceOnUse\" orient=\"auto\"><path d=\"M0 0L8 4L0 8z\" fill=\"#15803d\"/></marker>\n\
    <marker id=\"to-unable\" viewBox=\"0 0 8 8\" refX=\"8\" refY=\"4\" markerWidth=\"8\" markerHeight=\"8\" markerUnits=\"userSpaceOnUse\" orient=\"auto\"><path d=\"M0 0L8 4L0 8z\" fill=\"#c2410c\"/></marker>\n\
    <marker id=\"to-other\" viewBox=\"0 0 8 8\" refX=\"8\" refY=\"4\" markerWidth=\"8\" markerHeight=\"8\" markerUnits=\"userSpaceOnUse\" orient=\"auto\"><path d=\"M0 0L8 4L0 8z\" fill=\"#475569\"/></marker>\n\
    <marker id=\"to-notice\" viewBox=\"0 0 8 8\" refX=\"8\" refY=\"4\" markerWidth=\"8\" markerHeight=\"8\" markerUnits=\"userSpaceOnUse\" orient=\"auto\"><path d=\"M0 0L8 4L0 8z\" fill=\"#7c3aed\"/></marker>\n\
    <marker id=\"lost\" viewBox=\"0 0 12 12\" refX=\"6\" refY=\"6\" markerWidth=\"12\" markerHeight=\"12\" markerUnits=\"userSpaceOnUse\"><path d=\"M2 2L10 10M2 10L10 2\" fill=\"none\" stroke=\"#dc2626\" stroke-width=\"2\"/></marker>\n\
    <circle id=\"sent\" r=\"4\"/>\n\
    <rect id=\"other\" x=\"-4\" y=\"-4\" width=\"8\" height=\"8\"/>\n\
    <path id=\"told\" d=\"M0 -6L6 0L0 6L-6 0z\" stroke=\"#1f2933\" stroke-width=\"2\"/>\n\
    <g id=\"unanswered\" stroke=\"#dc2626\" stroke-width=\"2\"><circle r=\"6\"/><path d=\"M-3 -3L3 3\"/></g>\n\
    <path id=\"blocked\" d=\"M-2 -6h4l4 4v4l-4 4h-4l-4 -4v-4z\"/>\n\
    <marker id=\"drawn\" markerUnits=\"userSpaceOnUse\" overflow=\"visible\"><use href=\"#lines\"/></marker>\n\
    </defs>\n",
    )?;
    Ok(())
}

/// Writes the white background.
#[tactic(auto, unfolding(crate::specs::Heading::paper_text))]
fn put_paper(text: &mut String, frame: &Frame<'_>) -> Result<(), AllocError>
    ensures { OnOk result (string_bytes text.new ≡ string_bytes text.old ++ paper_text frame.now) }
{
    let paper = [
        Attribute("width", Shown::Number(frame.width())),
        Attribute("height", Shown::Number(frame.height())),
        Attribute("fill", Shown::Word("#ffffff")),
    ];
    put_element(text, "rect", &paper)?;
    Ok(())
}

/// Writes the caption inside the picture: exercise number and counts.
#[tactic(auto, unfolding(crate::specs::Heading::caption_text))]
fn put_caption<L: ExerciseLog>(
    text: &mut String,
    frame: &Frame<'_>,
    log: &L,
) -> Result<(), AllocError>
    ensures { OnOk result (string_bytes text.new ≡ string_bytes text.old ++ caption_text frame.now (L.recording log.now)) }
{
    let exercise = log.exercise();
    text.push_str(
        "<g id=\"screen\">\n<g id=\"heading\" fill=\"#1f2933\">\n<text x=\"24\" y=\"28\" font-size=\"18\" font-weight=\"bold\">",
    )?;
    write!(text, "Exercise {exercise}</text>\n<text x=\"24\" y=\"48\">")?;
    put_counts(text, frame, log)?;
    text.push_str("</text>\n")?;
    Ok(())
}

/// Writes the legend of colours and signs.
#[tactic(auto, unfolding(crate::specs::Heading::legend_text))]
fn put_legend(text: &mut String) -> Result<(), AllocError>
    ensures { OnOk result (string_bytes text.new ≡ string_bytes text.old ++ legend_text) }
{
    text.push_str(
        "<line x1=\"24\" y1=\"68\" x2=\"48\" y2=\"68\" stroke=\"#1d4ed8\" stroke-width=\"2\" marker-end=\"url(#to-request)\"/><text x=\"56\" y=\"72\">request</text>\n\
    <line x1=\"112\" y1=\"68\" x2=\"136\" y2=\"68\" stroke=\"#15803d\" stroke-width=\"2\" marker-end=\"url(#to-able)\"/><text x=\"144\" y=\"72\">able, complete, data</text>\n\
    <line x1=\"274\" y1=\"68\" x2=\"298\" y2=\"68\" stroke=\"#c2410c\" stroke-width=\"2\" marker-end=\"url(#to-unable)\"/><text x=\"306\" y=\"72\">unable, rejected</text>\n\
    <line x1=\"414\" y1=\"68\" x2=\"438\" y2=\"68\" stroke=\"#475569\" stroke-width=\"2\" marker-end=\"url(#to-other)\"/><text x=\"446\" y=\"72\">other answer</text>\n\
    <line x1=\"534\" y1=\"68\" x2=\"558\" y2=\"68\" stroke=\"#7c3aed\" stroke-width=\"2\" marker-end=\"url(#to-notice)\"/><text x=\"566\" y=\"72\">report, comment</text>\n\
    <line x1=\"24\" y1=\"88\" x2=\"42\" y2=\"88\" stroke=\"#1d4ed8\" stroke-width=\"2\" stroke-dasharray=\"2 3\" marker-end=\"url(#lost)\"/><text x=\"56\" y=\"92\">not received there</text>\n\
    <use href=\"#unanswered\" x=\"184\" y=\"88\" fill=\"#ffffff\"/><text x=\"198\" y=\"92\">never answered there</text>\n\
    <use href=\"#told\" x=\"344\" y=\"88\" fill=\"#ffffff\"/><text x=\"358\" y=\"92\">state told</text>\n\
    <use href=\"#other\" x=\"440\" y=\"88\" fill=\"#475569\"/><text x=\"452\" y=\"92\">means nothing</text>\n\
    <rect x=\"554\" y=\"82\" width=\"8\" height=\"12\" fill=\"#fbbf24\"/><text x=\"568\" y=\"92\">stopped</text>\n\
    <rect x=\"630\" y=\"82\" width=\"8\" height=\"12\" fill=\"#4ade80\"/><text x=\"644\" y=\"92\">running</text>\n\
    <use href=\"#blocked\" x=\"670\" y=\"68\" fill=\"#dc2626\"/><text x=\"680\" y=\"72\">blocked</text>\n\
    </g>\n",
    )?;
    Ok(())
}

/// Writes the whole heading.
#[tactic(auto, unfolding(crate::specs::Heading::heading_text))]
pub(crate) fn put_heading<L: ExerciseLog>(
    text: &mut String,
    frame: &Frame<'_>,
    log: &L,
) -> Result<(), AllocError>
    ensures { OnOk result (string_bytes text.new ≡ string_bytes text.old ++ heading_text frame.now (L.recording log.now)) }
{
    put_opening(text, frame)?;
    put_about(text, frame, log)?;
    put_style(text)?;
    put_signs(text)?;
    put_paper(text, frame)?;
    put_caption(text, frame, log)?;
    put_legend(text)?;
    Ok(())
}
