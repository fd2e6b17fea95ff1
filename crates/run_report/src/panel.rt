//! A panel of a chart: two axes, and a curve over supersteps.

use crate::counts::SuperstepCounts;
use crate::measure::Measure;
use crate::scale::{place_on, round_up};
use crate::unit::Unit;
use crate::words::push_number;
use line_text::TextBuilder;

// How wide a panel is, how high, and how many points are drawn at most, and marked. Lengths are tenths of a pixel.
const WIDTH: u64 = 7_500;

const HEIGHT: u64 = 1_500;

const MOST_POINTS: usize = 1_500;

const MOST_MARKS: usize = 100;

// What the ends of the axes stand for, how far their ticks are apart, and the unit of the values.
#[derive(Clone, Copy)]
struct Axes {
    first: u64,
    last: u64,
    stride: u64,
    top: u64,
    step: u64,
    unit: Unit,
}

impl Axes {
    // Those of these supersteps, where `most` is the greatest value. At most ten steps reach the last superstep, and five the top.
    fn of(supersteps: &[SuperstepCounts], most: u64) -> Axes {
        let first = supersteps.first().map_or(0, |counts| counts.superstep);
        let last = supersteps.last().map_or(0, |counts| counts.superstep);
        let step = round_up(most.div_ceil(5));
        let top = most.div_ceil(step).max(1).saturating_mul(step);
        Axes {
            first,
            last,
            stride: round_up(last.saturating_sub(first).div_ceil(10)),
            top,
            step,
            unit: Unit::of(top),
        }
    }

    // How far to the right a superstep lies.
    fn across(self, superstep: u64) -> u64 {
        let span = self.last.saturating_sub(self.first);
        place_on(WIDTH, superstep.saturating_sub(self.first), span)
    }

    // How far below the panel's upper edge a value lies.
    fn down(self, value: u64) -> u64 {
        HEIGHT - place_on(HEIGHT, value, self.top)
    }
}

/// Puts a panel behind a chart that shows this of each superstep.
pub fn push_panel(text: &mut TextBuilder, measure: Measure, supersteps: &[SuperstepCounts]) {
    let axes = Axes::of(supersteps, measure.most(supersteps));
    push_number(text, "<g transform=\"translate(1200,", measure.top());
    text.put(")\">\n<text y=\"-130\" font-weight=\"bold\">");
    text.put(measure.label());
    text.put("</text>\n");
    push_values(text, axes);
    push_numbers(text, axes);
    push_number(text, "<path d=\"M0 0V", HEIGHT);
    push_number(text, "H", WIDTH);
    text.put("\" fill=\"none\" stroke=\"#333333\" stroke-width=\"12\"/>\n");
    push_curve(text, measure, supersteps, axes);
    push_marks(text, measure, supersteps, axes);
    text.put("</g>\n");
}

// The ticks of the values, each with a line across. The last is at the top, also where a step more would go past 64 bits.
fn push_values(text: &mut TextBuilder, axes: Axes) {
    for tick in 0..6 {
        let value = axes.step.saturating_mul(tick);
        push_value(text, value, axes);
        if value >= axes.top {
            return;
        }
    }
}

fn push_value(text: &mut TextBuilder, value: u64, axes: Axes) {
    let down = axes.down(value);
    push_number(text, "<path d=\"M0 ", down);
    push_number(text, "H", WIDTH);
    push_number(
        text,
        "\" stroke=\"#dddddd\" stroke-width=\"8\"/>\n<text x=\"-90\" y=\"",
        down.saturating_add(45),
    );
    text.put("\" text-anchor=\"end\">");
    push_short(text, value, axes.unit);
    text.put("</text>\n");
}

// A value in a unit, with one decimal where it has a rest.
fn push_short(text: &mut TextBuilder, value: u64, unit: Unit) {
    let size = unit.size();
    let whole = value / size;
    let tenth = value % size / (size / 10).max(1);
    text.show(&whole);
    if value == 0 {
        return;
    }
    if tenth != 0 {
        push_number(text, ".", tenth);
    }
    text.put(unit.letter());
}

// The ticks of the supersteps, and what they are.
fn push_numbers(text: &mut TextBuilder, axes: Axes) {
    let stride = axes.stride.max(1);
    let least = axes.first.div_ceil(stride);
    for tick in 0..11 {
        let superstep = least.saturating_add(tick).saturating_mul(stride);
        if superstep <= axes.last {
            push_tick(text, superstep, axes.across(superstep));
        }
    }
    push_place(text, WIDTH / 2, HEIGHT + 370);
    text.put("superstep</text>\n");
}

fn push_tick(text: &mut TextBuilder, superstep: u64, across: u64) {
    push_number(text, "<path d=\"M", across);
    push_number(text, " ", HEIGHT);
    push_number(text, "V", HEIGHT + 50);
    text.put("\" stroke=\"#333333\" stroke-width=\"12\"/>\n");
    push_place(text, across, HEIGHT + 200);
    text.show(&superstep);
    text.put("</text>\n");
}

// The mark before words whose middle is here.
fn push_place(text: &mut TextBuilder, middle: u64, foot: u64) {
    push_number(text, "<text x=\"", middle);
    push_number(text, "\" y=\"", foot);
    text.put("\" text-anchor=\"middle\">");
}

// A curve through what is known, with a gap at each superstep of which it is not.
fn push_curve(
    text: &mut TextBuilder,
    measure: Measure,
    supersteps: &[SuperstepCounts],
    axes: Axes,
) {
    let size = supersteps.len().div_ceil(MOST_POINTS).max(1);
    let mut command = 'M';
    text.put("<path d=\"");
    for group in supersteps.chunks(size) {
        command = push_point(text, measure, group, axes, command);
    }
    text.put("\" fill=\"none\" stroke=\"");
    text.put(measure.colour());
    text.put("\" stroke-width=\"20\" stroke-linejoin=\"round\"/>\n");
}

// One point of the curve, the greatest of a group, and the command for the next.
fn push_point(
    text: &mut TextBuilder,
    measure: Measure,
    group: &[SuperstepCounts],
    axes: Axes,
    command: char,
) -> char {
    let Some(counts) = group.first() else {
        return command;
    };
    if measure.of(counts).is_none() {
        return 'M';
    }
    text.show(&command);
    text.show(&axes.across(counts.superstep));
    push_number(text, " ", axes.down(measure.most(group)));
    'L'
}

// A mark for each superstep, where they are few, which names it and its value.
fn push_marks(
    text: &mut TextBuilder,
    measure: Measure,
    supersteps: &[SuperstepCounts],
    axes: Axes,
) {
    if supersteps.len() > MOST_MARKS {
        return;
    }
    for counts in supersteps {
        if let Some(value) = measure.of(counts) {
            push_mark(text, measure, counts.superstep, value, axes);
        }
    }
}

fn push_mark(text: &mut TextBuilder, measure: Measure, superstep: u64, value: u64, axes: Axes) {
    push_number(text, "<circle cx=\"", axes.across(superstep));
    push_number(text, "\" cy=\"", axes.down(value));
    text.put("\" r=\"35\" fill=\"");
    text.put(measure.colour());
    push_number(text, "\"><title>superstep ", superstep);
    push_number(text, ": ", value);
    text.put("</title></circle>\n");
}
