//! A run as a chart: three panels, one below another.

use crate::measure::Measure;
use crate::panel::push_panel;
use crate::report::{JobFiles, RunReport};
use crate::words::{push_number, push_words};
use line_text::TextBuilder;
use std::alloc::{AllocError, Global};

/// The report as a chart in SVG: how many vertices were called in each superstep, how many messages they sent, and the units that
/// they took. Of many supersteps one point shows several, by the greatest of them. The only refusal is that there is no memory.
pub fn svg_text(alloc: Global, files: JobFiles, report: &RunReport) -> Result<String, AllocError> {
    let mut text = TextBuilder::new(alloc);
    push_chart(&mut text, files, report);
    text.finish()
}

// Lengths are tenths of a pixel.
fn push_chart(text: &mut TextBuilder, files: JobFiles, report: &RunReport) {
    text.put(
        "<svg xmlns=\"http://www.w3.org/2000/svg\" width=\"900\" height=\"760\" \
         viewBox=\"0 0 9000 7600\" font-family=\"sans-serif\" font-size=\"130\">\n",
    );
    push_head(text, files);
    push_sizes(text, report);
    push_end(text, report);
    push_panel(text, Measure::Called, &report.supersteps);
    push_panel(text, Measure::Sent, &report.supersteps);
    push_panel(text, Measure::Units, &report.supersteps);
    text.put("</svg>\n");
}

// The title, which viewers show, and the ground with the title on it.
fn push_head(text: &mut TextBuilder, files: JobFiles) {
    let size = title_size(files);
    text.put("<title>");
    push_title(text, files);
    push_number(
        text,
        "</title>\n<rect width=\"9000\" height=\"7600\" fill=\"#ffffff\"/>\n\
         <text x=\"300\" y=\"380\" font-size=\"",
        size as u64,
    );
    text.put("\" font-weight=\"bold\">");
    push_title(text, files);
    text.put("</text>\n");
}

// How great the title's letters are, so that it fits where it is long: a letter is some 0.58 times as wide.
fn title_size(files: JobFiles) -> usize {
    let letters = files.module.chars().count();
    let letters = letters.saturating_add(files.graph.chars().count());
    (14_400 / letters.saturating_add(6)).clamp(40, 200)
}

fn push_title(text: &mut TextBuilder, files: JobFiles) {
    push_words(text, files.module);
    text.put(" over ");
    push_words(text, files.graph);
}

fn push_sizes(text: &mut TextBuilder, report: &RunReport) {
    push_number(text, "<text x=\"300\" y=\"620\">vertices ", report.vertices);
    push_number(text, ", edges ", report.edges);
    push_number(text, ", workers ", u64::from(report.settings.workers));
    push_number(text, ", parts ", u64::from(report.settings.parts));
    text.put("</text>\n");
}

// How the job ended, in the words of its last line.
fn push_end(text: &mut TextBuilder, report: &RunReport) {
    let outcome = &report.outcome;
    text.put("<text x=\"300\" y=\"810\">");
    push_words(text, outcome.how);
    if let Some(fault) = outcome.fault {
        text.put(" ");
        push_words(text, fault);
    }
    push_total(text, ", supersteps ", outcome.superstep);
    push_total(text, ", units ", outcome.units);
    push_total(text, ", dropped ", outcome.dropped);
    text.put("</text>\n");
}

// A number behind a word, where it is known.
fn push_total(text: &mut TextBuilder, word: &str, total: Option<u64>) {
    if let Some(total) = total {
        push_number(text, word, total);
    }
}
