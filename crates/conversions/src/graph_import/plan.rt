//! The options of an import.

ghost use Rattle.std.specs.Prelude.{◌≡◌};
ghost use Rattle.conversions.specs.graph_import.Import.{format_in};

/// The format of a file.
#[derive(Clone, Copy)]
pub enum Format {
    /// An edge on each line, or a Matrix Market file, which has its own first line.
    Lines,
    /// A table with a heading, whose columns this byte separates.
    Table(u8),
}

/// Returns the format of a file by its name: a table where that ends in `.csv` or `.tsv`, else lines.
#[tactic(auto, using(std::proofs::lemmas::Str::Pattern::ends_text))]
pub fn format_of(path: &str) -> Format
    ensures { result ≡ format_in path.now }
{
    if path.ends_with(".csv") {
        return Format::Table(b',');
    }
    if path.ends_with(".tsv") {
        return Format::Table(b'\t');
    }
    Format::Lines
}

/// The options of an import, beside the format.
#[derive(Clone, Copy)]
pub struct Plan<'a> {
    /// Whether each edge is for both directions.
    pub undirected: bool,
    /// Whether the ends are names. They are numbered from 0, in the order in which they first occur.
    pub names: bool,
    /// The value of each vertex except the source.
    pub value: Option<&'a str>,
    /// The vertex whose value is 0. If no value is given, the others have -1.
    pub source: Option<&'a str>,
    /// The value of each edge, or the heading of the column with the values.
    pub weight: Option<&'a str>,
    /// Whether an edge's value is 2^32 divided by the number of edges from its source.
    pub share: bool,
}
