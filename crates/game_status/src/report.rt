//! What is found of the games of folders, as it is reported to a program.

/// How a report is written.
#[derive(Clone, Copy)]
pub enum ReportForm {
    /// How many games there are of each kind, in the text format of Prometheus.
    Metrics,
    /// The games and how many there are of each kind, as one JSON object (RFC 8259) on a line.
    Json,
}
