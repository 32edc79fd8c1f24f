//! The last text that was put, and what it tells.
ghost use Rattle.std.specs.Prelude.{◌≡◌, string_bytes};
ghost use Rattle.cf_scan.specs.{history_text};

use cf_tracker::Report;

/// A text that was put, and the report that it tells.
#[derive(Drop)]
pub(crate) struct Shown {
    pub(crate) text: String,
    pub(crate) report: Report,
    pub(crate) ghost tells: { string_bytes text ≡ history_text report.history report.height report.tip.0 },
}
