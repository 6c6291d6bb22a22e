//! Laws of the formats. Each is a function that does nothing.

ghost use Rattle.std.specs.Prelude.{◌≡◌, ◌∷◌, ◌++◌, List, ℕ, Option, Some};
ghost use Rattle.std.specs.List.{flat_map};
ghost use Rattle.mon_oid.specs.Oid.{dotted};
ghost use Rattle.mon_board.specs.Watch.{Watch};
ghost use Rattle.mon_board.specs.Windows.{IsPartOf, window};
ghost use Rattle.mon_window.specs.Window.{Samples};
ghost use Rattle.mon_report.specs.Report.{Entry, report_of};
ghost use Rattle.mon_page.specs.declared.extras.InstanceLabels.{InstanceLabels};
ghost use Rattle.mon_page.specs.declared.extras.Presentation.{Presentation};
ghost use Rattle.mon_page.specs.declared.figures.Figures.{Figures};
ghost use Rattle.mon_formats.specs.declared.format.Format.{Format};
ghost use Rattle.mon_formats.specs.Formats.{report_in};
ghost use Rattle.mon_formats.specs.Named.{named_report};
ghost use Rattle.mon_formats.specs.declared.prometheus.text.Kind.TheVariants.{Gauge};
ghost use Rattle.mon_formats.specs.declared.prometheus.metric.Metric.{Metric};
ghost use Rattle.mon_formats.specs.declared.prometheus.peer.PeerMetric.{PeerMetric};
ghost use Rattle.mon_formats.specs.declared.prometheus.station.StationMetric.{StationMetric};
ghost use Rattle.mon_formats.specs.declared.prometheus.target.TargetMetric.{TargetMetric};
ghost use Rattle.mon_formats.specs.Prometheus.{escaped, read_value};
ghost use Rattle.mon_formats.specs.Prometheus.{IsNamed, help_of, name_of, peer_help, peer_name};
ghost use Rattle.mon_formats.specs.Prometheus.{station_help, station_name, station_type};
ghost use Rattle.mon_formats.specs.Prometheus.{target_help, target_name, target_type, type_of};

/// The lines of text with names in numbers are those of `mon_report`.
pub fn names_in_numbers()
    ensures { (entries : List Entry) → named_report dotted entries ≡ report_of entries }
{}

/// Equal watches with equal windows have equal reports in each format, where names are shown alike,
/// the station says the same, and the same labels and presentation are given.
pub fn equal_windows()
    ensures { (format : Format) (shown : List ℕ → List ℕ) (watch : Watch)
        (some others : ℕ → Samples) (station : Option Figures) (labels : List InstanceLabels)
        (presentation : Presentation) → ((i : ℕ) → some i ≡ others i)
        → report_in format shown watch some station labels presentation
        ≡ report_in format shown watch others station labels presentation }
{}

/// Equal watches that took the same samples, in whatever order and however often, have equal
/// reports in each format.
pub fn equal_samples()
    ensures { (format : Format) (shown : List ℕ → List ℕ) (watch : Watch)
        (some others : List (ℕ × ℕ)) (station : Option Figures) (labels : List InstanceLabels)
        (presentation : Presentation) → IsPartOf some others → IsPartOf others some
        → report_in format shown watch (window watch some) station labels presentation
        ≡ report_in format shown watch (window watch others) station labels presentation }
{
    mon_board::laws::windows_meet();
}

/// The value of a label, read as Prometheus reads it up to its closing quote, is the text that was
/// escaped.
pub fn label_read_back()
    ensures { (value rest : List ℕ) → read_value (flat_map escaped value ++ 34 ∷ rest)
        ≡ Some (value, rest) }
{}

/// In OpenMetrics the samples of each metric have its family's name and the suffix that its type
/// has: `_total` for a counter, `_info` for an info, none for a gauge.
pub fn families()
    ensures instances { (metric : Metric) → IsNamed (type_of metric) (name_of metric) }
    ensures station { (metric : StationMetric)
        → IsNamed (station_type metric) (station_name metric) }
    ensures peers { (metric : PeerMetric) → IsNamed Gauge (peer_name metric) }
    ensures targets { (metric : TargetMetric) → IsNamed (target_type metric) (target_name metric) }
{}

/// No text of help has an octet that a format escapes.
pub fn helps()
    ensures instances { (metric : Metric) → flat_map escaped (help_of metric) ≡ help_of metric }
    ensures station { (metric : StationMetric) → flat_map escaped (station_help metric)
        ≡ station_help metric }
    ensures peers { (metric : PeerMetric) → flat_map escaped (peer_help metric) ≡ peer_help metric }
    ensures targets { (metric : TargetMetric) → flat_map escaped (target_help metric)
        ≡ target_help metric }
{}
