//! The style sheet and the patterns: each kind of what is drawn has a colour on a light and on a dark ground, and most have
//! lines, so that whoever tells no colours apart tells the kinds apart. A hue has one meaning: purple is the circuit and what
//! it refused, amber fallbacks, red errors and failures.

/// What stands before a picture, part by part. Nothing in it is a variable, which some readers of SVG do not know.
pub(crate) const LOOKS: [&str; 6] = ["<style>", SHAPES, LIGHT, STROKES, DARK, PATTERNS];

/// What is the same on both grounds. A title is shown over the whole height of a column.
const SHAPES: &str = "text{font:14px system-ui,'Segoe UI',Helvetica,Arial,sans-serif}\
.b,.h,.l{font-weight:600}\
.h{font-size:21px}\
.l{font-size:16px}\
.t{font-size:13px}\
.e{text-anchor:end}\
.m{text-anchor:middle}\
path{fill:none}\
.limit{stroke-dasharray:4 3}\
.grid{stroke-opacity:.6}\
.hit path{stroke:#888;stroke-opacity:0}\
.hit path:hover{stroke-opacity:.3}";

/// The light ground: the page, panels, texts, lines of the grid, limits, and late ends; and behind them each kind, whose
/// colour fills what is of the class with `-g`, and strokes where it has no lines.
const LIGHT: &str = ".page,.on{fill:#ffffff}\
.panel{fill:#f6f8fa}\
text{fill:#1f2328}\
text.s{fill:#57606a}\
text.on{fill:#ffffff}\
.grid{stroke:#d0d7de}\
.limit,.life{stroke:#1f2328}\
.late,.peak{stroke:#57606a}\
.value-g{fill:#4a86c5}.value{stroke:#4a86c5}\
.fallback-g{fill:#efb02e}\
.error-g{fill:#b3152d}.error{stroke:#b3152d}\
.bad-g{fill:#848d97}\
.short-g{fill:#8d6bc4}\
.rejected-g{fill:#1f2937}.rejected{stroke:#1f2937}\
.timeout-g{fill:#dc6a1e}\
.failure-g{fill:#b3152d}\
.open-g{fill:#6f42c1}.open{stroke:#6f42c1}\
.half-g{fill:#6f42c1}\
.closed-g{fill:#2c8a4b}.closed{stroke:#2c8a4b}\
.busy-g{fill:#748ca6}.busy{stroke:#748ca6}\
.queued-g{fill:#748ca6}";

/// Strokes of kinds with lines are filled by their patterns.
const STROKES: &str = ".fallback{stroke:url(#p-fallback)}\
.bad{stroke:url(#p-bad)}\
.short{stroke:url(#p-short)}\
.timeout{stroke:url(#p-timeout)}\
.failure{stroke:url(#p-failure)}\
.half{stroke:url(#p-half)}\
.queued{stroke:url(#p-queued)}";

/// The same as `LIGHT` on a dark ground, for readers that want it.
const DARK: &str = "@media(prefers-color-scheme:dark){\
.page,.on{fill:#0d1117}\
.panel{fill:#151b23}\
text{fill:#e6edf3}\
text.s{fill:#9da7b3}\
text.on{fill:#0d1117}\
.grid{stroke:#3d444d}\
.limit,.life{stroke:#e6edf3}\
.late,.peak{stroke:#9da7b3}\
.value-g{fill:#3d7ab8}.value{stroke:#3d7ab8}\
.fallback-g{fill:#e0a526}\
.error-g{fill:#ff5d6c}.error{stroke:#ff5d6c}\
.bad-g{fill:#9da7b3}\
.short-g{fill:#a585dc}\
.rejected-g{fill:#e6edf3}.rejected{stroke:#e6edf3}\
.timeout-g{fill:#f0883e}\
.failure-g{fill:#ff5d6c}\
.open-g{fill:#a585dc}.open{stroke:#a585dc}\
.half-g{fill:#a585dc}\
.closed-g{fill:#3fb968}.closed{stroke:#3fb968}\
.busy-g{fill:#617d9c}.busy{stroke:#617d9c}\
.queued-g{fill:#617d9c}\
}</style>\n";

/// The patterns of kinds with lines: the ground and the lines of a tile.
const PATTERNS: &str = "<defs>\
<pattern id=\"p-fallback\" width=\"4\" height=\"4\" patternUnits=\"userSpaceOnUse\"><path class=\"fallback-g\" d=\"M0 0h4v4h-4z\"/><path d=\"M-1 5 5 -1\" stroke=\"#6b4700\"/></pattern>\
<pattern id=\"p-bad\" width=\"4\" height=\"4\" patternUnits=\"userSpaceOnUse\"><path class=\"bad-g\" d=\"M0 0h4v4h-4z\"/><path d=\"M2 0V4\" stroke=\"#1f2328\"/></pattern>\
<pattern id=\"p-short\" width=\"4\" height=\"4\" patternUnits=\"userSpaceOnUse\"><path class=\"short-g\" d=\"M0 0h4v4h-4z\"/><path d=\"M-1 -1 5 5\" stroke=\"#2c1458\"/></pattern>\
<pattern id=\"p-timeout\" width=\"4\" height=\"4\" patternUnits=\"userSpaceOnUse\"><path class=\"timeout-g\" d=\"M0 0h4v4h-4z\"/><path d=\"M0 2H4\" stroke=\"#4a1d00\"/></pattern>\
<pattern id=\"p-failure\" width=\"4\" height=\"4\" patternUnits=\"userSpaceOnUse\"><path class=\"failure-g\" d=\"M0 0h4v4h-4z\"/><path d=\"M2 0V4\" stroke=\"#ffffff\"/></pattern>\
<pattern id=\"p-half\" width=\"4\" height=\"4\" patternUnits=\"userSpaceOnUse\"><path class=\"half-g\" d=\"M0 0h4v4h-4z\"/><path d=\"M0 1H4M0 2H4\" stroke=\"#ffffff\"/></pattern>\
<pattern id=\"p-queued\" width=\"4\" height=\"4\" patternUnits=\"userSpaceOnUse\"><path class=\"queued-g\" d=\"M0 0h4v4h-4z\"/><path d=\"M-1 5 5 -1\" stroke=\"#ffffff\"/></pattern>\
</defs>\n";
