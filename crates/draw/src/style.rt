//! How the shapes of a picture look: in light, in dark, and by lines and hatching where there is no
//! colour.

/// The rules for the classes of shapes, and the hatching of stale mappings.
pub const STYLE: &str = "<style>
text{font:11.5px ui-monospace,SFMono-Regular,Menlo,Consolas,'DejaVu Sans Mono',monospace;fill:#1f2328;
paint-order:stroke;stroke:#fff;stroke-width:3px;stroke-linejoin:round}
.paper{fill:#fff}
.title{font-size:15px;font-weight:bold}
.subtitle,.note,.remark{fill:#59636e}
.head{fill:#e6eaef}
.hart{font-weight:bold;stroke:none}
.tint-0{fill:#f3f8fe}
.tint-1{fill:#fef8ec}
.tint-2{fill:#f1faf1}
.tint-3{fill:#fbf3fb}
.side,.swatch{stroke:#9aa4af}
.swatch{fill:none}
.row{stroke:#d5dae0;stroke-dasharray:1 3}
.number{fill:#59636e;text-anchor:end;stroke:none}
.refused{font-style:italic;fill:#6b5a2e}
.walk{fill:#fff;stroke:#0b6bcb;stroke-width:1.5;stroke-dasharray:3 2}
.service{fill:#1a7f37;stroke:#1a7f37}
.order{fill:#c9c3e6;stroke:#5b4bb0;stroke-width:1.5}
.done{fill:#fff;stroke:#5b4bb0;stroke-width:1.5}
.ticket{font-size:10px;font-weight:bold;text-anchor:middle;stroke:none}
.request,.request-head,.request-start{stroke:#0b4f9e;stroke-width:1.5;fill:none}
.request-head,.request-start{fill:#0b4f9e}
.ack,.ack-head,.ack-start{stroke:#1a7f37;stroke-width:1.5;fill:none}
.ack{stroke-dasharray:5 3}
.ack-start,.waits{fill:#fff}
.waits{stroke:#1f2328;stroke-width:1.5}
.stale{fill:url(#hatch);stroke:#b3261e;stroke-width:1.5}
.hatch-paper{fill:#fdeceb}
.hatch-line{fill:#e9a7a2}
.mapping{font-weight:bold;fill:#8c1d18}
.life{fill:none;stroke:#59636e}
.end,.end-mark{stroke:#59636e;stroke-width:1.5}
.end{stroke-dasharray:2 2}
.hit{fill:none;stroke:#b3261e;stroke-width:2.5}
.hit-words{font-weight:bold;fill:#8c1d18}
.hit-line{stroke:#b3261e;stroke-width:2.5}
.hit-dot{fill:#b3261e;stroke:none}
.given{fill:none;stroke:#a15c00;stroke-width:2.5}
.given-line{stroke:#a15c00;stroke-width:2;stroke-dasharray:6 4}
.given-dot{fill:#a15c00;stroke:none}
@media (prefers-color-scheme:dark){
text{fill:#e6edf3;stroke:#0d1117}
.paper{fill:#0d1117}
.head{fill:#262d36}
.tint-0{fill:#101a27}
.tint-1{fill:#231c10}
.tint-2{fill:#102016}
.tint-3{fill:#211426}
.side,.swatch{stroke:#57606a}
.row{stroke:#30363d}
.number,.subtitle,.note,.remark{fill:#9198a1}
.refused{fill:#d9bf77}
.walk{fill:#0d1117;stroke:#6cb6ff}
.service{fill:#3fb950;stroke:#3fb950}
.order{fill:#453a80;stroke:#b8acf6}
.done{fill:#0d1117;stroke:#b8acf6}
.request,.request-head,.request-start{stroke:#79b8ff}
.request-head,.request-start{fill:#79b8ff}
.ack,.ack-head,.ack-start{stroke:#56d364}
.ack-start,.waits{fill:#0d1117}
.waits{stroke:#e6edf3}
.stale{stroke:#ff7b72}
.hatch-paper{fill:#3a1412}
.hatch-line{fill:#7d2a25}
.mapping,.hit-words{fill:#ffb1ab}
.life,.end,.end-mark{stroke:#9198a1}
.hit,.hit-line{stroke:#ff7b72}
.hit-dot{fill:#ff7b72}
.given,.given-line{stroke:#e3a03c}
.given-dot{fill:#e3a03c}
}
</style>
<defs><pattern id='hatch' width='8' height='8' patternUnits='userSpaceOnUse' patternTransform='rotate(45)'>
<rect class='hatch-paper' width='8' height='8'/><rect class='hatch-line' width='2' height='8'/></pattern></defs>
";
