//! What stands before the shapes of a picture.
use crate::frame::Frame;
use std::alloc::{AllocError, Global};

/// The looks of all shapes, in light and in dark surroundings. No two of them are told apart by their colour alone.
const STYLE: &str = "\
<style>
text{font-family:DejaVu Sans,Helvetica,Arial,sans-serif;font-size:12px;fill:#1b1f24}
.found{font-size:13px}
.small{font-size:11px}
.ground{fill:#fff}
.axis{stroke:#87919b;stroke-width:1.5}
.true{fill:#87919b}
.member{fill:#87919b;stroke:#1b1f24;stroke-width:2}
.event{fill:#1b1f24}
.message{fill:none;stroke:#5b6875;stroke-width:1.2;marker-end:url(#tip)}
.tip{fill:#5b6875}
.far{stroke-dasharray:6 3}
.open{stroke-dasharray:2 3;marker-end:url(#end)}
.end{fill:#fff;stroke:#5b6875}
.moment{fill:none;stroke:#1b1f24;stroke-width:2;stroke-dasharray:7 4}
@media (prefers-color-scheme:dark){
text{fill:#e6e9ec}
.ground{fill:#14181c}
.axis{stroke:#6e7a85}
.true{fill:#6e7a85}
.member{fill:#6e7a85;stroke:#e6e9ec}
.event{fill:#e6e9ec}
.message,.end{stroke:#9aa8b5}
.tip{fill:#9aa8b5}
.end{fill:#14181c}
.moment{stroke:#e6e9ec}
}
</style>
<defs>
<marker id=\"tip\" viewBox=\"0 0 8 8\" refX=\"10\" refY=\"4\" markerWidth=\"7\" markerHeight=\"7\" orient=\"auto\">\
<path class=\"tip\" d=\"M0 0.8L8 4L0 7.2z\"/></marker>
<marker id=\"end\" viewBox=\"0 0 8 8\" refX=\"4\" refY=\"4\" markerWidth=\"7\" markerHeight=\"7\">\
<circle class=\"end\" cx=\"4\" cy=\"4\" r=\"3\"/></marker>
</defs>
<rect class=\"ground\" width=\"100%\" height=\"100%\"/>
";

/// What the picture shows, for who can't see it.
const DESCRIPTION: &str =
    "Each line is a process or a host, and time goes from left to right. A dot is an event, an \
    arrow a message, and a bar a time in which its condition held.";

/// The first lines of a picture of this height, in pixels: its size, its title, and the looks of its shapes. `Err`
/// where memory runs out.
pub fn head_of(
    alloc: Global,
    frame: &Frame,
    height: u32,
    title: &str,
) -> Result<String, AllocError> {
    let width = frame.width();
    format!(in alloc;
        "<svg xmlns=\"http://www.w3.org/2000/svg\" width=\"{width}\" height=\"{height}\" \
         viewBox=\"0 0 {width} {height}\" role=\"img\">\n\
         <title>{title}</title>\n<desc>{DESCRIPTION}</desc>\n{STYLE}"
    )
}
