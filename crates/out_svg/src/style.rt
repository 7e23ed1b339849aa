//! The style of all pictures.
//!
//! The colours are black, greys, and of the palette of Okabe and Ito (2008) blue, vermilion and bluish green: readers
//! who are blind to some colours can tell them apart, also by their lightness, and no two things differ by colour
//! alone.

/// How each class is drawn, and the head of arrows.
pub(crate) const STYLE: &[u8] = b"<style>\n\
    text{font-family:DejaVu Sans,Verdana,Arial,sans-serif}\n\
    @page{size:landscape}\n\
    @media print{svg{width:100%;height:auto;max-height:100vh}}\n\
    .page{fill:#fff}\n\
    .head{fill:#0072b2}\n\
    .process{stroke:#767676;stroke-width:1}\n\
    .past{fill:#000;stroke:#000;stroke-width:2}\n\
    .next{fill:#fff;stroke:#000;stroke-width:2}\n\
    .message{stroke:#0072b2;stroke-width:2}\n\
    .flight{stroke:#0072b2;stroke-width:2;stroke-dasharray:7 5}\n\
    .beyond{fill:#fff;stroke:#0072b2;stroke-width:2}\n\
    .cut{fill:none;stroke:#d55e00;stroke-width:4;stroke-linejoin:round}\n\
    .number{fill:#595959;stroke:#fff;stroke-width:4;paint-order:stroke}\n\
    .step{fill:#006b4f;font-weight:bold;stroke:#fff;stroke-width:4;paint-order:stroke}\n\
    .value{fill:#a84a00;font-weight:bold;stroke:#fff;stroke-width:4;paint-order:stroke}\n\
    .name{fill:#000;font-weight:bold}\n\
    .note{fill:#000}\n\
    </style>\n\
    <defs><marker id=\"head\" viewBox=\"0 0 10 10\" refX=\"10\" refY=\"5\" \
    markerWidth=\"10\" markerHeight=\"10\" markerUnits=\"userSpaceOnUse\" orient=\"auto\">\
    <path class=\"head\" d=\"M0 0L10 5L0 10z\"/></marker></defs>\n";
