//! The style of the page, for a screen and for A4.

/// The text before the body.
pub const HEAD: &str =
    "<!doctype html>\n<html lang=\"en\">\n<head>\n<meta charset=\"utf-8\">\n<meta name=\"viewport\" content=\"width=device-width\">\n";

/// The page's own style. It names no file and no address.
pub const STYLE: &str =
    "<style>\n@page { size: A4; margin: 16mm; }\nbody { font: 10.5pt/1.4 sans-serif; color: #111; background: #fff; max-width: 50em; margin: 1.5em auto; padding: 0 1em; }\nh1 { font-size: 1.5em; margin-bottom: 0.2em; }\nh2 { font-size: 1.15em; margin-top: 1.6em; border-bottom: 1px solid #999; break-after: avoid; }\ntable { border-collapse: collapse; width: 100%; font-size: 0.85em; }\nth, td { text-align: left; vertical-align: top; padding: 0.15em 0.5em 0.15em 0; border-bottom: 1px solid #ddd; }\ntd { overflow-wrap: break-word; }\nth { white-space: nowrap; }\ntr { break-inside: avoid; }\ntr:first-child { break-after: avoid; }\npre { font-size: 0.75em; line-height: 1.35; white-space: pre-wrap; overflow-wrap: break-word; background: #f5f5f5; padding: 0.6em; }\ncode { overflow-wrap: anywhere; }\ntd code { font-size: 0.85em; }\n.broken { font-weight: bold; }\n.word { font-size: 1.3em; font-weight: bold; }\nsvg { width: 100%; height: auto; break-inside: avoid; }\n.legend { font-size: 0.85em; }\n.key { width: 2em; height: 1em; vertical-align: middle; }\n.number { white-space: nowrap; }\n@media print { body { margin: 0; max-width: none; padding: 0; } pre { background: none; border: 1px solid #bbb; } }\n</style>\n";
