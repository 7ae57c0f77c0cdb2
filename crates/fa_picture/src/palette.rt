//! The style of a picture: its letters, and its colours by day and by night. There are no variables in it, which not each renderer of SVG
//! knows.

/// The letters of a picture, and how what was never answered is drawn.
const LETTERS: &str =
    ".kp text{font:11px system-ui,-apple-system,\"Segoe UI\",\"Liberation Sans\",\"DejaVu Sans\",sans-serif}.kp .n{font-size:10px;text-anchor:middle}\n.kp .h{font-size:13px;font-weight:600}.kp .op,.kp .err{font-weight:600}.kp .marked{font-size:10px;text-anchor:middle;font-weight:600}.kp .never{stroke-dasharray:4 3}\n";

/// The colours of a picture by day. A bar with open ends has no line around it; its lines are drawn one by one.
const LIGHT: &str = "\
     .kp rect.other{fill:#eceef0;stroke:#8c959f}.kp line.other{stroke:#8c959f}\
     .kp rect.change{fill:#fbe6b3;stroke:#a86400}.kp line.change{stroke:#a86400}\
     .kp rect.read{fill:#ddeafb;stroke:#2f6fbf}.kp line.read{stroke:#2f6fbf}\
     .kp .bg,.kp rect.error{fill:#ffffff}.kp text{fill:#1f2328}.kp .n,.kp .s{fill:#59636e}\
     .kp .rule{stroke:#d1d9e0}.kp .edge{fill:#a86400}\
     .kp rect.bad{fill:#c81e2b;stroke:#c81e2b}.kp line.bad{stroke:#c81e2b}\
     .kp .err,.kp .flag{fill:#c81e2b}.kp g.bad .in{fill:#ffffff}\
     .kp .mark{fill:#1f2328}.kp .marked{fill:#ffffff}\
     .kp rect.open{stroke:none}";

/// The same by night.
const DARK: &str = "\
     .kp rect.other{fill:#20262d;stroke:#6e7681}.kp line.other{stroke:#6e7681}\
     .kp rect.change{fill:#4a3205;stroke:#e0a537}.kp line.change{stroke:#e0a537}\
     .kp rect.read{fill:#12305a;stroke:#6aa7f0}.kp line.read{stroke:#6aa7f0}\
     .kp .bg,.kp rect.error{fill:#0d1117}.kp text{fill:#e6edf3}.kp .n,.kp .s{fill:#9198a1}\
     .kp .rule{stroke:#30363d}.kp .edge{fill:#e0a537}\
     .kp rect.bad{fill:#f0505a;stroke:#f0505a}.kp line.bad{stroke:#f0505a}\
     .kp .err,.kp .flag{fill:#f0505a}.kp g.bad .in{fill:#160406}\
     .kp .mark{fill:#e6edf3}.kp .marked{fill:#0d1117}\
     .kp rect.open{stroke:none}";

/// The style of a picture, as it is with and without a preference for dark colours.
pub(crate) static STYLE: [&str; 6] = [
    "<style>",
    LETTERS,
    LIGHT,
    "\n@media (prefers-color-scheme:dark){",
    DARK,
    "}</style>",
];
