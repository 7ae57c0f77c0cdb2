//! The style of the page.

/// The colours by day and by night.
const COLOURS: &str =
    "\n:root{color-scheme:light dark;--bg:#fff;--ink:#1f2328;--soft:#59636e;--rule:#d1d9e0;--pale:#f6f8fa;--good:#1a7f37;--bad:#c81e2b;--open:#9a6700;--link:#0a58ca}\n@media (prefers-color-scheme:dark){:root{--bg:#0d1117;--ink:#e6edf3;--soft:#9198a1;--rule:#30363d;--pale:#151b23;--good:#3fb950;--bad:#f0505a;--open:#d29922;--link:#6aa7f0}}\n";

/// The verdict, and the reasons for it.
const FINDINGS: &str =
    "*{box-sizing:border-box}body{margin:0;background:var(--bg);color:var(--ink);font:15px/1.5 system-ui,-apple-system,\"Segoe UI\",\"Liberation Sans\",\"DejaVu Sans\",sans-serif}\nmain{max-width:1160px;margin:0 auto;padding:20px 24px 60px}h1{font-size:20px;line-height:1.35;margin:0 0 4px;padding-left:12px;border-left:6px solid var(--bad)}\nh1.legal{border-color:var(--good)}h1.open{border-color:var(--open)}h2{font-size:16px;margin:28px 0 8px}p.s,.s{color:var(--soft)}p{margin:4px 0}\ncode,td,dd,dt,input{font-family:ui-monospace,\"SFMono-Regular\",\"Liberation Mono\",\"DejaVu Sans Mono\",monospace;font-size:13px}\ndl{display:grid;grid-template-columns:max-content 1fr;gap:3px 16px;margin:14px 0}dt{color:var(--soft)}dd{margin:0;overflow-wrap:anywhere}\n";

/// The table of messages, and its filter.
const TABLE: &str =
    "dd.look{font-family:inherit;font-size:15px}svg{display:block;width:100%;height:auto;border:1px solid var(--rule);border-radius:6px}\n.tools{display:flex;gap:12px;align-items:center;flex-wrap:wrap;margin:8px 0}input{flex:1 1 260px;max-width:460px;padding:6px 8px;border:1px solid var(--rule);border-radius:6px;background:var(--pale);color:inherit}\ntable{border-collapse:collapse;width:100%}th{text-align:left;font-size:13px;color:var(--soft);font-weight:600}th,td{padding:3px 10px 3px 0;vertical-align:top;border-bottom:1px solid var(--rule)}\ntd.n{text-align:right;white-space:nowrap;color:var(--soft)}td.t{overflow-wrap:anywhere;width:100%}tr.bad td{background:color-mix(in srgb,var(--bad) 16%,transparent)}\ntr.answer td.t{padding-left:20px}tr:target td{background:color-mix(in srgb,var(--open) 24%,transparent)}tr.gap td{color:var(--soft);text-align:center}a{color:var(--link);text-decoration:none}a:hover{text-decoration:underline}\n.err{color:var(--bad);font-weight:600}[hidden]{display:none}\n";

/// What stands between the title of a page and what it shows: the end of its head, with its style.
pub(crate) static BEHIND_TITLE: [&str; 5] = [
    "</title><style>",
    COLOURS,
    FINDINGS,
    TABLE,
    "</style></head><body><main>\n",
];
