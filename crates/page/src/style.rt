// The style of the page: for screens of any width, light and dark, and for A4.
ghost use Rattle.std.specs.Prelude.{◌≤◌, length};
ghost use Rattle.printing.specs.Says.{Says};
ghost use Rattle.page.specs.Style.{type_style, table_style, narrow_style, print_style, style_text};

use printing::say;
use printing::text::Text;

// The page, its type and its colours.
fn say_type(out: &mut Text)
    ensures { Says out.old out.new type_style }
{
    out.say(
        b"</title>
<style>
:root { --ground:#f1efe8; --paper:#fffefb; --ink:#1d2420; --soft:#566059; --rule:#cfcbbd;
  --bar:#2f6b4f; --up:#1d5c8a; --warn:#8f1d14; --warnbg:#fcefec;
  --serif:\"Iowan Old Style\",\"Palatino Linotype\",Palatino,\"Noto Serif\",Georgia,serif;
  --sans:\"Segoe UI\",system-ui,-apple-system,Roboto,\"Noto Sans\",\"Helvetica Neue\",Arial,sans-serif }
* { box-sizing:border-box }
html { background:var(--ground); color:var(--ink); -webkit-text-size-adjust:100% }
body { margin:0; font:1rem/1.5 var(--sans); font-variant-numeric:lining-nums tabular-nums }
main { max-width:64rem; margin:2.5rem auto; padding:3.25rem 4rem 3rem; background:var(--paper) }
h1, h2, .sum { font-family:var(--serif); font-weight:400; margin:0 }
p { margin:0; max-width:44rem }
sub { font-size:.7em; line-height:0; vertical-align:-.25em }
small { display:inline-block; font-size:1em; font-weight:400; color:var(--soft) }
header { display:flex; justify-content:space-between; align-items:baseline; border-bottom:2px solid; padding-bottom:.75rem }
h1 { font-size:1.75rem; line-height:1.2 }
.total { padding:1.75rem 0 .25rem }
.total p + p { margin-top:.35rem }
.sum { font-size:4.25rem; line-height:1.1; letter-spacing:-.01em }
.sum span { font-size:1.5rem; letter-spacing:0 }
.soft, header p, h2 + p:not(.note) { color:var(--soft) }
",
    );
}

// Sections, tables and bars.
fn say_tables(out: &mut Text)
    ensures { Says out.old out.new table_style }
{
    out.say(
        b"section { margin-top:2.5rem }
h2 { font-size:1.375rem; line-height:1.25; margin-bottom:.25rem }
table { width:100%; border-collapse:collapse; margin-top:.75rem; font-size:.875rem; line-height:1.35 }
th { font-weight:400; text-align:left; vertical-align:bottom; padding:.45rem 0 .2rem }
td { text-align:right; vertical-align:bottom; padding:.45rem 0 .2rem 1rem }
thead th { color:var(--soft); padding:0 0 .3rem }
thead th + th { text-align:right; padding-left:1rem }
thead { border-bottom:1px solid }
b, .co2e { font-weight:600 }
tbody th { color:var(--soft) }
tbody th b { color:var(--ink); margin-right:.35em }
table:not(.wide) tbody tr + tr > * { border-top:1px solid var(--rule) }
.bars td { padding:0; border-bottom:1px solid var(--rule) }
tfoot th, tfoot td { border-top:1px solid; border-bottom:3px double; padding-top:.5rem; padding-bottom:.5rem; font-weight:600 }
tbody:last-of-type .bars td { border-bottom:0 }
tbody td:empty::after { content:\"\\2013\"; color:var(--soft) }
svg { display:block; width:0; min-width:100%; height:7px; fill:var(--bar) }
.up { fill:none; stroke:var(--up); stroke-width:2; vector-effect:non-scaling-stroke }
.zero { stroke:var(--ink); stroke-width:1.5; vector-effect:non-scaling-stroke }
.two { display:grid; grid-template-columns:1fr 1fr; gap:0 3rem }
ul, .note { margin:0; padding-left:1.1rem; font-size:.875rem }
.note { padding:0 }
.not { margin-top:2rem; padding:1.5rem 1.75rem; border:4px solid var(--warn); background:var(--warnbg) }
.not h2 { font-size:2.25rem; color:var(--warn) }
.not h2 + p { color:var(--ink) }
ol { margin:.25rem 0 0; padding-left:1.25rem }
footer { margin-top:2.5rem; border-top:1px solid var(--rule); padding-top:.6rem; color:var(--soft); font-size:.8125rem }
",
    );
}

// Narrow screens.
fn say_narrow(out: &mut Text)
    ensures { Says out.old out.new narrow_style }
{
    out.say(
        b"@media screen and (max-width:64rem) {
  main { margin:0 auto; padding:2rem 1.5rem }
  table { font-size:.79rem }
  td, thead th + th { padding-left:.3rem }
}
@media screen and (max-width:47.9rem) {
  main { padding:1.5rem 1rem 2rem }
  table { font-size:.875rem }
  header { display:block }
  .sum { font-size:2.75rem }
  .sum span { display:block; font-size:1.125rem; line-height:1.5 }
  .two { grid-template-columns:1fr; gap:2rem }
  .wide, .wide tbody, .wide tfoot, .wide thead { display:block }
  .wide tr { display:grid; grid-template-columns:1fr auto; gap:0 1rem; padding-top:.5rem }
  .wide th, .wide td { display:block; padding:.1rem 0; border:0 }
  .wide thead th:not(:first-child):not(:last-child) { display:none }
  .wide tbody th, .wide tfoot th, .wide .co2e { grid-row:1; font-size:1rem }
  .wide td { grid-column:1/-1 }
  .wide .co2e { grid-column:2 }
  .wide td:not(.co2e)::before { content:attr(data-l); float:left; color:var(--soft); font-weight:400 }
  .wide td:empty { display:none }
  #gases { font-size:.8125rem }
  #gases tbody th { width:0 }
  #gases td:nth-child(3) { white-space:nowrap }
  .wide .bars { display:block; padding:.25rem 0 0; border-bottom:1px solid var(--rule) }
  .wide tfoot tr { border-top:1px solid; border-bottom:3px double; padding:.5rem 0 }
}
",
    );
}

// A4 and the dark; it ends where the farm stands on each printed page.
fn say_print(out: &mut Text)
    ensures { Says out.old out.new print_style }
{
    out.say(
        b"@media print {
  @page { size:A4; margin:15mm 16mm 18mm;
    @bottom-right { content:counter(page) \" of \" counter(pages); font:8pt sans-serif; color:#566059 } }
  :root { --ground:#fff; --paper:#fff }
  body { font-size:9.5pt; line-height:1.4 }
  main { max-width:none; margin:0; padding:0 }
  h1 { font-size:19pt } h2 { font-size:13.5pt } .sum { font-size:40pt } .sum span { font-size:15pt }
  table { font-size:8pt } ul, .note { font-size:9.5pt }
  td, thead th + th { padding-left:2mm }
  section { margin-top:7.5mm; break-inside:avoid }
  svg { height:1.8mm }
  footer { display:none }
}
@media screen and (prefers-color-scheme:dark) {
  :root { --ground:#111512; --paper:#1a1f1c; --ink:#e9ece7; --soft:#a7b1a9; --rule:#3b443e;
    --bar:#7cc29f; --up:#8dbde8; --warn:#ffb4aa; --warnbg:#2f1a18 }
}
@media print { @page { @bottom-left { content:\"",
    );
}

pub(crate) fn say_style(out: &mut Text)
    ensures { Says out.old out.new style_text }
{
    say_type(out);
    say_tables(out);
    say_narrow(out);
    say_print(out);
}
