//! `page/style.css`, by scripts/page_files.

/// The text.
pub static TEXT: &str =
    r##"/* The colours, sizes and places of the page. Texts have a contrast of at least 4.5, and edges of controls of 3. */
:root {
  --paper: #f5f6f7;
  --sheet: #fff;
  --tint: #f0f3f5;
  --ink: #1c2329;
  --soft: #56616c;
  --line: #dce1e6;
  --edge: #7f8a95;
  --accent: #0a6670;
  --on-accent: #fff;
  --second: #9a4a0b;
  --wrong: #ab2219;
  --wrong-tint: #fdeeec;
  --word: #7a3b9d;
  --literal: #2f6b2f;
  --pair: #cfe6e8;
}
@media (prefers-color-scheme: dark) {
  :root {
    --paper: #14181c;
    --sheet: #1b2126;
    --tint: #232a31;
    --ink: #e3e8ec;
    --soft: #a3aeb8;
    --line: #323b43;
    --edge: #75828e;
    --accent: #6cc4c9;
    --on-accent: #0d2224;
    --second: #f0a868;
    --wrong: #ff9d92;
    --wrong-tint: #3a2322;
    --word: #d3a6ee;
    --literal: #9bd39b;
    --pair: #2f4f54;
  }
}

/* Texts and controls */
*, ::before { box-sizing: border-box; }
[hidden], .wrong:empty, ol:empty, dl:empty { display: none !important; }
html { scrollbar-gutter: stable; }
body { margin: 0; background: var(--paper); color: var(--ink); font: 1rem/1.5 system-ui, sans-serif; }
h1, h2, h3, h4, p, ol, ul, dl, dd, pre, figure, fieldset { margin: 0; padding: 0; border: 0; }
h1 { font-size: 1.15rem; letter-spacing: -.01em; }
h2 { font-size: 1.05rem; }
h3, h4, th { font-size: .95rem; font-weight: 600; }
code, pre, kbd, dd, td, .code {
  font-family: ui-monospace, "Cascadia Code", "SF Mono", Menlo, Consolas, "DejaVu Sans Mono", monospace;
  font-size: .92rem;
}
pre, code { white-space: pre-wrap; overflow-wrap: anywhere; }
.soft, dt { color: var(--soft); font-size: .86rem; font-weight: 400; }
.wrong { color: var(--wrong); }
.unseen { position: absolute; width: 1px; height: 1px; overflow: hidden; clip-path: inset(50%); }
.skip { position: absolute; left: -99rem; }
.skip:focus { position: static; }
a { color: var(--accent); }
button, input, textarea {
  font: inherit;
  color: inherit;
  border: 1px solid var(--edge);
  border-radius: .35rem;
  background: var(--sheet);
}
button { padding: .3rem .75rem; cursor: pointer; font-size: .92rem; }
button:hover { border-color: var(--accent); color: var(--accent); }
button.main {
  background: var(--accent);
  border-color: var(--accent);
  color: var(--on-accent);
  font-weight: 600;
}
button.quiet {
  border-color: transparent;
  background: none;
  color: var(--accent);
  padding: .15rem .4rem;
  font-size: .86rem;
}
button.quiet:hover { text-decoration: underline; }
input, textarea { padding: .4rem .6rem; width: 100%; }
[type=checkbox] { width: auto; accent-color: var(--accent); }
textarea { display: block; resize: none; overflow: hidden; }
::placeholder { color: var(--soft); opacity: 1; font: italic .92rem system-ui, sans-serif; }
label { font-weight: 600; font-size: .92rem; }
:focus-visible { outline: 2px solid var(--accent); outline-offset: 2px; }
input:focus-visible, textarea:focus-visible { outline-offset: -1px; }
main:focus { outline: none; }
kbd {
  font-size: .78rem;
  border: 1px solid var(--line);
  border-radius: .25rem;
  padding: 0 .3rem;
  background: var(--tint);
}
.card {
  background: var(--sheet);
  border: 1px solid var(--line);
  border-radius: .5rem;
  padding: 1rem;
  display: grid;
  gap: .7rem;
}
.row, .chips, .notice, .legend, .axes, .banner {
  display: flex;
  flex-wrap: wrap;
  align-items: center;
  gap: .4rem .75rem;
}
.chips { gap: .5rem; }
.row > :first-child { flex: 1 1 16rem; }
.scroll { overflow-x: auto; }

/* Who it is, and the frame of the page */
.sign { max-width: 30rem; margin: 12vh auto 2rem; padding: 0 1rem; display: grid; gap: 1rem; }
.sign h1 { font-size: 1.9rem; }
.sign form {
  display: grid;
  gap: .5rem;
  background: var(--sheet);
  border: 1px solid var(--line);
  border-radius: .5rem;
  padding: 1.25rem;
}
#user { flex-basis: 10rem; }
.top {
  display: flex;
  flex-wrap: wrap;
  align-items: center;
  gap: .25rem 1.5rem;
  padding: .6rem 1.25rem;
  background: var(--sheet);
  border-bottom: 1px solid var(--line);
}
nav { display: flex; gap: .25rem; flex: 1; }
nav a { padding: .25rem .7rem; border-radius: .35rem; text-decoration: none; color: var(--soft); }
nav a:hover { color: var(--accent); }
nav a[aria-current] { background: var(--tint); color: var(--ink); font-weight: 600; }
.who { display: flex; align-items: center; gap: .4rem; min-width: 0; }
.who b { overflow: hidden; text-overflow: ellipsis; }
.light { width: .55rem; height: .55rem; border-radius: 50%; background: var(--accent); }
.light.out { background: none; border: 2px solid var(--wrong); }
.banner {
  position: sticky;
  top: 0;
  z-index: 3;
  justify-content: center;
  padding: .6rem 1.25rem;
  background: var(--wrong-tint);
  color: var(--wrong);
}
.columns {
  display: grid;
  grid-template-columns: minmax(0, 1fr) 18rem;
  gap: 1.75rem;
  max-width: 72rem;
  margin: 0 auto;
  padding: 1.25rem;
  align-items: start;
}
main section { scroll-margin-top: 10rem; }
aside { display: grid; grid-template-columns: minmax(0, 1fr); gap: 1rem; position: sticky; top: 1.25rem; }
aside { max-height: calc(100vh - 2.5rem); overflow: auto; }

/* Programs: colours lie behind a field whose text isn't seen */
.comment { color: var(--soft); font-style: italic; }
.text, .number { color: var(--literal); }
.word { color: var(--word); }
.function { color: var(--accent); }
.editor { position: relative; min-width: 0; }
.sheet { display: grid; max-height: 40vh; overflow: auto; border-radius: .35rem; background: var(--sheet); }
.sheet > * {
  grid-area: 1 / 1;
  min-width: 0;
  margin: 0;
  padding: .4rem .6rem;
  border: 1px solid transparent;
  font: .92rem/1.5 ui-monospace, "Cascadia Code", "SF Mono", Menlo, Consolas, "DejaVu Sans Mono", monospace;
  letter-spacing: normal;
  white-space: pre-wrap;
  overflow-wrap: anywhere;
  tab-size: 4;
}
.sheet textarea { height: 100%; border-color: var(--edge); background: none; color: transparent; }
.sheet textarea { caret-color: var(--ink); }
.sheet textarea::selection { background: color-mix(in srgb, var(--accent) 30%, transparent); }
.pair { background: var(--pair); text-decoration: none; border-radius: .15rem; }
.choices {
  position: absolute;
  z-index: 2;
  bottom: 100%;
  left: 0;
  right: 0;
  max-height: 14rem;
  overflow: auto;
  list-style: none;
  padding: .25rem;
  background: var(--sheet);
  border: 1px solid var(--edge);
  border-radius: .35rem;
}
.choices li { padding: .1rem .5rem; cursor: pointer; overflow-wrap: anywhere; }
.choices [aria-selected=true] { background: var(--tint); box-shadow: inset 3px 0 var(--accent); }

/* The notebook */
#notebook, .cells { display: grid; gap: .75rem; }
.cells { list-style: none; }
.tools { justify-content: end; gap: .1rem .4rem; }
.tools > *, .tools .row > * { flex: none; }
.tools .row { flex: 0 1 auto; justify-content: end; gap: 0; }
.notice { background: var(--tint); border: 1px solid var(--line); border-radius: .5rem; padding: .5rem 1rem; }
.notice > :first-child { flex: 1 1 16rem; }
.cell { background: var(--sheet); border: 1px solid var(--line); border-radius: .5rem; overflow: clip; min-width: 0; }
.is-fault { border-left: 3px solid var(--wrong); }
.is-edited { padding: .75rem; display: grid; gap: .6rem; overflow: visible; border-color: var(--accent); }
.acts > :first-child { flex: none; }
.said {
  display: flex;
  align-items: baseline;
  gap: .5rem;
  background: var(--tint);
  padding: .4rem .5rem .4rem 1rem;
}
.said pre { flex: 1; min-width: 0; }
.cells button, .cells summary { scroll-margin-bottom: 12rem; }
.reply { padding: .5rem 1rem .55rem; display: grid; gap: .2rem; justify-items: start; }
.reply > *, .told { min-width: 0; max-width: 100%; }
.reply > .quiet, #ask { margin-left: -.4rem; justify-self: start; }
.value code { font-weight: 600; }
.value.whole { max-height: 22rem; overflow: auto; }
.facts { display: flex; flex-wrap: wrap; gap: .1rem 1.5rem; width: 100%; }
.facts div { display: flex; gap: .45rem; align-items: baseline; min-width: 0; }
.facts .type { flex: 1 1 auto; }
.told { display: flex; flex-wrap: wrap; align-items: baseline; gap: .1rem 1rem; width: 100%; }
.told p { flex: 1 1 14rem; }
.raw[open] { flex-basis: 100%; }
dd { overflow-wrap: anywhere; font-variant-numeric: tabular-nums; }
mark { background: none; color: inherit; }
mark.first, mark.second { text-decoration: underline wavy var(--wrong) 1.5px; text-underline-offset: .25em; }
mark.second { text-decoration-color: var(--second); }
.say { position: sticky; bottom: 0; gap: .4rem; box-shadow: 0 -.5rem 1rem -.5rem #0002; padding: .75rem 1rem; }
#field-help { display: flex; flex-wrap: wrap; gap: .1rem .9rem; }
@media (pointer: fine) and (min-width: 52rem) { #break { display: none; } }
.check { display: flex; gap: .35rem; align-items: center; font-weight: 400; font-size: .86rem; }
dialog { max-width: 28rem; color: inherit; box-shadow: 0 1rem 3rem #0006; }
dialog:not([open]) { display: none; }
dialog .row > :first-child { flex: none; }
::backdrop { background: #0006; }

/* What is left, and names */
.bars, .names { display: grid; grid-template-columns: minmax(0, 1fr); gap: .55rem; }
.bars div {
  display: flex;
  flex-wrap: wrap;
  justify-content: space-between;
  align-items: baseline;
  gap: .2rem .5rem;
}
.bars dd, .names dd { font-size: .82rem; }
.bars dd:last-child { flex-basis: 100%; }
.bar, .filled { display: block; height: .4rem; border-radius: .2rem; background: var(--line); }
.filled { background: var(--accent); }
.filled.low { background: var(--wrong); }
.names dt { color: var(--ink); font-weight: 600; overflow-wrap: anywhere; }
.names dd { color: var(--soft); }

/* Measuring */
#measure, #measured, #lessons, #lesson-list, .lesson > div { display: grid; gap: .75rem; }
#measure-form > label { margin-bottom: -.5rem; }
.pair-of { display: grid; grid-template: auto auto / minmax(0, 1fr) minmax(0, 12rem); grid-auto-flow: column; }
.pair-of { gap: .2rem .75rem; }
legend { float: left; font-size: .92rem; }
.axes label { font-weight: 400; display: flex; gap: .35rem; align-items: center; }
.legend { list-style: none; }
.legend li::before {
  content: "";
  display: inline-block;
  width: 1.6rem;
  margin-right: .5rem;
  vertical-align: middle;
  border-top: 3px solid var(--accent);
}
.legend .second::before { border-top: 3px dashed var(--second); }
.curves { display: grid; grid-template-columns: repeat(auto-fit, minmax(min(19rem, 100%), 1fr)); gap: 1rem; }
figure { min-width: 0; align-content: space-between; }
svg { display: block; max-width: 100%; }
svg text { fill: var(--soft); font: .78rem system-ui, sans-serif; }
svg line { stroke: var(--line); }
svg .foot { stroke: var(--edge); }
svg .title { fill: var(--ink); paint-order: stroke; stroke: var(--sheet); stroke-width: 3px; }
.curve { stroke: var(--accent); stroke-width: 2; fill: var(--accent); }
.curve.second { stroke: var(--second); fill: none; }
.curve polyline { fill: none; }
.curve.second polyline { stroke-dasharray: 6 4; }
#copy, figure .quiet { flex: none; justify-self: start; }
table { border-collapse: collapse; background: var(--sheet); font-variant-numeric: tabular-nums; }
caption { text-align: left; font-weight: 600; padding-bottom: .4rem; }
th, td { padding: .2rem .8rem; border: 1px solid var(--line); text-align: right; }

/* Lessons */
summary { cursor: pointer; list-style: none; padding-left: 1.1rem; position: relative; }
summary::-webkit-details-marker { display: none; }
summary::before { content: "▸"; position: absolute; left: 0; color: var(--soft); }
[open] > summary::before { content: "▾"; }
summary h3 { display: inline; margin-right: .5rem; }
.lesson { display: block; }
.lesson > div { margin-top: 1rem; }
.lesson h4 { margin-top: .75rem; font-size: 1rem; }
.lesson p, .lesson ul { max-width: 42rem; }
.lesson ul { padding-left: 1.25rem; }
.lesson pre:not(.paint) { width: 100%; background: var(--tint); padding: .6rem .8rem; border-radius: .35rem; }
.lesson th, .lesson td { font: inherit; font-size: .92rem; text-align: left; }
.lesson th { font-weight: 600; }
.block { display: grid; gap: .5rem; justify-items: start; }
.block code, .block samp { display: block; padding-left: 2ch; text-indent: -2ch; }
.block samp { font: inherit; color: var(--soft); margin-bottom: .3rem; }
.exercise > * { width: 100%; }
.exercise .choices { bottom: auto; top: 100%; }
.tests { padding-left: 1.5rem; display: grid; gap: .6rem; }
.tests code { display: inline; padding: 0; text-indent: 0; }
.right { color: var(--literal); }
.curve-of { max-width: 34rem; }
.solution { display: grid; gap: .75rem; }
.solution h4 { display: inline; }

@media (max-width: 52rem) {
  .columns { grid-template-columns: minmax(0, 1fr); padding: .75rem; gap: 1rem; }
  aside { position: static; max-height: none; }
  .top { padding: .5rem .75rem; }
  .top h1, nav a { flex: 1; text-align: center; }
  .top h1 { text-align: left; }
  nav { order: 3; flex-basis: 100%; }
  button, summary, nav a, .check, .axes label { min-height: 2.75rem; }
  summary, nav a { align-content: center; }
  button.quiet { min-width: 2.75rem; padding: .15rem .55rem; }
  .tools { flex-wrap: nowrap; justify-content: start; overflow-x: auto; }
  .tools .row { flex: none; flex-wrap: nowrap; }
  .said { align-items: center; padding-top: .2rem; padding-bottom: .2rem; }
  .say { padding: .5rem .75rem; gap: .3rem; }
  .pair-of { grid-template: none / minmax(0, 1fr); grid-auto-flow: row; }
  .say .row { justify-content: end; }
  #field-help { display: none; }
  th, td { padding: .2rem .45rem; }
}
/* Low windows, as at 200 % */
@media (max-height: 32rem) {
  #field-label, #field-help { position: absolute; width: 1px; height: 1px; overflow: hidden; clip-path: inset(50%); }
  .say { padding: .35rem .75rem; grid-template-columns: minmax(0, 1fr) auto; align-items: center; }
  .say .row { flex-wrap: nowrap; }
  .say .wrong { grid-column: 1 / -1; grid-row: 2; }
  .sheet { max-height: 30vh; }
  #break { display: none; }
}
@media print {
  .top, .banner, .say, aside, .tools, .notice, .cells button, #measure-form, .axes { display: none; }
  .columns { display: block; max-width: none; padding: 0; }
  .cell, .card { break-inside: avoid; }
}
.saved { max-width: 52rem; margin: 2rem auto; padding: 0 1rem; display: grid; gap: 1rem; }
"##;
