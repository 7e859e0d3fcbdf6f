//! `page/index.html`, by scripts/page_files.

/// The text.
pub static TEXT: &str = r##"<!doctype html>
<html lang="en">
<head>
<meta charset="utf-8">
<title>Pazkindu</title>
<meta name="viewport" content="width=device-width, initial-scale=1">
<meta name="color-scheme" content="light dark">
<meta name="description" content="A notebook for NESL in which every reply has its work and its depth.">
<link rel="icon" href="icon.svg" type="image/svg+xml">
<link rel="stylesheet" href="style.css">
<script type="module" src="main.js"></script>
</head>
<body>
<noscript><p class="banner">This page sends lines to its server by JavaScript, which is turned off here.</p></noscript>
<p id="spoken" class="unseen" role="status"></p>

<main id="sign" class="sign" hidden>
  <h1>Pazkindu</h1>
  <p>A notebook for NESL, the nested data-parallel language. Each reply has a value, its type, its <b>work</b> (the
    number of all steps) and its <b>depth</b> (the longest chain of steps that wait for each other).</p>
  <form id="sign-form">
    <label for="user">User</label>
    <div class="row">
      <input id="user" name="user" autocomplete="username" autocapitalize="off" spellcheck="false" maxlength="16"
        aria-describedby="sign-help sign-fault" required>
      <button class="main">Connect</button>
    </div>
    <label for="key">Key <span class="soft">(if you were given one)</span></label>
    <input id="key" name="key" type="password" autocomplete="current-password" spellcheck="false" maxlength="32"
      aria-describedby="sign-help sign-fault">
    <p id="sign-fault" class="wrong" role="alert"></p>
    <p id="sign-help" class="soft">One of the names that the server was started with, for instance <code>ann</code>.
      A server may ask for a key, too; a link with your name and key signs you in. <span id="lasting">A session lasts
      until the server is stopped.</span></p>
  </form>
</main>

<div id="book" hidden>
<div id="banner" class="banner" role="alert" hidden>
  <p id="banner-text"></p>
  <button type="button" id="again" class="main">Connect now</button>
</div>

<header class="top">
  <a class="skip" href="#main">To the main part</a>
  <h1>Pazkindu</h1>
  <nav aria-label="Views">
    <a href="#notebook">Notebook</a>
    <a href="#measure">Measure</a>
    <a href="#lessons">Lessons</a>
  </nav>
  <p class="who"><span id="light" class="light"></span><span class="unseen">User </span><b id="who"></b>
    <button type="button" id="leave" class="quiet">Leave</button></p>
</header>

<div class="columns">
<main id="main" tabindex="-1">

<section id="notebook" aria-labelledby="notebook-title" hidden>
  <h2 id="notebook-title" class="unseen">Notebook</h2>
  <p class="row tools">
    <input type="file" id="file" accept=".nesl,.txt,text/plain" aria-label="A file of inputs" hidden>
    <button type="button" id="open" class="quiet">Open</button>
    <span id="tools" class="row" hidden>
    <button type="button" id="save" class="quiet" title="All inputs, as a program">Save</button>
    <button type="button" id="save-page" class="quiet" title="Inputs, replies and curves">Save as a page</button>
    <button type="button" id="print" class="quiet">Print</button>
    <button type="button" id="again-all" class="quiet">Run all again</button>
    <button type="button" id="empty-book" class="quiet">Empty</button></span>
  </p>
  <p id="notice" class="notice" role="status" hidden></p>
  <div id="empty" class="card">
    <h3>Run something to begin</h3>
    <p>An input is an expression, a definition or a command, and ends in “;”. Write one or several below, or take one of
      these. <kbd>Tab</kbd> completes a name, and <code>:help</code> lists what there is.</p>
    <p id="examples" class="chips"></p>
  </div>
  <ol id="cells" class="cells" aria-label="Inputs and replies"></ol>
  <form id="say" class="card say">
    <label for="field" id="field-label">Input</label>
    <textarea id="field" class="code" rows="1" spellcheck="false" autocapitalize="off" autocomplete="off"
      aria-describedby="field-help field-fault" aria-autocomplete="list" placeholder="Write an input here"></textarea>
    <p id="field-fault" class="wrong" role="alert"></p>
    <div class="row">
      <p id="field-help" class="soft"><span><kbd>Enter</kbd> runs what is whole</span>
        <span><kbd>Shift</kbd> <kbd>Enter</kbd> breaks the line</span>
        <span><kbd>↑</kbd> <kbd>↓</kbd> earlier inputs</span></p>
      <label id="stopping" class="check" hidden><input type="checkbox" id="stops" checked> Stop at an error</label>
      <button type="button" id="break" class="quiet">New line</button>
      <button class="main" id="run">Run</button>
    </div>
  </form>
</section>

<section id="measure" aria-labelledby="measure-title" hidden>
  <h2 id="measure-title">Measure</h2>
  <p>Write an expression with <code>n</code> in it. It is evaluated once for each value of n, and its work and depth
    are drawn over n. The numbers are exact, and the same on every machine.</p>
  <form id="measure-form" class="card">
    <div class="pair-of"><label for="first">Expression</label>
      <textarea id="first" class="code" rows="1" spellcheck="false" autocapitalize="off"></textarea>
      <label for="first-name">Its name <span class="soft">(may be empty)</span></label>
      <textarea id="first-name" rows="1" maxlength="60"></textarea></div>
    <div class="pair-of"><label for="second">Second expression <span class="soft">(may be empty)</span></label>
      <textarea id="second" class="code" rows="1" spellcheck="false" autocapitalize="off"></textarea>
      <label for="second-name">Its name <span class="soft">(may be empty)</span></label>
      <textarea id="second-name" rows="1" maxlength="60"></textarea></div>
    <label for="values">Values of n</label>
    <textarea id="values" class="code" rows="1" inputmode="numeric" aria-describedby="price"></textarea>
    <p class="chips" id="series"></p>
    <div class="row">
      <p id="price" class="soft"><b id="lines"></b>: each measurement counts as a line of the session, and uses up its
        work. The last value is bound to <code>it</code>. No other name is touched.</p>
      <button class="main" id="go">Measure</button>
    </div>
    <p id="share" class="soft"></p>
    <p id="measure-fault" class="wrong" role="alert"></p>
  </form>
  <div id="measured" hidden>
    <fieldset class="axes">
      <legend>Logarithmic</legend>
      <label><input type="checkbox" id="log-n" checked> n</label>
      <label><input type="checkbox" id="log-work" checked> work</label>
      <label><input type="checkbox" id="log-depth"> depth</label>
    </fieldset>
    <ul id="legend" class="legend"></ul>
    <div class="curves">
      <figure class="card"><figcaption><h3>Work</h3><p id="work-slope" class="soft"></p></figcaption>
        <div id="work-curve"></div>
        <button type="button" id="work-svg" class="quiet">Save the work as SVG</button></figure>
      <figure class="card"><figcaption><h3>Depth</h3><p id="depth-slope" class="soft"></p></figcaption>
        <div id="depth-curve"></div>
        <button type="button" id="depth-svg" class="quiet">Save the depth as SVG</button></figure>
    </div>
    <div class="scroll" tabindex="0" role="region" aria-labelledby="table-title">
      <table id="table"><caption id="table-title">Work and depth for each n</caption></table>
    </div>
    <p class="row"><button type="button" id="copy">Copy as CSV</button>
      <button type="button" id="save-csv">Save as CSV</button>
      <span id="copied" class="soft" role="status"></span></p>
  </div>
</section>

<section id="lessons" aria-labelledby="lessons-title" hidden>
  <h2 id="lessons-title">Lessons</h2>
  <p>Problems, their programs, and why their work and depth are what they are. A lesson is one session, from its first
    block to its last: run <code>:reset</code> in the notebook before you begin another.</p>
  <div id="lesson-list"></div>
</section>
</main>

<aside aria-label="The session">
<section class="card" aria-labelledby="left-title">
  <h2 id="left-title">Budget left</h2>
  <dl id="bars" class="bars"></dl>
  <p id="rest" class="soft"></p>
  <details><summary class="soft">In numbers</summary>
    <dl id="numbers" class="bars"></dl>
    <p class="soft">The page asks by <code>:budget</code> after each run, which counts as a line.</p></details>
</section>
<section class="card" aria-labelledby="names-title">
  <h2 id="names-title">Names</h2>
  <p id="no-names" class="soft">Nothing is bound yet.</p>
  <dl id="names" class="names"></dl>
  <button type="button" id="ask" class="quiet" title="By :names, and :type for each variable">Ask again</button>
</section>
</aside>
</div>
</div>
</body>
</html>
"##;
