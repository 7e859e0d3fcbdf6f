//! `page/measure.js`, by scripts/page_files.

/// The text.
pub static TEXT: &str =
    r##"/** Measuring: an expression is evaluated for several n, and its work and depth are drawn over n. */
import { drawCurves, svgText } from "./curves.js";
import { announce, asked, button, find, growing, make, save } from "./dom.js";
import { foreseen, kindOf, lastHalf, slopeOf } from "./fit.js";
import { book } from "./kept.js";
import { FAULTS, grouped, measuringLine, readReply } from "./language.js";
import { workLeft } from "./left.js";
import { session } from "./session.js";

/**
 * @typedef {object} Series
 * @property {string} name "first" or "second"
 * @property {string} title what it is called: the name that the user gave it, or the expression
 * @property {string} expression
 * @property {Map<number, object>} told the reply for each n, taken apart
 */

const MOST_VALUES = 200;
const FIRST = 4; // values of n from which the work of the others is foreseen
const MUCH = 0.1; // of the work that is left, before the page asks
const doubling = (most) => Array.from({ length: Math.log2(most) + 1 }, (_, place) => 2 ** place).join(", ");
const OFFERED = [
  ["doubling to 1,024", doubling(1024)],
  ["doubling to 16,384", doubling(16384)],
  ["1 to 20", Array.from({ length: 20 }, (_, place) => place + 1).join(", ")],
];
const AT_FIRST = {
  first: "sum(index(n))", "first-name": "", second: "", "second-name": "", values: doubling(1024),
};
/** What a slope is of, where the axis of n is linear or logarithmic, and then the other axis. */
const UNITS = [["per 1 of n", "doublings per 1 of n"], ["per doubling of n", "as a power of n"]];
/** Faults that depend on n: with another n the expression may have a value. */
const FOR_THIS_N = /^(overflow|division|range|code|length|empty|permutation|count|stride)$/;

/** @type {Series[]} */
let measured = [];
let running = false;
let afterMeasuring = () => {};
const fields = {};

/** Makes the view ready, with what is to be done when something was measured. */
export function openMeasure(then) {
  afterMeasuring = then;
  for (const name of Object.keys(AT_FIRST)) {
    fields[name] = growing(find(name), start);
    find(name).addEventListener("input", tellPrice);
  }
  find("series").append(...OFFERED.map(([text, values]) => button("button", text, () => setValues(values))));
  find("measure-form").addEventListener("submit", (event) => {
    event.preventDefault();
    if (running) running = false;
    else start();
  });
  find("copy").addEventListener("click", copy);
  find("save-csv").addEventListener("click", () => save("costs.csv", "text/csv", csv()));
  for (const what of ["work", "depth"]) {
    const saved = () => save(`${what}.svg`, "image/svg+xml", svgText(find(`${what}-curve`)));
    find(`${what}-svg`).addEventListener("click", saved);
  }
  ["log-n", "log-work", "log-depth"].forEach((name) => find(name).addEventListener("change", draw));
  new ResizeObserver(draw).observe(find("work-curve"));
}

/** Shows the view: fields have a height only where they are seen. */
export function showMeasure() {
  const words = { ...AT_FIRST, ...book.words.measure };
  for (const [name, set] of Object.entries(fields)) set(find(name).value || words[name]);
  tellPrice();
  draw();
}

function setValues(values) {
  fields.values(values);
  tellPrice();
}

/** The values of n, each once and in order; null where one isn't a number that can be drawn. */
function values() {
  const words = find("values").value.split(/[\s,;]+/).filter(Boolean);
  if (!words.every((word) => /^\d{1,15}$/.test(word))) return null;
  return [...new Set(words.map(Number))].sort((one, other) => one - other);
}

const expressions = () => ["first", "second"].map((name) => [name, find(name).value]).filter(([, text]) => text.trim());

function tellPrice() {
  const lines = (values() ?? []).length * expressions().length;
  find("lines").textContent = `${grouped(lines)} ${lines === 1 ? "line" : "lines"}`;
}

/** Why nothing can be measured, or "". */
function obstacle() {
  const numbers = values();
  if (!numbers) return "The values of n are whole numbers from 0, with commas between.";
  if (!numbers.length) return "There is no value of n.";
  if (numbers.length > MOST_VALUES) return `There are more than ${MOST_VALUES} values of n.`;
  if (!expressions().length) return "There is no expression.";
  if (expressions().some(([, text]) => measuringLine(text, 1) === null)) return "The expression has no n in it.";
  if (!session.seated) return "There is no connection: connect again, then measure.";
  return "";
}

async function start() {
  if (running) return;
  const why = obstacle();
  tellFault(why);
  if (why) return;
  find("copied").textContent = "";
  book.keep({ measure: Object.fromEntries(Object.keys(AT_FIRST).map((name) => [name, find(name).value])) });
  measured = expressions().map(([name, expression]) => {
    return { name, expression, title: find(`${name}-name`).value.trim() || expression.trim(), told: new Map() };
  });
  const numbers = values();
  run(true);
  for (const series of measured) await measure(series, numbers.slice(0, FIRST));
  if (running && (await isWanted(numbers.slice(FIRST)))) {
    for (const series of measured) await measure(series, numbers.slice(FIRST));
  }
  run(false);
  announce(`Measured. ${slopes("work")} ${slopes("depth")}`);
  afterMeasuring();
}

/** Tells what share of the work that is left the rest will take, and asks where it is much. */
async function isWanted(numbers) {
  const works = measured.filter(({ isOver }) => !isOver).map((series) => foreseen(points(series, "work"), numbers));
  const work = works.reduce((sum, one) => sum + (one ?? 0), 0);
  const share = work / workLeft();
  if (!numbers.length || !work || !workLeft()) return true;
  const told = `about ${Math.max(0.1, 100 * share).toPrecision(2)} % of the work that is left`;
  find("share").textContent = `The values of n from ${grouped(numbers[0])} on were foreseen to take ${told}.`;
  if (share < MUCH) return true;
  const text = `The values of n from ${grouped(numbers[0])} on will take ${told}, if costs grow as they began to.`;
  return (await asked(text, ["Measure them", "Stop here"])) === "Measure them";
}

function run(is) {
  running = is;
  find("go").textContent = is ? "Stop" : "Measure";
}

/** Runs an expression for each n, until an error that every further n would have. */
async function measure(series, numbers) {
  for (const n of numbers) {
    if (!running || series.isOver) return;
    const line = measuringLine(series.expression, n);
    const reply = await session.ask(line);
    if (reply === null) return tellFault("The connection or the measurement was ended.");
    const told = readReply(reply);
    series.told.set(n, told);
    draw();
    if (told.kind === "fault" && !FOR_THIS_N.test(told.word)) {
      series.isOver = true;
      return tellFault(`For n = ${n}, ${line.slice(0, 200)} is answered “${reply}”. ${FAULTS[told.word]}`);
    }
  }
}

function tellFault(text) {
  find("measure-fault").textContent = text;
}

/** The points of a series: each n with its work or its depth. */
function points(series, what) {
  return [...series.told].filter(([, told]) => told.depth !== undefined).map(([n, told]) => [n, Number(told[what])]);
}

function draw() {
  find("measured").hidden = measured.every((series) => series.told.size === 0);
  if (find("measured").hidden) return;
  find("legend").replaceChildren(...measured.map(drawLegend));
  for (const what of ["work", "depth"]) {
    const curves = measured.map((series) => ({ ...series, points: points(series, what) }));
    const axes = { n: find("log-n").checked, told: find(`log-${what}`).checked };
    drawCurves(find(`${what}-curve`), curves, axes, `${what} over n, as in the table below. ${slopes(what)}`);
    find(`${what}-slope`).textContent = slopes(what);
  }
  drawTable();
}

function drawLegend({ name, title, expression }) {
  const parts = title === expression.trim() ? [] : [`${title}: `];
  return make(`li.${name}`, ...parts, make("code", expression));
}

/** The slopes of all curves over the last half of their points, in words, and how each grows where that is clear. */
function slopes(what) {
  const axes = [find("log-n").checked, find(`log-${what}`).checked];
  const told = measured.map((series) => slopeOf(points(series, what), axes));
  if (told.every((one) => one === null)) return "";
  const number = (one) => (one === null ? "none" : Number(one.toFixed(3)).toLocaleString("en"));
  const count = Math.max(...measured.map((series) => lastHalf(points(series, what)).length));
  const kinds = measured.map((series) => kindOf(points(series, what)));
  const grows = kinds.some(Boolean) ? ` It grows like ${kinds.map((kind) => kind || "(unclear)").join(" and ")}.` : "";
  const unit = UNITS[Number(axes[0])][Number(axes[1])];
  return `Slope over the last ${count} values of n: ${told.map(number).join(" and ")} ${unit}.${grows}`;
}

/** The rows of the table: each n with the work and depth, or the fault, of each series. */
function rows() {
  const numbers = [...new Set(measured.flatMap((series) => [...series.told.keys()]))].sort((one, other) => one - other);
  return numbers.map((n) => [n, measured.map((series) => series.told.get(n))]);
}

function drawTable() {
  const names = measured.flatMap(() => [header("work", "col"), header("depth", "col")]);
  const over = measured.map(({ title }) => wide(header(title, "colgroup")));
  const head = [make("tr", header("n", "col"), ...names)];
  if (over.length > 1) head.unshift(make("tr", make("td"), ...over));
  const body = rows().map(([n, told]) => make("tr", header(grouped(n), "row"), ...told.flatMap(drawTold)));
  find("table").replaceChildren(find("table-title"), make("thead", ...head), make("tbody", ...body));
}

const header = (text, scope) => Object.assign(make("th", text), { scope });
const wide = (cell) => Object.assign(cell, { colSpan: 2 });

function drawTold(told) {
  if (!told) return [wide(make("td.soft", "not measured"))];
  if (!told.depth) return [wide(make("td.wrong", `fault ${told.word}`))];
  return [make("td", grouped(told.work)), make("td", grouped(told.depth))];
}

function csv() {
  const own = ({ name }) => find(`${name}-name`).value.trim() || name;
  const ending = (series) => (measured.length > 1 ? ` ${own(series)}` : "");
  const quoted = (text) => (/[",\n]/.test(text) ? `"${text.replace(/"/g, '""')}"` : text);
  const names = measured.flatMap((series) => ["work", "depth"].map((what) => quoted(what + ending(series))));
  const cells = (told) => (told?.depth ? [told.work, told.depth] : ["", ""]);
  const all = [["n", ...names], ...rows().map(([n, told]) => [n, ...told.flatMap(cells)])];
  return all.map((row) => `${row.join(",")}\n`).join("");
}

async function copy() {
  try {
    await navigator.clipboard.writeText(csv());
    find("copied").textContent = "Copied.";
  } catch {
    find("copied").textContent = "The browser doesn’t let the page copy.";
  }
}
"##;
