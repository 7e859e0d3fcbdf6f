//! `page/help.js`, by scripts/page_files.

/// The text.
pub static TEXT: &str =
    r##"/** Help at hand: `:help`, the types of functions, and names that begin with some letters. */
import { FORMS, ROWS, WORDS } from "./help_table.js";

const OVERVIEW = `An input ends in \`;\`, and may go on over several lines.

  exp;                          evaluates, and binds the value to \`it\`
  name = exp;                   evaluates, and binds the value to the name
  function name(a, b) = exp;    defines a function
  datatype name (type, type);   defines a datatype
  :type exp;                    shows the type that the expression would have
  :names  :budget  :reset       show the names, show what is left, forget all

  {exp : a in v; b in w | exp}  let a = exp; b = exp in exp
  if exp then exp else exp      [1, 2]  [] int  [1:9:2]  v[i]  "text"  \`c  T  F

Words of this page, which the session doesn't get:
  :help NAME   explains a function or a sign: \`:help take\`, \`:help ++\`
  :type NAME   shows the type of a function, too

Functions and signs:
`;
/** Words of the prompt for which the page has buttons. */
const ELSEWHERE = {
  list: "All inputs are in the notebook.", save: "“Save” above the notebook saves the inputs as a file.",
  load: "“Open” above the notebook opens a file.", quit: "“Leave” ends the connection.",
};

const FUNCTIONS = new Map(ROWS.flatMap(([names, ...row]) => names.split(" ").map((name) => [name, row])));

/** What a name is to the colours of a text: a reserved word, a function of the table, or nothing. */
export const kindOfName = (name) => (WORDS.includes(name) ? "word" : FUNCTIONS.has(name) ? "function" : "");

const typeOf = (name) => (name === "[s:e:d]" ? "(int, int, int) -> [int]" : FUNCTIONS.get(name)[3]);

function workOf(lengths) {
  const counted = lengths === "0" ? "" : `${lengths} + `;
  return `work 1 + ${counted}the nodes of the result below its root`;
}

/** The cost of a function, in lines. */
function costOf(lengths) {
  if (!lengths) return ["work 1 and depth 1, besides the arguments"];
  const counted = lengths.replace("R ", "");
  const depth = counted === lengths ? "depth 1" : `depth 1 + the binary digits of ${counted}`;
  const letters = { n: "n is the length of the sequence", "n + m": "n and m are the lengths of the two sequences" };
  return [workOf(counted), depth, ...(letters[counted] ? [letters[counted]] : [])];
}

function helpOn(name) {
  const [called, what, lengths] = FUNCTIONS.get(name);
  const text = `${called}${what && !what.startsWith(";") ? ": " : ""}${what}`;
  return [`${name} : ${typeOf(name)}`, ...[text, ...costOf(lengths)].map((line) => `  ${line}`)].join("\n");
}

/** What `:help` answers to a name; `own` has the user's names with their types. */
function help(name, own) {
  if (!name) return OVERVIEW + `  ${[...FUNCTIONS.keys()].join(" ")}`;
  if (FUNCTIONS.has(name)) return helpOn(name);
  if (FORMS[name.replace(/^:/, "")]) return FORMS[name.replace(/^:/, "")];
  if (own.get(name)) return `${name} : ${own.get(name)}`;
  return `there is no help on \`${name}\`; \`:help\` lists what there is`;
}

/** The answer to a word of the page's own, or null where a line is for the session. */
export function ownAnswer(line, own) {
  const [, word, rest] = /^:(help|type|list|save|load|quit)\b(.*)$/s.exec(line.trim()) ?? [];
  const name = rest?.trim().replace(/;$/, "").trim().toLowerCase();
  if (word === "help") return help(name, own);
  if (ELSEWHERE[word]) return ELSEWHERE[word];
  if (word !== "type") return null;
  if (FUNCTIONS.has(name)) return `${name} : ${typeOf(name)}`;
  return / -> /.test(own.get(name) ?? "") ? `${name} : ${own.get(name)}` : null;
}

/** The names that begin so, each with its type and cost: the user's own, then functions and reserved words. */
export function namesFrom(front, own) {
  const begins = (name) => name.startsWith(front.toLowerCase()) && /^[a-z]/.test(name);
  const mine = [...own].filter(([name]) => begins(name)).map(([name, type]) => ({ name, told: type || "" }));
  const functions = [...FUNCTIONS.keys()].filter((name) => begins(name) && !own.has(name) && !WORDS.includes(name));
  const told = (name) => `${typeOf(name)} · ${costOf(FUNCTIONS.get(name)[2]).slice(0, 2).join(", ")}`;
  const words = WORDS.filter(begins).map((name) => ({ name, told: "" }));
  const byName = (one, other) => (one.name < other.name ? -1 : 1);
  return [...mine, ...functions.map((name) => ({ name, told: told(name) })), ...words].sort(byName);
}
"##;
