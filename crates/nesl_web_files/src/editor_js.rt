//! `page/editor.js`, by scripts/page_files.

/// The text.
pub static TEXT: &str =
    r##"/** Fields for programs: colours, matching brackets, indentation, and names by Tab. */
import { make } from "./dom.js";
import { goesOn } from "./forms.js";
import { kindOfName, namesFrom } from "./help.js";
import { tokensOf } from "./language.js";
import { ownNames } from "./left.js";

const MOST_PAINTED = 20000; // characters
const MOST_NAMES = 40;

function kindOf(token) {
  if (token[0] === "%") return "comment";
  if (token[0] === '"' || (token[0] === "`" && token.length > 1)) return "text";
  if (/^\d/.test(token)) return "number";
  return /^[a-z]/i.test(token) ? kindOfName(token.toLowerCase()) : "";
}

/**
 * A text in its colours.
 * @param {string} text
 * @param {{ from: number, to: number, kind: string }[]} marks what is marked in it; the first of two that overlap wins
 */
export function painted(text, marks = []) {
  const host = document.createDocumentFragment();
  const edges = marks.flatMap(({ from, to }) => [from, to]);
  let [at, open, mark] = [0, host, null];
  for (const token of text.length > MOST_PAINTED ? [text] : tokensOf(text)) {
    const kind = kindOf(token);
    for (let rest = token; rest; ) {
      const here = marks.find(({ from, to }) => from <= at && at < to) ?? null;
      if (here !== mark) {
        open = here ? make(`mark.${here.kind}`) : host;
        if (here) host.append(open);
        mark = here;
      }
      const piece = rest.slice(0, Math.min(rest.length, ...edges.filter((edge) => edge > at).map((edge) => edge - at)));
      open.append(kind ? make(`span.${kind}`, piece) : piece);
      at += piece.length;
      rest = rest.slice(piece.length);
    }
  }
  return host;
}

/** The bracket beside a place and the one that it belongs to, as marks. */
function pairAt(text, caret) {
  const opened = [];
  let at = 0;
  for (const token of tokensOf(text)) {
    if (/^[([{]$/.test(token)) opened.push(at);
    if (/^[)\]}]$/.test(token) && opened.length) {
      const pair = [opened.pop(), at];
      if (pair.some((place) => place === caret || place + 1 === caret)) {
        return pair.map((from) => ({ from, to: from + 1, kind: "pair" }));
      }
    }
    at += token.length;
  }
  return [];
}

/** The blanks before the next line: none between two inputs, and two more where something is open. */
function indentation(text, isMore) {
  if (!goesOn(text)) return "";
  const line = text.slice(text.lastIndexOf("\n") + 1);
  const own = /^ */.exec(line)[0];
  return isMore && /([=([{]|\b(let|in|then|else))\s*$/i.test(line) ? `${own}  ` : own;
}

/** Writes into a field as typing does, so that the browser can undo it. */
function insert(field, text) {
  field.focus();
  if (document.execCommand(text ? "insertText" : "delete", false, text)) return;
  field.setRangeText(text, field.selectionStart, field.selectionEnd, "end");
  field.dispatchEvent(new Event("input"));
}

/** A field with its colours behind it, and the list of names above it. */
class Editor {
  constructor(field, acts) {
    Object.assign(this, { field, acts, names: [], chosen: -1 });
    this.paint = Object.assign(make("pre.paint.code"), { ariaHidden: "true" });
    this.list = Object.assign(make("ul.choices"), { hidden: true, id: `${field.id}-names`, role: "listbox" });
    this.list.ariaLabel = "Names";
    const sheet = make("div.sheet", this.paint);
    this.host = make("div.editor", sheet, this.list);
    field.replaceWith(this.host);
    sheet.append(field);
    field.setAttribute("aria-controls", this.list.id);
    field.addEventListener("input", () => this.changed());
    field.addEventListener("keydown", (event) => this.key(event));
    field.addEventListener("blur", () => this.close());
    document.addEventListener("selectionchange", () => document.activeElement === field && this.draw());
    this.draw();
  }

  get value() {
    return this.field.value;
  }

  /** Puts a text into the field: what was in it comes back by Ctrl-Z. */
  put(text) {
    if (document.activeElement === this.field && text.length < 5000 && this.value) {
      this.field.select();
      insert(this.field, text);
    } else this.field.value = text;
    this.field.setSelectionRange(text.length, text.length);
    this.changed();
  }

  changed() {
    this.close();
    this.draw();
    this.acts.changed?.();
  }

  draw() {
    const { value, selectionStart, selectionEnd } = this.field;
    const isShown = document.activeElement === this.field && selectionStart === selectionEnd;
    const marks = isShown && value.length <= MOST_PAINTED ? pairAt(value, selectionStart) : [];
    this.paint.replaceChildren(painted(value, marks), "\n");
  }

  key(event) {
    if (event.isComposing) return;
    if (!this.list.hidden && this.choose(event)) return event.preventDefault();
    const isPlain = !event.ctrlKey && !event.metaKey && !event.altKey;
    if (event.key === "Enter" && !event.altKey) return this.enter(event);
    if (event.key === "Tab" && isPlain && !event.shiftKey && this.complete()) return event.preventDefault();
    return this.acts.key?.(event);
  }

  /** Enter runs what is whole, at its end or in its only line; else it breaks the line, as Shift-Enter does. */
  enter(event) {
    event.preventDefault();
    const { value, selectionStart, selectionEnd } = this.field;
    if (event.ctrlKey || event.metaKey) return this.acts.run();
    const isAtEnd = !value.slice(selectionEnd).trim() || !value.includes("\n");
    if (!event.shiftKey && isAtEnd && !goesOn(value)) return this.acts.run();
    if (!event.shiftKey && isAtEnd) this.acts.goesOn?.();
    const place = event.shiftKey || !isAtEnd ? selectionStart : value.length;
    if (!event.shiftKey && isAtEnd) this.field.setSelectionRange(place, place);
    return insert(this.field, `\n${indentation(value.slice(0, place), !event.shiftKey)}`);
  }

  get front() {
    const { value, selectionStart, selectionEnd } = this.field;
    return selectionStart === selectionEnd ? (/[a-z]\w*$/i.exec(value.slice(0, selectionStart))?.[0] ?? "") : "";
  }

  /** Completes the name before the caret, or lists those that it may be; false where there is none. */
  complete() {
    this.names = this.front ? namesFrom(this.front, ownNames()).slice(0, MOST_NAMES) : [];
    if (!this.names.length) return false;
    if (this.names.length === 1 && this.names[0].name !== this.front) this.take(this.names[0].name);
    this.open();
    return true;
  }

  open() {
    const rows = this.names.map(({ name, told }, at) => {
      const row = Object.assign(make("li", make("b.code", name), " ", make("span.soft.code", told)),
        { id: `${this.list.id}-${at}`, role: "option" });
      row.addEventListener("mousedown", (event) => {
        event.preventDefault();
        this.take(name);
      });
      return row;
    });
    this.list.replaceChildren(...rows);
    this.list.hidden = false;
    this.mark(0);
  }

  mark(at) {
    this.chosen = (at + this.names.length) % this.names.length;
    [...this.list.children].forEach((row, place) => (row.ariaSelected = String(place === this.chosen)));
    this.field.setAttribute("aria-activedescendant", `${this.list.id}-${this.chosen}`);
    this.list.children[this.chosen].scrollIntoView({ block: "nearest" });
  }

  close() {
    this.list.hidden = true;
    this.field.removeAttribute("aria-activedescendant");
  }

  /** What a key does while names are listed; false where it does nothing with them. */
  choose(event) {
    const step = { ArrowDown: 1, ArrowUp: -1, Tab: event.shiftKey ? -1 : 1 }[event.key];
    const isKnown = this.names.length === 1 && this.names[0].name === this.front.toLowerCase();
    if (event.key === "Escape") this.close();
    else if (isKnown) return this.close();
    else if (step) this.mark(this.chosen + step);
    else if (event.key === "Enter" && !event.ctrlKey) this.take(this.names[this.chosen].name);
    else return false;
    return true;
  }

  take(name) {
    const { selectionStart } = this.field;
    this.field.setSelectionRange(selectionStart - this.front.length, selectionStart);
    insert(this.field, name);
  }
}

/**
 * Makes a field one for programs.
 * @param {HTMLTextAreaElement} field
 * @param {object} acts what it does: `run`, and maybe `changed`, `goesOn` where Enter breaks a line, and `key`
 */
export const editorOf = (field, acts) => new Editor(field, acts);
"##;
