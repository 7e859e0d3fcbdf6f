//! `page/kept.js`, by scripts/page_files.

/// The text.
pub static TEXT: &str =
    r##"/** What is kept: by a tab who its user is, with the key, and by the browser the notebook of a user of this server. */

const PLACE = "pazkindu";
const WAIT = 200; // milliseconds in which changes of the notebook are kept together

function read(storage, place) {
  try {
    return JSON.parse(storage().getItem(place)) ?? {};
  } catch {
    return {};
  }
}

/** What this tab keeps: `user`, `key`, `link` to sign in by, and what was `told` when the user left. */
export const kept = read(() => sessionStorage, PLACE);

export function keep(changes) {
  Object.assign(kept, changes);
  try {
    sessionStorage.setItem(PLACE, JSON.stringify(kept));
  } catch {
    // Then a reload asks for the user again.
  }
}

/** Forgets who the user was. */
export function forget() {
  for (const name of Object.keys(kept)) delete kept[name];
  keep({});
}

/** What the browser keeps of a user. */
class Book extends EventTarget {
  words = {};
  user = "";
  waiting = 0;
  /** Whether the browser took all of it. */
  isKept = true;

  open(user) {
    this.user = user;
    this.words = read(() => localStorage, this.place);
  }

  get place() {
    return `${PLACE}:${this.user}`;
  }

  /** Keeps more, or other values, soon. */
  keep(changes) {
    Object.assign(this.words, changes);
    if (this.user && !this.waiting) this.waiting = setTimeout(() => this.write(), WAIT);
  }

  /** Keeps what waits for it. */
  write() {
    if (!this.waiting) return;
    clearTimeout(this.waiting);
    this.waiting = 0;
    try {
      localStorage.setItem(this.place, JSON.stringify(this.words));
      this.tell(true);
    } catch {
      this.tell(false);
    }
  }

  tell(isKept) {
    if (isKept === this.isKept) return;
    this.isKept = isKept;
    this.dispatchEvent(new Event("kept"));
  }

  /** Reads what another tab of this user has kept, unless something waits here. */
  readAgain(place) {
    if (place !== this.place || this.waiting) return;
    this.words = read(() => localStorage, this.place);
    this.dispatchEvent(new Event("changed"));
  }

  empty() {
    clearTimeout(this.waiting);
    this.waiting = 0;
    this.words = {};
    if (this.user) localStorage.removeItem(this.place);
  }
}

export const book = new Book();
window.addEventListener("pagehide", () => book.write());
window.addEventListener("storage", ({ key }) => book.readAgain(key));
"##;
