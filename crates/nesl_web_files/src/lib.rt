//! The files of the page, as they are in `page/`; `scripts/page_files` makes the texts.
#![tactic(auto)]

mod curves_js;
mod dom_js;
mod editor_js;
mod exercise_js;
mod files_js;
mod fit_js;
mod forms_js;
mod help_js;
mod help_table_js;
mod icon_svg;
mod index_html;
mod kept_js;
mod language_js;
mod left_js;
mod lesson_view_js;
mod lessons_json;
mod main_js;
mod measure_js;
mod notebook_js;
mod session_js;
mod style_css;

/// A file of the page: what it is, as `Content-Type` says it, and its text.
#[derive(Clone, Copy)]
pub struct File<'x> {
    pub kind: &'static str,
    pub text: &'x str,
}

const HTML: &str = "text/html; charset=utf-8";

const CSS: &str = "text/css; charset=utf-8";

const JSON: &str = "application/json; charset=utf-8";

const SCRIPT: &str = "text/javascript; charset=utf-8";

// The path of the lessons.
const LESSONS: &str = "/lessons.json";

const SVG: &str = "image/svg+xml";

// A file of the page and its path.
#[derive(Clone, Copy)]
struct Placed {
    path: &'static str,
    file: File<'static>,
}

/// How long the sessions of a service last.
#[derive(Clone, Copy, PartialEq, Eq, Debug)]
pub enum Lasting {
    /// Until the service ends.
    InMemory,
    /// Beyond that, since they are kept on a disk.
    Kept,
}

impl Lasting {
    // What the page's other scripts import of it, and whether the service answers errors with hints.
    fn script(self) -> &'static str {
        match self {
            Lasting::InMemory => "export const ARE_KEPT = false;\nexport const HINTS = true;\n",
            Lasting::Kept => "export const ARE_KEPT = true;\nexport const HINTS = true;\n",
        }
    }
}

/// The file at a path of a service whose sessions last as long as this; the page itself is at `/`. The lessons are
/// these, in the form of our own `lessons.json`, or our own if there are none.
pub fn file_at<'x>(path: &str, lasting: Lasting, lessons: Option<&'x str>) -> Option<File<'x>> {
    if path == "/lasting.js" {
        return Some(File {
            kind: SCRIPT,
            text: lasting.script(),
        });
    }
    if let Some(text) = lessons {
        if path == LESSONS {
            return Some(File { kind: JSON, text });
        }
    }
    for placed in &all_files() {
        if placed.path == path {
            return Some(placed.file);
        }
    }
    None
}

fn all_files() -> [Placed; 22] {
    [
        at("/", HTML, index_html::TEXT),
        at("/index.html", HTML, index_html::TEXT),
        at("/style.css", CSS, style_css::TEXT),
        at("/icon.svg", SVG, icon_svg::TEXT),
        at(LESSONS, JSON, lessons_json::TEXT),
        at("/main.js", SCRIPT, main_js::TEXT),
        at("/dom.js", SCRIPT, dom_js::TEXT),
        at("/kept.js", SCRIPT, kept_js::TEXT),
        at("/session.js", SCRIPT, session_js::TEXT),
        at("/language.js", SCRIPT, language_js::TEXT),
        at("/forms.js", SCRIPT, forms_js::TEXT),
        at("/editor.js", SCRIPT, editor_js::TEXT),
        at("/help.js", SCRIPT, help_js::TEXT),
        at("/help_table.js", SCRIPT, help_table_js::TEXT),
        at("/notebook.js", SCRIPT, notebook_js::TEXT),
        at("/files.js", SCRIPT, files_js::TEXT),
        at("/left.js", SCRIPT, left_js::TEXT),
        at("/measure.js", SCRIPT, measure_js::TEXT),
        at("/fit.js", SCRIPT, fit_js::TEXT),
        at("/curves.js", SCRIPT, curves_js::TEXT),
        at("/lesson_view.js", SCRIPT, lesson_view_js::TEXT),
        at("/exercise.js", SCRIPT, exercise_js::TEXT),
    ]
}

fn at(path: &'static str, kind: &'static str, text: &'static str) -> Placed {
    Placed {
        path,
        file: File { kind, text },
    }
}
