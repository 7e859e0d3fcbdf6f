//! `page/icon.svg`, by scripts/page_files.

/// The text.
pub static TEXT: &str =
    r##"<svg xmlns="http://www.w3.org/2000/svg" viewBox="0 0 32 32"><rect width="32" height="32" rx="7" fill="#0a6670"/><path d="M6 25C14 25 15 18 18 13s5-6 8-6" fill="none" stroke="#fff" stroke-width="3" stroke-linecap="round"/><circle cx="18" cy="13" r="3" fill="#f0a868"/></svg>
"##;
