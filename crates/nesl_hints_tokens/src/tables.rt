//! Tables of sentences. A line of a table has words with a blank between, and after a tab what is said of each.

/// What is said of a word, where it is one of the table.
pub fn said_of_word(table: &'static str, word: &[u8]) -> Option<&'static str> {
    for line in table.lines() {
        let (words, said) = line.split_once('\t')?;
        if has_word(words, word) {
            return Some(said);
        }
    }
    None
}

/// Whether a word is one of several, with a blank between, in letters of any case.
pub(crate) fn has_word(words: &str, word: &[u8]) -> bool {
    for known in words.split(' ') {
        if known.as_bytes().eq_ignore_ascii_case(word) {
            return true;
        }
    }
    false
}

/// The length of the first word of the table with which the text begins, and what is said of it.
pub(crate) fn said_of_front(table: &'static str, text: &[u8]) -> Option<(usize, &'static str)> {
    for line in table.lines() {
        let (words, said) = line.split_once('\t')?;
        for known in words.split(' ') {
            if text.starts_with(known.as_bytes()) {
                return Some((known.len(), said));
            }
        }
    }
    None
}
