//! The lines of a lesson that belong together.

use std::alloc::{AllocError, Global};
use std::mem;

/// The number of backquotes with which a block may begin.
const LEAST_TICKS: usize = 3;

/// Lines that belong together: a heading, a paragraph, a list, a table, or a block with the lines that enclose it.
#[derive(Drop)]
pub(crate) struct Group<'t> {
    pub(crate) lines: Vec<&'t str>,
}

impl<'t> Group<'t> {
    /// The first line.
    pub(crate) fn first(&self) -> &'t str {
        match self.lines.first() {
            Some(line) => line,
            None => "",
        }
    }

    /// The lines of a block without those that enclose it.
    pub(crate) fn inner(&self) -> &[&'t str] {
        match self.lines.as_slice() {
            [_, inner @ .., _] => inner,
            short => &short[..0],
        }
    }
}

/// The number of backquotes at the front of a line, if they begin or end a block.
pub(crate) fn fence_of(line: &str) -> Option<usize> {
    let bytes = line.as_bytes();
    let ticks = match bytes.iter().position(|byte| *byte != b'`') {
        Some(place) => place,
        None => bytes.len(),
    };
    if ticks >= LEAST_TICKS {
        Some(ticks)
    } else {
        None
    }
}

// Groups in the making.
#[derive(Drop)]
struct Grouping<'t> {
    alloc: Global,
    groups: Vec<Group<'t>>,
    lines: Vec<&'t str>,
    // The backquotes of the block that is open.
    fence: Option<usize>,
}

impl<'t> Grouping<'t> {
    fn finish_group(&mut self) -> Result<(), AllocError> {
        if !self.lines.is_empty() {
            let lines = mem::replace(&mut self.lines, Vec::new(self.alloc));
            self.groups.push(Group { lines })?;
        }
        Ok(())
    }

    // Adds a line of a block that is open.
    fn add_inside(&mut self, line: &'t str, open: usize) -> Result<(), AllocError> {
        self.lines.push(line)?;
        match fence_of(line) {
            Some(ticks) if ticks >= open => {
                self.fence = None;
                self.finish_group()
            }
            Some(_) | None => Ok(()),
        }
    }

    // Adds a line outside all blocks. An empty line ends a group, and a heading is a group of its own.
    fn add_outside(&mut self, line: &'t str) -> Result<(), AllocError> {
        if line.is_empty() {
            return self.finish_group();
        }
        let fence = fence_of(line);
        let is_heading = line.as_bytes().starts_with(b"#");
        if fence.is_some() || is_heading {
            self.finish_group()?;
        }
        self.fence = fence;
        self.lines.push(line)?;
        if is_heading {
            return self.finish_group();
        }
        Ok(())
    }
}

/// Parts lines into groups. A block that is never closed is a group without its last line.
pub(crate) fn groups_of<'t>(
    alloc: Global,
    lines: &[&'t str],
) -> Result<Vec<Group<'t>>, AllocError> {
    let mut grouping = Grouping {
        alloc,
        groups: Vec::new(alloc),
        lines: Vec::new(alloc),
        fence: None,
    };
    for line in lines {
        match grouping.fence {
            Some(open) => grouping.add_inside(line, open)?,
            None => grouping.add_outside(line)?,
        }
    }
    grouping.finish_group()?;
    Ok(grouping.groups)
}
