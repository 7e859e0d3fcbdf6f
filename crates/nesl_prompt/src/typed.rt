//! Forms as they were typed, over one or several lines.

use std::alloc::AllocError;

/// A form, whose lines are joined by blanks.
#[derive(Drop)]
pub struct Typed {
    pub form: Vec<u8>,
    /// The places of the blanks between its lines, in order.
    pub joints: Vec<usize>,
}

/// A line of a form: the bytes from `start` up to `end`.
#[derive(Clone, Copy, PartialEq, Eq, Debug)]
pub struct TypedLine {
    /// The number of the line, from 1 on.
    pub number: usize,
    pub start: usize,
    pub end: usize,
}

impl Typed {
    /// Puts the parts of a form that came before it in front.
    pub fn after(self, before: Vec<u8>) -> Result<Typed, AllocError> {
        let Typed { form, joints } = self;
        if before.is_empty() {
            return Ok(Typed { form, joints });
        }
        let mut whole = before;
        let mut moved = joints;
        for place in moved.iter_mut() {
            *place = place.saturating_add(whole.len());
        }
        whole.extend_from_slice(form.as_slice())?;
        Ok(Typed {
            form: whole,
            joints: moved,
        })
    }

    /// Whether it was typed in one line.
    pub fn is_one_line(&self) -> bool {
        self.joints.is_empty()
    }

    /// Returns the line that has the byte at `place`, or the last line if there is no such byte.
    pub fn line_at(&self, place: usize) -> TypedLine {
        let mut line = TypedLine {
            number: 1,
            start: 0,
            end: self.form.len(),
        };
        for joint in &self.joints {
            if place <= *joint {
                line.end = *joint;
                return line;
            }
            line.number = line.number.saturating_add(1);
            line.start = joint.saturating_add(1);
        }
        line
    }

    /// Appends the lines as they were typed, without blank ones at the end.
    pub fn put(&self, out: &mut Vec<u8>) -> Result<(), AllocError> {
        let form = self.form.as_slice().trim_ascii_end();
        let mut joints = self.joints.iter();
        let mut next = joints.next();
        for (place, byte) in form.iter().enumerate() {
            if next == Some(&place) {
                out.push(b'\n')?;
                next = joints.next();
            } else {
                out.push(*byte)?;
            }
        }
        Ok(())
    }
}
