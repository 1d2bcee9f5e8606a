// The line that is being read.
ghost use Rattle.std.specs.Prelude.{◌≡◌, ◌↔◌, [], Some, IsTrue, option_map};
ghost use Rattle.blocks.specs.Lines.{text_of, added, ended};

use arrayvec::ArrayVec;
use std::marker::Model;

// The longest line that is understood, in bytes.
pub const LONGEST_LINE: usize = 4096;
// The room for a line: one byte more, so that a return before the end finds room.
const ROOM: usize = LONGEST_LINE + 1;

// A line so far: its bytes, or none once there were more than find room.
#[derive(Drop)]
pub struct Line {
    held: Option<ArrayVec<u8, ROOM>>,
}

impl Model for Line {
    ghost use Rattle.std.specs.Prelude.{ℕ, List, Option, option_map};

    ghost Value = { Option (List ℕ) };

    ghost view = { λ line. option_map (λ held. held.items) line.held };
}

impl Line {
    // A line with no byte yet.
    pub fn new() -> Line
        ensures { result ≡ Some [] }
    {
        Line {
            held: Some(ArrayVec::new()),
        }
    }

    // Whether it has no byte yet.
    pub fn is_empty(&self) -> bool
        ensures { IsTrue result ↔ (self.now ≡ Some []) }
    {
        self.held.as_ref().is_some_and(|held| held.is_empty())
    }

    // One more byte; past the room the line has no bytes any more.
    pub fn add(&mut self, byte: u8)
        ensures { self.new ≡ added self.old byte }
    {
        if let Some(held) = &mut self.held
            && held.try_push(byte).is_err()
        {
            self.held = None;
        }
    }

    // Drops a return from the end of the line.
    pub fn drop_return(&mut self)
        ensures { self.new ≡ option_map ended self.old }
    {
        if let Some(held) = &mut self.held
            && held.last() == Some(&b'\r')
        {
            held.pop();
        }
    }

    // Makes room for the next line.
    pub fn clear(&mut self)
        ensures { self.new ≡ Some [] }
    {
        if let Some(held) = &mut self.held {
            held.clear();
        } else {
            *self = Line::new();
        }
    }

    // The bytes of the line, or none where there are too many.
    pub fn text(&self) -> Option<&[u8]>
        ensures { option_map (λ text. text.now) result ≡ text_of self.now }
    {
        let text = self.held.as_ref()?.as_slice();
        (text.len() <= LONGEST_LINE).then_some(text)
    }
}
