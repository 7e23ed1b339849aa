//! What was read of a file, for an explanation.
use super::lines::{cut_line, line_of_place};
use super::text::Text;

/// The name and the bytes of a file or another text that is explained.
#[derive(Clone, Copy)]
pub struct Source<'a> {
    /// Its name, as the arguments give it, or as it is called.
    pub name: &'a str,
    /// Its bytes.
    pub bytes: &'a [u8],
    /// How many lines of the bundle stand before it, if it is a part of one that isn't the first; 0 if not.
    pub before: u64,
}

impl Text {
    /// Says a line's number, and which line of the bundle it is.
    fn say_line(&mut self, before: u64, line: u64) {
        self.say(", line ");
        self.say_number(line);
        if before > 0 {
            self.say(" (line ");
            self.say_number(before.saturating_add(line));
            self.say(" of the bundle)");
        }
    }

    /// Shows the line of a file in which this place stands, with a caret below it.
    pub fn show_place(&mut self, source: &Source<'_>, place: usize) {
        let (line, start) = line_of_place(source.bytes, place);
        self.say("In ");
        self.say_shown(source.name.as_bytes());
        self.say_line(source.before, line);
        self.say(", byte ");
        self.say_number(place.saturating_sub(start).saturating_add(1) as u64);
        self.say(":\n");
        let from_start = source.bytes.get(start..).unwrap_or(&[]);
        let (line, _) = cut_line(from_start);
        self.show_line(line, Some(place.saturating_sub(start)));
    }

    /// Shows the line of a file with this number, with a caret below a place of it if there is one.
    pub fn show_numbered(
        &mut self,
        source: &Source<'_>,
        number: u64,
        line: &[u8],
        place: Option<usize>,
    ) {
        self.say("In ");
        self.say_shown(source.name.as_bytes());
        self.say_line(source.before, number);
        self.show_rest(line, place);
    }

    /// Shows the line with this number of what was just said, with a caret below a place of it if there is one.
    pub fn show_line_of(&mut self, number: u64, line: &[u8], place: Option<usize>) {
        self.say_line(0, number);
        self.show_rest(line, place);
    }

    /// Shows this line, whose number was just said, with a caret below a place of it if there is one.
    fn show_rest(&mut self, line: &[u8], place: Option<usize>) {
        if let Some(place) = place {
            self.say(", byte ");
            self.say_number(place.saturating_add(1) as u64);
        }
        self.say(":\n");
        self.show_line(line, place);
    }
}
