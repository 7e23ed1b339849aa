//! Says what was noted of an event.

use super::text::Text;
use read_notes::Noted;

impl Text {
    /// Says what was noted of an event: the text between quotes, where the event was recorded, and how many other notes
    /// it has.
    pub fn say_note(&mut self, noted: &Noted<'_>) {
        let (text, place) = (noted.note.text.as_str(), noted.note.place.as_str());
        if !text.is_empty() {
            self.say("\"");
            self.say_shown(text.as_bytes());
            self.say(if place.is_empty() { "\"" } else { "\" " });
        }
        if !place.is_empty() {
            self.say("at ");
            self.say_shown(place.as_bytes());
        }
        if noted.others > 0 {
            self.say(" and ");
            self.say_number(noted.others);
            self.say(if noted.others == 1 {
                " more note"
            } else {
                " more notes"
            });
        }
    }
}
