// 01 "The image".
use crate::blocks;
use crate::blocks::{Marked, Panel};
use crate::calls::Refusal;
use crate::window::{Sought, WHOLE};

// A byte past the end is 0.
pub fn byte(image: &[u8], at: usize) -> u8 {
    image.get(at).copied().unwrap_or(0)
}

// Four bytes, low byte first.
fn number(image: &[u8], at: usize) -> u32 {
    match image.get(at..) {
        Some([a, b, c, d, ..]) => u32::from_le_bytes([*a, *b, *c, *d]),
        _ => 0,
    }
}

pub fn code_of_entry(image: &[u8], i: u32) -> u32 {
    number(image, 10 + 4 * (i as usize))
}

pub fn level_of_entry(image: &[u8], entries: u32, i: u32) -> u32 {
    byte(image, 10 + 4 * (entries as usize) + (i as usize)) as u32
}

// The number of entries that the image states.
pub fn entry_number(image: &[u8]) -> u32 {
    number(image, 2)
}

// The length of the image that starts so.
pub fn stated_length(image: &[u8]) -> usize {
    10 + 5 * (entry_number(image) as usize)
}

fn has_sizes(panel: Panel, image: &[u8]) -> bool {
    (byte(image, 0) as u32) == panel.m && byte(image, 1) == panel.k
}

// Refused by what it starts with: 10 or 11.
pub fn judge_header(panel: Panel, image: &[u8]) -> Result<(), Refusal> {
    if image.len() != stated_length(image) {
        return Err(Refusal::Numbered(10));
    }
    if !has_sizes(panel, image) || panel.most < number(image, 6) {
        return Err(Refusal::Numbered(11));
    }
    Ok(())
}

// The codes that stand at level 0: no other set can have these bytes as its image.
pub fn named(panel: Panel, image: &[u8]) -> Marked {
    let mut marked = Marked::empty(panel);
    let entries = entry_number(image);
    for i in 0..entries {
        if level_of_entry(image, entries, i) == 0 {
            marked.put(code_of_entry(image, i), true);
        }
    }
    marked
}

fn has_entry(image: &[u8], entries: u32, i: u32, place: u16) -> bool {
    code_of_entry(image, i) == blocks::code_at(place)
        && level_of_entry(image, entries, i) == blocks::level_at(place)
}

// Whether every byte from here on is still 7, as it was before.
fn is_left(bytes: &[u8], from: usize) -> bool {
    bytes.iter().skip(from).all(|byte| *byte == 7)
}

impl Marked {
    // The pixels, or all entries up to a higher level.
    pub fn number_of(&self, high: u32) -> u16 {
        let sought = Sought {
            low: 0,
            high,
            over_edge: false,
        };
        self.entries(WHOLE, sought)
    }

    pub fn image_length(&self) -> usize {
        10 + 5 * (self.number_of(4) as usize)
    }

    // Whether these bytes start with the image of the set: m, k, the number of entries and that of pixels; then the codes of the entries, then their levels.
    pub fn is_image(&self, image: &[u8]) -> bool {
        let entries = self.number_of(4) as u32;
        has_sizes(self.panel, image)
            && entry_number(image) == entries
            && number(image, 6) == (self.number_of(0) as u32)
            && self.has_entries(entries, image)
    }

    fn has_entries(&self, entries: u32, image: &[u8]) -> bool {
        (0..self.panel.places)
            .filter(|place| self.is_entry(*place))
            .zip(0..entries)
            .all(|(place, i)| has_entry(image, entries, i, place))
    }

    // Whether the bytes are what save leaves of an output of 7 everywhere: the image of the set where it was accepted, and the rest as before.
    pub fn is_saved(&self, accepted: bool, bytes: &[u8]) -> bool {
        if accepted {
            return self.is_image(bytes) && is_left(bytes, self.image_length());
        }
        is_left(bytes, 0)
    }
}
