// Mappings as words: for each of 96 variables a tag (0 constant, 1 variable) and a number.
#![tactic(auto)]

ghost use Rattle.std.specs.Prelude.{◌≡◌, ◌+◌, ◌≤◌, length, drop};
ghost use Rattle.lists.specs.Over.{over};
ghost use Rattle.mapping_words.specs.Images.{entry_words, mapping_words, get_image, images_in};
ghost use Rattle.mapping_words.specs.internal.Steps.{image_read, mapping_read};

use query::{Cell, Entry};

// Writes an entry's tag and number.
fn put_image(words: &mut [u32], at: usize, entry: Entry)
    requires { at + 2 ≤ length words.old }
    ensures { words.new ≡ over words.old at (entry_words entry) }
{
    match entry {
        Entry::Constant(n) => {
            words[at] = 0;
            words[at + 1] = n;
        }
        Entry::Variable(v) => {
            words[at] = 1;
            words[at + 1] = v as u32;
        }
    }
}

// Writes a mapping over the first 192 words.
pub fn put_mapping(images: [Cell; 96], words: &mut [u32])
    requires { 192 ≤ length words.old }
    ensures { words.new ≡ over words.old 0 (mapping_words images) }
{
    for (i, cell) in images.iter().enumerate() {
        put_image(words, 2 * i, cell.entry);
    }
}

// The entry that the two words at a position stand for, if they stand for one.
fn read_image(words: &[u32], at: usize) -> Option<Entry>
    requires { at + 2 ≤ length words.now }
    ensures { result ≡ image_read (get_image (drop at words.now)) }
{
    let n = words[at + 1];
    match words[at] {
        0 => Some(Entry::Constant(n)),
        1 => Some(Entry::Variable(u8::try_from(n).ok()?)),
        _ => None,
    }
}

// The images that words stand for, if they stand for any.
pub fn read_mapping(words: &[u32]) -> Option<[Cell; 96]>
    ensures { result ≡ mapping_read (images_in words.now) }
{
    if words.len() != 192 {
        return None;
    }
    let mut images = [query::NO_CELL; 96];
    for (i, image) in images.iter_mut().enumerate() {
        image.entry = read_image(words, 2 * i)?;
    }
    Some(images)
}
