// A reader over the bytes of a script, by line and by word.
ghost use Rattle.std.specs.Prelude.{◌+◌, ◌≤◌, length};
ghost use Rattle.reading.specs.Text.{with_its_end};

pub mod calls;

// What is left of a script: the line at hand, until its last word is read, and all that follows it.
// One struct over borrowed bytes with both counts (docs/DECISIONS.md, Forms): that a call stays in its line each one says (`InLine`).
#[derive(Clone, Copy)]
pub struct Reader<'a> {
    line: Option<&'a [u8]>,
    rest: &'a [u8],
    lines: u32,
    words: u32,
    ghost few_lines: { lines + length rest.now ≤ 65536 },
    ghost few_words: { words + with_its_end line ≤ 65537 },
}
