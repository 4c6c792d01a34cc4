// What text is written to, in parts, and a text on the heap that hears it.
ghost use Rattle.std.specs.Prelude.{◌≡◌, [], Some};
ghost use Rattle.reading.specs.Logs.{heard, Hears, log_whole};
ghost use Rattle.reading.specs.Sinks.{Hearing, Whole};

use std::alloc::{AllocError, Global};

/// What hears text, in parts.
pub trait TextSink {
    // what hearing a text makes of it; one that can fail says so here
    ghost hears: { Hearing Self };

    // however a text is cut, it is heard as the whole
    ghost whole: { Whole hears };

    /// Hears a part of the text.
    fn hear(&mut self, text: &[u8])
        ensures { hears self.old text.now self.new };
}

/// A text on the heap. Where the memory does not suffice for a part it keeps that, and no text.
#[derive(Drop)]
pub struct TextLog {
    text: Result<Vec<u8>, AllocError>,
}

impl TextLog {
    /// One that has heard nothing.
    pub fn new(heap: Global) -> TextLog
        ensures { heard result ≡ Some [] }
    {
        TextLog {
            text: Ok(Vec::new(heap)),
        }
    }

    /// What it has heard, or that the memory did not suffice.
    pub fn into_text(self) -> Result<Vec<u8>, AllocError>
        ensures { result ≡ self.text }
    {
        self.text
    }
}

impl TextSink for TextLog {
    ghost hears = { Hears };

    ghost whole = { log_whole };

    fn hear(&mut self, text: &[u8]) {
        if let Ok(so_far) = &mut self.text {
            if let Err(failed) = so_far.extend_from_slice(text) {
                self.text = Err(failed);
            }
        }
    }
}
