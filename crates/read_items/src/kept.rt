//! What is kept of an item.
ghost use Rattle.def_format.specs.Limits.{bundle_byte_limit};
ghost use Rattle.def_format.specs.Lines.{has_line_feed};
ghost use Rattle.read_items.specs.GivenItems.{IsItem};
ghost use Rattle.read_items.specs.Items.{whole_line};
ghost use Rattle.read_items.specs.Steps.{IsKept, TakesLine};
ghost use Rattle.read_lines.specs.GivenLines.{IsLine};
ghost use Rattle.std.specs.Prelude.{◌≡◌, ◌++◌, ◌<◌, [], IfNone, IfOk, IfSome, List, OnOk, false, length, ℕ};

use super::dividers::is_divider;
use def_format::BUNDLE_BYTE_LIMIT;
use read_lines::Line;
use std::alloc::{AllocError, Global};

/// The bytes of an item so far, or that they are too many.
#[derive(Drop)]
pub(crate) struct Kept {
    bytes: Vec<u8>,
    is_long: bool,
}

impl Kept {
    /// No bytes.
    pub(crate) fn nothing(alloc: Global) -> Kept
        ensures { IsKept result [] }
    {
        Kept {
            bytes: Vec::new(alloc),
            is_long: false,
        }
    }

    /// From now on the item is too long.
    fn drop_all(&mut self)
        ensures { (part : List ℕ) → bundle_byte_limit < length part → IsKept self.new part }
    {
        self.bytes.clear();
        self.is_long = true;
    }

    /// Adds bytes.
    ///
    /// # Errors
    /// If memory runs out.
    fn keep(&mut self, bytes: &[u8]) -> Result<(), AllocError>
        ensures { OnOk result ((part : List ℕ) → IsKept self.old part → IsKept self.new (part ++ bytes.now)) }
    {
        if self.is_long {
            return Ok(());
        }
        if self.bytes.len() + bytes.len() > BUNDLE_BYTE_LIMIT {
            self.drop_all();
            return Ok(());
        }
        self.bytes.extend_from_slice(bytes)
    }

    /// Adds a line, with the LF that ends it if there is one.
    fn keep_whole(&mut self, line: &[u8], has_feed: bool) -> Result<(), AllocError>
        ensures { OnOk result ((part : List ℕ) → IsKept self.old part
            → IsKept self.new (part ++ whole_line has_feed line.now)) }
    {
        self.keep(line)?;
        if has_feed {
            return self.keep(b"\n");
        }
        Ok(())
    }

    /// Whether the line, which an LF ends or not, divides items. If it doesn't, it is added.
    ///
    /// # Errors
    /// If memory runs out.
    pub(crate) fn take_line(&mut self, line: &Line, has_feed: bool) -> Result<bool, AllocError>
        ensures { IfOk result (λ divides. (bytes : List ℕ) → IsLine line.now bytes
            → (has_feed ≡ false → has_line_feed bytes ≡ false)
            → TakesLine divides self.old self.new (whole_line has_feed bytes)) }
    {
        match line {
            Line::Whole(bytes) => {
                if is_divider(bytes) {
                    return Ok(true);
                }
                self.keep_whole(bytes, has_feed)?;
            }
            Line::Long => self.drop_all(),
        }
        Ok(false)
    }

    /// The item of which these are the bytes.
    pub(crate) fn item(self) -> Line
        ensures { (part : List ℕ) → IsKept self part → IsItem result part }
    {
        if self.is_long {
            return Line::Long;
        }
        Line::Whole(self.bytes)
    }

    /// The last item of an input, after which no line divides: the one of which these are the bytes, if there are any.
    pub(crate) fn last_item(self) -> Option<Line>
        ensures none { IfNone result ((part : List ℕ) → IsKept self part → part ≡ []) }
        ensures some { IfSome result (λ line. (part : List ℕ) → IsKept self part
            → IsItem line part × (0 < length part)) }
    {
        if !self.is_long && self.bytes.is_empty() {
            return None;
        }
        Some(self.item())
    }
}
